//! A hundred components in a thousand groups, and numbers of sets that share a node.

use pf_base::PathError;
use pf_components::connected_components::{MapIn, SetIn, component_index, separate_components};
use std::alloc::Global;
use std::collections::HashSet;

/// The sets of 1 and 2 and of 2 and 3, where memory is left.
fn overlapping_sets(alloc: Global) -> Option<Vec<SetIn<usize, Global>>> {
    let mut sets = Vec::new(alloc);
    for first in [1, 2] {
        let mut set = HashSet::new(alloc);
        for node in [first, first + 1] {
            set.insert(node).ok()?;
        }
        sets.push(set).ok()?;
    }
    Some(sets)
}

/// The next number of a sequence that looks random (G. Marsaglia, "Xorshift RNGs", 2003).
fn next_number(state: u64) -> u64 {
    let a = state ^ (state << 13);
    let b = a ^ (a >> 7);
    b ^ (b << 17)
}

/// A thousand groups of the numbers below 10,000, each of numbers that are alike modulo 100, among
/// them the least one, where memory is left.
fn mixed_groups(alloc: Global) -> Option<Vec<Vec<usize>>> {
    let mut groups = Vec::new(alloc);
    for _ in 0..1_000usize {
        groups.push(Vec::new(alloc)).ok()?;
    }
    let mut state = 88_172_645_463_325_252u64;
    for step in 0..10_000usize {
        let node = step * 7_919 % 10_000;
        state = next_number(state);
        for place in 0..10usize {
            if node < 100 || state % 10 == place as u64 {
                let group = groups.get_mut(place * 100 + node % 100)?;
                group.push(node).ok()?;
            }
        }
    }
    Some(groups)
}

/// What `separate_components` answers.
type Numbered<'a> = Result<(MapIn<&'a usize, usize, Global>, Vec<usize>), PathError>;

/// Whether the first hundred groups have a hundred numbers below a thousand.
fn are_apart(ids: &[usize]) -> bool {
    for (place, id) in ids.iter().take(100).enumerate() {
        for earlier in ids.iter().take(place) {
            if earlier == id {
                return false;
            }
        }
        if *id >= 1_000 {
            return false;
        }
    }
    true
}

/// Whether the mixed groups have the numbers of the first hundred groups.
fn are_separated(numbered: Numbered<'_>) -> bool {
    let Ok((of_node, ids)) = &numbered else {
        return false;
    };
    for (place, id) in ids.iter().enumerate() {
        if ids.get(place % 100) != Some(id) {
            return false;
        }
    }
    of_node.len() == 10_000 && ids.len() == 1_000 && are_apart(ids)
}

/// Whether the only node of both sets has the number of the second.
fn have_greatest(numbers: Result<MapIn<usize, usize, Global>, PathError>) -> bool {
    let Ok(of_node) = &numbers else {
        return false;
    };
    of_node.get(&1) == Some(&0)
        && of_node.get(&2) == Some(&1)
        && of_node.get(&3) == Some(&1)
        && of_node.len() == 3
}

#[test]
fn numbers_groups_and_sets(rt: HostRuntime) {
    let mixed = mixed_groups(rt.alloc()).expect(&rt, "memory");
    assert!(rt; are_separated(separate_components(rt.alloc(), &mixed)));
    let sets = overlapping_sets(rt.alloc()).expect(&rt, "memory");
    assert!(rt; have_greatest(component_index(rt.alloc(), &sets)));
}
