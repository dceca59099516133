//! Random changes of networks of four vertices with capacities 0 to 2, against the plain program.

use crate::pipes::Pipes;
use crate::tests::plain::{Reached, Table, VERTICES, greatest_flow, number, set_number, sum};
use pf_base::PathError;
use pf_flow::edmonds_karp::{DenseCapacity, EdmondsKarp, SparseCapacity};
use std::alloc::Global;

/// Numbers that look random (Knuth's linear congruential generator for 64 bits).
#[derive(Drop)]
struct Dice {
    state: u64,
}

impl Dice {
    /// A number below `most`, where `most` is above 0.
    fn below(&mut self, most: u32) -> u32 {
        self.state = self
            .state
            .wrapping_mul(6_364_136_223_846_793_005)
            .wrapping_add(1_442_695_040_888_963_407);
        ((self.state >> 33) as u32).checked_rem(most).unwrap_or(0)
    }
}

/// What leaves a vertex, if the flows at it are antisymmetric and within these capacities.
fn outflow<S: EdmondsKarp<i64>>(pipes: &Pipes<S>, capacities: &Table, from: usize) -> Option<i64> {
    let mut leaves = 0i64;
    for to in 0..VERTICES {
        let (flow, left) = pipes.pipe(from, to)?;
        let (back, _) = pipes.pipe(to, from)?;
        let is_within = left >= 0 && flow.wrapping_add(left) == number(capacities, from, to);
        if !is_within || flow.wrapping_add(back) != 0 {
            return None;
        }
        leaves = leaves.wrapping_add(flow);
    }
    Some(leaves)
}

/// Whether the pipes have these capacities, and flows that are antisymmetric, within them and
/// conserved, and of which the total leaves the source 0.
pub fn is_feasible<S: EdmondsKarp<i64>>(pipes: &Pipes<S>, capacities: &Table, sink: usize) -> bool {
    for vertex in 0..VERTICES {
        let wanted = match vertex {
            0 => pipes.total(),
            _ if vertex == sink => pipes.total().wrapping_neg(),
            _ => 0,
        };
        if outflow(pipes, capacities, vertex) != Some(wanted) {
            return false;
        }
    }
    pipes.sum() == sum(capacities)
}

/// Whether these are the pairs with capacity that leave the side, in rising order.
fn is_cut(cut: &[((usize, usize), i64)], capacities: &Table, side: &Reached) -> bool {
    let mut listed = cut.iter();
    for from in 0..VERTICES {
        for to in 0..VERTICES {
            let capacity = number(capacities, from, to);
            let is_leaving = side[from] && !side[to] && capacity > 0;
            if is_leaving && listed.next() != Some(&((from, to), capacity)) {
                return false;
            }
        }
    }
    listed.next().is_none()
}

/// Whether the pipes are filled by a greatest flow, and the cut is the least one that the plain
/// program has.
fn are_filled<S: EdmondsKarp<i64, Alloc = Global>>(
    alloc: Global,
    pipes: &mut Pipes<S>,
    capacities: &Table,
    sink: usize,
) -> Result<bool, PathError> {
    let (_, total, cut) = pipes.fill(alloc)?;
    let (greatest, side) = greatest_flow(capacities, sink);
    Ok(total == greatest && is_cut(&cut, capacities, &side) && is_feasible(pipes, capacities, sink))
}

/// Changes a capacity by the dice, and fills the pipes after some of the changes. Answers whether all
/// is as the plain program has it.
fn are_changed<S: EdmondsKarp<i64, Alloc = Global>>(
    alloc: Global,
    pipes: &mut Pipes<S>,
    capacities: &mut Table,
    dice: &mut Dice,
    sink: usize,
) -> Result<bool, PathError> {
    let (from, to) = (dice.below(4) as usize, dice.below(4) as usize);
    let capacity = i64::from(dice.below(3));
    pipes.set(alloc, from, to, capacity)?;
    set_number(capacities, from, to, capacity);
    if !is_feasible(pipes, capacities, sink) {
        return Ok(false);
    }
    if dice.below(2) == 0 {
        are_filled(alloc, pipes, capacities, sink)
    } else {
        Ok(true)
    }
}

/// Whether a list of changes by the dice leads to what the plain program has.
fn is_as_plain<S: EdmondsKarp<i64, Alloc = Global>>(
    alloc: Global,
    seed: u64,
    sink: usize,
) -> Result<bool, PathError> {
    let mut dice = Dice { state: seed };
    let mut capacities = [0i64; 16];
    let mut pipes: Pipes<S> = Pipes::new(alloc, VERTICES, 0, sink)?;
    for _change in 0..400u32 {
        let answer = are_changed(alloc, &mut pipes, &mut capacities, &mut dice, sink);
        if answer != Ok(true) {
            return answer;
        }
    }
    Ok(true)
}

#[test]
fn small_networks_are_as_the_plain_program_has_them(rt: HostRuntime) {
    for seed in 1..40u64 {
        for sink in 1..VERTICES {
            let dense = is_as_plain::<DenseCapacity<i64>>(rt.alloc(), seed, sink);
            let sparse = is_as_plain::<SparseCapacity<i64>>(rt.alloc(), seed, sink);
            assert!(rt;
                (dense, sparse) == (Ok(true), Ok(true)),
                "seed {seed}, sink {sink}"
            );
        }
    }
}
