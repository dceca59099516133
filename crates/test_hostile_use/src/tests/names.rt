//! Names that ignore letter case, through each call that compares nodes.

use crate::cheapest::{COST_CALLS, Found};
use crate::flows::{Pipe, flow_through};
use crate::letter::Letter;
use crate::listed::{
    Edge, Groups, cheapest_between_in_list, cheapest_in_list, fewest_between_in_list,
    groups_in_list, plain_in_list, sets_in_list,
};
use crate::names::cycles_of_names;
use crate::plain::{COMPONENT_CALLS, LIST_CALLS, Lists, PlainCall};
use pf_base::PathError;
use pf_components::connected_components::{
    SetIn, component_index, components, separate_components,
};
use pf_flow::edmonds_karp::EKFlows;
use pf_graph::undirected::kruskal::kruskal;
use pf_graph::undirected::prim::prim;
use std::alloc::Global;

/// The names of the nodes, each spelled in another way than in the edges.
const A: Letter = Letter { byte: b'A' };

const B: Letter = Letter { byte: b'b' };

const C: Letter = Letter { byte: b'c' };

/// The same names as the edges spell them.
const A_IN_EDGES: Letter = Letter { byte: b'a' };

const B_IN_EDGES: Letter = Letter { byte: b'B' };

const C_IN_EDGES: Letter = Letter { byte: b'C' };

/// A path through all names.
const PATH: &[Letter] = &[A, B, C];

/// A way through all names that ends where it began.
const AROUND: &[Letter] = &[A, B, C, A];

/// From a to b, and from b to c.
const CHAIN: &[Edge<u8>] = &[(A_IN_EDGES, B_IN_EDGES, 1), (B, C_IN_EDGES, 1)];

/// From a to b, from b to c, and from c to a.
const RING: &[Edge<u8>] = &[(A_IN_EDGES, B_IN_EDGES, 1), (B, C_IN_EDGES, 1), (C, A, 1)];

/// Whether the answer is a path through all names at a cost of 2.
fn is_way(found: Found<Letter, u8>) -> bool {
    matches!(&found, Ok(Some((nodes, 2))) if nodes.as_slice() == PATH)
}

#[test]
fn cheapest_paths(rt: HostRuntime) {
    for edges in [CHAIN, RING] {
        for call in COST_CALLS {
            assert!(rt; is_way(cheapest_in_list(rt.alloc(), *call, edges, A, C)));
        }
        assert!(rt; is_way(cheapest_between_in_list(rt.alloc(), edges, A, C)));
    }
}

/// Whether there is this one list, or none, where this is empty.
fn is_list(lists: Lists<Letter>, wanted: &[Letter]) -> bool {
    match &lists {
        Ok(lists) => match lists.first() {
            Some(list) => lists.len() == 1 && list.as_slice() == wanted,
            None => wanted.is_empty(),
        },
        Err(_) => false,
    }
}

/// Whether the answer is a path through all names.
fn is_path(found: Result<Option<Vec<Letter>>, PathError>) -> bool {
    matches!(&found, Ok(Some(nodes)) if nodes.as_slice() == PATH)
}

/// The lists that a call answers on the chain and on the ring.
fn wanted_of(call: PlainCall) -> (&'static [Letter], &'static [Letter]) {
    match call {
        PlainCall::Loop => (&[], AROUND),
        PlainCall::Order => (PATH, &[]),
        _ => (PATH, PATH),
    }
}

#[test]
fn paths_walks_and_orders(rt: HostRuntime) {
    for call in LIST_CALLS {
        let (on_chain, on_ring) = wanted_of(*call);
        assert!(rt; is_list(plain_in_list(rt.alloc(), *call, CHAIN, A, C), on_chain));
        assert!(rt; is_list(plain_in_list(rt.alloc(), *call, RING, A, C), on_ring));
    }
    assert!(rt; is_path(fewest_between_in_list(rt.alloc(), CHAIN, A, C)));
    assert!(rt; is_path(fewest_between_in_list(rt.alloc(), RING, A, C)));
}

/// Whether one of the lists has a name.
fn has_name(lists: &[Vec<Letter>], name: Letter) -> bool {
    for list in lists {
        if list.contains(&name) {
            return true;
        }
    }
    false
}

/// Whether there are as many lists as `count`, each of as many names as `length`, and they have the
/// first names, each once.
fn are_components(lists: Lists<Letter>, count: usize, length: usize) -> bool {
    let Ok(lists) = &lists else {
        return false;
    };
    for list in lists {
        if list.len() != length {
            return false;
        }
    }
    for name in PATH.iter().take(count.saturating_mul(length)) {
        if !has_name(lists, *name) {
            return false;
        }
    }
    lists.len() == count
}

#[test]
fn strong_components(rt: HostRuntime) {
    for call in COMPONENT_CALLS {
        // How many components there are on the chain, each of one name.
        let count = if matches!(call, PlainCall::Component) {
            1
        } else {
            3
        };
        let lists = plain_in_list(rt.alloc(), *call, CHAIN, A, C);
        assert!(rt; are_components(lists, count, 1));
        let lists = plain_in_list(rt.alloc(), *call, RING, A, C);
        assert!(rt; are_components(lists, 1, 3));
    }
}

/// Whether the groups of the chain are one name each, in the order of the names.
fn are_alone(answer: Result<Groups, PathError>) -> bool {
    let Ok(Ok(groups)) = &answer else {
        return false;
    };
    for (group, name) in groups.iter().zip(PATH) {
        if group.len() != 1 || !group.contains(name) {
            return false;
        }
    }
    groups.len() == 3
}

/// Whether all names are in one set, and nothing else is.
fn is_one_set(sets: Result<Vec<SetIn<Letter, Global>>, PathError>) -> bool {
    let Ok(sets) = &sets else {
        return false;
    };
    if sets.len() != 1 || sets[0].len() != 3 {
        return false;
    }
    for name in PATH {
        if !sets[0].contains(name) {
            return false;
        }
    }
    true
}

#[test]
fn groups_and_sets(rt: HostRuntime) {
    assert!(rt; are_alone(groups_in_list(rt.alloc(), CHAIN, PATH)));
    let answer = groups_in_list(rt.alloc(), RING, PATH);
    assert!(rt; matches!(&answer, Ok(Err((groups, rest))) if groups.is_empty() && rest.len() == 3));
    assert!(rt; is_one_set(sets_in_list(rt.alloc(), CHAIN, &[A, B, C, B_IN_EDGES])));
}

#[test]
fn cycles(rt: HostRuntime) {
    // "A" leads to "b", "b" to "C" and "c" to "b"; the calls named partial answer a later value of the cycle.
    let (floyd, brent, near_floyd, near_brent) = cycles_of_names(A, B, C_IN_EDGES);
    assert!(rt; floyd == Ok((2, B, 1)) && brent == Ok((2, B, 1)));
    assert!(rt; near_floyd == Ok((2, C, 2)) && near_brent == Ok((2, B, 3)));
}

#[test]
fn components_of_groups(rt: HostRuntime) {
    let alloc = rt.alloc();
    let first = vec![in alloc; A_IN_EDGES, B_IN_EDGES].expect(&rt, "memory");
    let second = vec![in alloc; B, C_IN_EDGES].expect(&rt, "memory");
    let groups = [first, second];
    let numbered = separate_components(alloc, &groups).expect(&rt, "memory");
    let (of_name, ids) = numbered;
    assert!(rt; of_name.len() == 3 && ids.len() == 2 && ids[0] == ids[1]);
    let sets = components(alloc, &groups).expect(&rt, "memory");
    assert!(rt; sets.len() == 1 && sets[0].len() == 3);
    let of_name = component_index(alloc, &sets).expect(&rt, "memory");
    for name in PATH {
        assert!(rt; of_name.get(name).copied() == Some(0));
    }
}

/// Edges between names, at weights that rise in another order than the names.
const WEIGHTED: &[Edge<u8>] = &[(A_IN_EDGES, B_IN_EDGES, 2), (C, A, 1), (B, C_IN_EDGES, 3)];

/// The tree of the weighted edges, from its first name on.
const GROWN: &[Edge<u8>] = &[(A, C, 1), (A, B, 2)];

/// Whether a tree is that of the weighted edges.
fn is_grown(tree: Result<Vec<(&Letter, &Letter, u8)>, PathError>) -> bool {
    let Ok(tree) = &tree else {
        return false;
    };
    for (edge, wanted) in tree.iter().zip(GROWN) {
        if *edge.0 != wanted.0 || *edge.1 != wanted.1 || edge.2 != wanted.2 {
            return false;
        }
    }
    tree.len() == GROWN.len()
}

#[test]
fn spanning_edges(rt: HostRuntime) {
    // The last edge closes a cycle.
    let chosen = kruskal(rt.alloc(), RING).expect(&rt, "memory");
    assert!(rt; chosen.count() == 2);
    assert!(rt; is_grown(prim(rt.alloc(), WEIGHTED)));
}

/// Whether a flow of 2 goes along these edges, and the last of them is the least cut.
fn is_flow(answer: Result<EKFlows<Letter, i8>, PathError>, edges: &[Pipe; 2]) -> bool {
    matches!(
        &answer,
        Ok((flows, total, cut)) if flows.as_slice() == edges.as_slice()
            && *total == 2
            && cut.as_slice() == [edges[1]].as_slice()
    )
}

#[test]
fn flows(rt: HostRuntime) {
    let to_b = (A_IN_EDGES, B_IN_EDGES);
    let to_c = (B, C_IN_EDGES);
    // The last capacity of a pair of names counts.
    let pipes = [(to_b, 9), (to_c, 2), ((A, B_IN_EDGES), 3)];
    let wanted = [(to_b, 2), (to_c, 2)];
    for is_dense in [true, false] {
        let answer = flow_through(rt.alloc(), is_dense, [A, B, C], &pipes);
        assert!(rt; is_flow(answer, &wanted), "dense: {is_dense}");
    }
}
