//! Worked examples of cheapest paths in lists of edges.

use crate::list::cheapest_in_list;
use crate::no_case::NoCase;
use crate::tests::answers::is_cheapest;
use pf_base::PathError;

/// Edges between five nodes.
const FIVE_NODES: &[(char, char, u8)] = &[
    ('A', 'B', 4),
    ('A', 'C', 2),
    ('B', 'C', 1),
    ('B', 'D', 5),
    ('C', 'D', 8),
    ('C', 'E', 10),
    ('D', 'E', 2),
];

/// Edges, two nodes, and the cheapest path from one to the other with its cost.
type Paths = (
    &'static [(char, char, u8)],
    char,
    char,
    Option<(&'static [char], u8)>,
);

const PATHS: &[Paths] = &[
    (FIVE_NODES, 'A', 'E', Some((&['A', 'B', 'D', 'E'], 11))),
    (FIVE_NODES, 'E', 'A', None),
    // The step from a to b would not fit, and the answer is cheaper than a.
    (
        &[('s', 't', 1), ('s', 'a', 200), ('a', 'b', 100)],
        's',
        't',
        Some((&['s', 't'], 1)),
    ),
];

#[test]
fn cheapest_paths(rt: HostRuntime) {
    for (edges, from, to, want) in PATHS {
        let answer = cheapest_in_list(rt.alloc(), edges, *from, *to);
        assert!(rt; is_cheapest(answer, *want), "{from} to {to}");
    }
    let dear = [('s', 'a', 200u8), ('a', 't', 100)];
    let refused = cheapest_in_list(rt.alloc(), &dear, 's', 't');
    assert!(rt; matches!(refused, Err(PathError::CostOverflow)));
}

/// Whether the nodes are spelled like this.
fn are_spelled(nodes: &[NoCase<'_>], spellings: &[&str]) -> bool {
    for (node, spelling) in nodes.iter().zip(spellings) {
        if node.name != *spelling {
            return false;
        }
    }
    nodes.len() == spellings.len()
}

/// Edges between names that are spelled in several ways. The harbour is first found by its dear edge,
/// as `HARBOUR`, and the mill makes it cheaper.
pub const SPELLED: &[(NoCase<'static>, NoCase<'static>, u32)] = &[
    (NoCase { name: "HOME" }, NoCase { name: "Mill" }, 2),
    (NoCase { name: "Home" }, NoCase { name: "HARBOUR" }, 9),
    (NoCase { name: "MILL" }, NoCase { name: "Harbour" }, 3),
];

#[test]
fn equal_nodes_are_one_node_and_keep_their_spelling(rt: HostRuntime) {
    let from = NoCase { name: "home" };
    let to = NoCase { name: "harbour" };
    let answer = cheapest_in_list(rt.alloc(), SPELLED, from, to);
    assert!(rt;
        matches!(&answer, Ok(Some((path, 5))) if are_spelled(path, &["home", "Mill", "HARBOUR"]))
    );
}
