//! The callers over a board, at numbers.

use crate::grid::{cheapest_on_board, fewest_on_board};
use crate::tests::answers::{is_cheapest, is_path};
use pf_node_refs::NodeRefs;

/// A board of three rows. The hill in the middle is above the bound, and the way to the right is dearer.
const HEIGHTS: &[u8] = &[1, 1, 9, 1, 200, 9, 1, 1, 1];

#[test]
fn round_the_hill(rt: HostRuntime) {
    let start = (0usize, 0usize);
    let starts = NodeRefs::from_one(rt.alloc(), &start).expect(&rt, "memory");
    assert!(rt; HEIGHTS.len() == 9);
    let way = cheapest_on_board(rt.alloc(), HEIGHTS, (3, 3), 9, start, (2, 2));
    assert!(rt; is_cheapest(way, Some((&[(0, 0), (1, 0), (2, 0), (2, 1), (2, 2)], 4))));
    let way = fewest_on_board(rt.alloc(), HEIGHTS, (3, 3), 9, &starts, (1, 2));
    assert!(rt; is_path(way, Some(&[(0, 0), (0, 1), (0, 2), (1, 2)])));
    let way = fewest_on_board(rt.alloc(), HEIGHTS, (3, 3), 0, &starts, (1, 2));
    assert!(rt; is_path(way, None));
}
