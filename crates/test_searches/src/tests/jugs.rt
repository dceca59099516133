//! A puzzle whose nodes are structs.

use crate::jugs::{Jugs, fewest_moves};

#[test]
fn four_litres_take_six_moves(rt: HostRuntime) {
    let empty = Jugs { three: 0, five: 0 };
    let found = fewest_moves(rt.alloc(), &empty, 4);
    let is_six_moves =
        matches!(&found, Ok(Some(states)) if states.len() == 7 && states[6].five == 4);
    assert!(rt; is_six_moves);
    assert!(rt; matches!(fewest_moves(rt.alloc(), &empty, 6), Ok(None)));
}
