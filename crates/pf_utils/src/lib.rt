//! Small tools over numbers: exact square roots, steps on a board, remainders.
#![tactic(auto)]

pub mod directions;
pub mod remainder;
pub mod square_root;

pub use crate::directions::{InDirection, in_direction, move_in_direction};
pub use crate::remainder::constrain;
pub use crate::square_root::uint_sqrt;
