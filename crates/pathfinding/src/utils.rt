//! Small tools: exact square roots, steps on a board, remainders, and counts that contracts alone see.

pub use pf_base::Tally;
pub use pf_utils::{InDirection, constrain, in_direction, move_in_direction, uint_sqrt};
