//! What a depth-first search to a growing limit keeps: the way that it goes along, which numbers are on
//! it, the steps from these, and the least sum that was cut off.
//!
//! A layer below `pf_informed`, for `idastar`. No crate exports this layer.
#![tactic(auto)]

pub mod cut_off;
pub mod marks;
pub mod rows;
pub mod way;
pub mod widen;
