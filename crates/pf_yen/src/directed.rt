//! Directed graphs.

pub mod k_cheapest;
pub mod yen;
