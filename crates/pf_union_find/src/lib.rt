//! Disjoint sets of numbers, and rows by numbers: what components and spanning forests share. No crate
//! exports this layer.
#![tactic(auto)]

mod nodes;
pub mod rows;
pub mod union_find;
pub mod vertex_number;

pub use crate::nodes::Nodes;
