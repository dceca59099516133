//! Residual networks: the trait of what stores one, the rows and tables that stores are made of, the
//! current arcs and augmenting paths in levels, cycles of flow that are cancelled, and the numbers of
//! vertices that have names.
//!
//! The layer below `pf_flow`, which exports the trait. No other crate exports this layer.
#![tactic(auto)]

pub mod cancelling;
pub mod current_arcs;
pub mod dense_table;
pub mod level_paths;
pub mod listed_sums;
pub mod names;
pub mod paths;
pub mod sparse_row;
pub mod store;
pub mod sums;
