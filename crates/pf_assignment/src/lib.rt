//! Best assignments of rows to columns.
#![tactic(auto)]

pub mod kuhn_munkres;
