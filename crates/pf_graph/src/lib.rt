//! Minimum spanning forests of undirected graphs.
#![tactic(auto)]

pub mod undirected;
