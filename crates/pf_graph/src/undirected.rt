//! Undirected graphs: minimum spanning forests.

mod chains;
mod exact_sum;
mod frontier;
pub mod kruskal;
pub mod laws;
mod numbered;
pub mod prim;
mod spanning;
mod spanning_edges;
mod steps;
mod weighed;
