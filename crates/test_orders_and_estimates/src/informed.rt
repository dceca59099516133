//! Tests of the calls of `pf_informed`, over lists of edges.

mod boards;
mod estimated_boards;
mod graphs;
mod listed;
mod puzzle;
mod rows;
mod seen;
mod tables;
