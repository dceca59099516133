//! Tests of matrices, of grids, and of the calls of `pf_graph`, with callers that show how their
//! contracts are used. All of it is read for the tests alone, so that it is proved once.
#![tactic(auto)]

#[cfg(test)]
mod graph;
#[cfg(test)]
mod grid;
#[cfg(test)]
mod matrix;
