//! Tests of the calls of `pf_graph`, and callers that show how they are proved.

mod callers;
mod lineup;
mod tests;
