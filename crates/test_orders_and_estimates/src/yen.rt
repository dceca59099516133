//! Tests of the calls of `pf_yen`, through a caller over lists of edges.

mod listed;
mod plain;
mod tests;
