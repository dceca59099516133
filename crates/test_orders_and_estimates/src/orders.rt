//! Tests of the calls of `pf_orders`, over lists of edges.

mod rows;
