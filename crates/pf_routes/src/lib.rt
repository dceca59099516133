//! The program `routes` as a library: edges as text in, an answer as text out.
#![tactic(auto)]

pub mod routes;
