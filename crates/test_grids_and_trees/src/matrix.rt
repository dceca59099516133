//! Tests of matrices, and a caller that shows how their contracts are used.

mod callers;
mod tests;
