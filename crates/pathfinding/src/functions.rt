//! What the functions answer that a caller hands in.

pub use pf_base::functions::{EdgeFunction, NodeTest, SuccessorFunction};
pub use pf_informed::functions::EstimateFunction;
