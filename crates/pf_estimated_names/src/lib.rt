//! Estimates of the cost that remains from each name of a list of edges to one name, for searches by
//! name that an estimate leads.
#![tactic(auto)]

pub mod error;
pub mod estimates;
mod faults;
mod numbers;

pub use crate::error::NameEstimateError;
pub use crate::estimates::NameEstimates;
