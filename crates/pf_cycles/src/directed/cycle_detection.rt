//! The cycle that a step runs into: each value has one next value, and after some steps the values
//! come round again.
//!
//! The calls keep two or three values and no table, and compare values by `==` alone.

mod brent_method;
mod first_value;
mod floyd_method;

pub use crate::directed::cycle_detection::brent_method::{brent, brent_partial};
pub use crate::directed::cycle_detection::floyd_method::{floyd, floyd_partial};
