//! Matrices: tables of values by rows and columns.
#![tactic(auto)]

pub mod directions;
mod error;
pub mod giving;
pub mod laws;
mod macros;
mod matrix;

pub use crate::error::MatrixFormatError;
pub use crate::macros::from_slices;
pub use crate::matrix::{
    ColumnIterator, Items, ItemsMut, Keys, Matrix, Neighbours, RowIterator, flooding,
};
