//! Matrices, and the eight directions of neighbours.

pub use pf_matrix::{
    ColumnIterator, Items, ItemsMut, Keys, Matrix, MatrixFormatError, Neighbours, RowIterator,
    directions, from_slices, laws,
};
