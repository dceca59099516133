//! The type of matrices.

mod columns;
mod flips;
pub mod flooding;
mod floods;
mod from_rows;
mod indexing;
mod items;
mod items_mut;
mod keys;
mod makers;
mod moves;
mod neighbours;
mod readers;
mod rotation;
mod rows;
mod slices;
mod traits;
mod transposition;
mod writers;

pub use columns::ColumnIterator;
pub use items::Items;
pub use items_mut::ItemsMut;
pub use keys::Keys;
pub use neighbours::Neighbours;
pub use rows::RowIterator;
use std::alloc::{Allocator, Global};
use std::marker::Model;

/// A number of rows, a number of columns, and a value at each position (row, column).
///
/// A matrix with rows has columns, and the number of its values fits `usize`. A contract sees the
/// two sizes and the list of the values by rows, the first row first.
#[derive(Drop)]
pub struct Matrix<C, A: Allocator = Global> {
    rows: usize,
    columns: usize,
    values: Vec<C, A>,
}

impl<C, A: Allocator> Model for Matrix<C, A> {
    ghost use Rattle.pf_matrix.specs.Internal.TableCode.{table_code};
    ghost use Rattle.pf_matrix.specs.Tables.{Table, IsMatrix};

    ghost Value = { Table C };

    ghost coded = { table_code C.code };

    ghost view = { λ s. record { rows = s.rows; columns = s.columns; values = s.values.items } };

    ghost invariant = { λ s. IsMatrix (record { rows = s.rows; columns = s.columns; values = s.values.items }) };
}
