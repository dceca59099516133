//! Floods over a table that says which positions may be stepped to: those of matrices and of grids.
//!
//! No crate exports this module.

ghost use Rattle.std.specs.Prelude.{◌≡◌, ◌↔◌, ◌<◌, ◌+◌, ◌*◌, ℕ, [], ◌∷◌, true, false, Some, None, if◌then◌else◌, Contains, IfOk, IfErr, OnOk, length, slice_get, slice_index_or, slice_set};
ghost use Rattle.std.specs.BTreeSet.{IsFromIterResult};
ghost use Rattle.std.specs.List.{filter_map};
ghost use Rattle.pf_matrix.specs.Floods.{IsFlood, answer_at};
ghost use Rattle.pf_matrix.specs.Internal.Flooding.{Has, Spreads, free_count};
ghost use Rattle.pf_matrix.specs.Internal.PositionOrder.{position_cmp};
ghost use Rattle.pf_matrix.specs.Positions.{items_of, neighbours_of};
ghost use Rattle.pf_matrix.specs.Tables.{HasPosition, IsMatrix, value_at};
ghost use Rattle.pf_matrix.specs.declared.error.MatrixFormatError.TheVariants.{OutOfMemory};

use crate::error::MatrixFormatError;
use crate::matrix::Matrix;
use std::alloc::{AllocError, Allocator};
use std::collections::BTreeSet;
use std::mem;

/// The positions that are reached from `start` by steps to neighbours at which `free` has `true`. The
/// start is always one of them.
pub fn flood<A: Allocator + Copy>(
    alloc: A,
    mut free: Matrix<bool, A>,
    start: (usize, usize),
    diagonals: bool,
) -> Result<BTreeSet<(usize, usize), A>, MatrixFormatError>
    ensures reached { IfOk result (IsFlood free.rows free.columns diagonals (answer_at free.rows free.columns free.values) start) }
    ensures refused { IfErr result (λ e. e ≡ OutOfMemory) }
{
    if !free.within_bounds(start) {
        return Ok(set_of_one(alloc, start)?);
    }
    let mut reached = Vec::new(alloc);
    reached.push(start)?;
    let mut next = 0;
    'positions: while next < reached.len() {
        reach_around(&mut free, diagonals, reached[next], &mut reached)?;
        next += 1;
    }
    Ok(set_of(free, reached)?)
}

/// Puts the free neighbours of a position at the end of the list, and closes them. Where memory is
/// refused, it did so with some of them.
fn reach_around<A: Allocator>(
    free: &mut Matrix<bool, A>,
    diagonals: bool,
    position: (usize, usize),
    reached: &mut Vec<(usize, usize), A>,
) -> Result<(), MatrixFormatError>
    ensures sizes { (free.new.rows ≡ free.old.rows) × (free.new.columns ≡ free.old.columns) }
    ensures closes { (p : ℕ × ℕ) → answer_at free.old.rows free.old.columns free.new.values p ≡ true → answer_at free.old.rows free.old.columns free.old.values p ≡ true }
    ensures kept { (k : ℕ) (p : ℕ × ℕ) → slice_get reached.old.items k ≡ Some p → slice_get reached.new.items k ≡ Some p }
    ensures spreads { OnOk result (Spreads (neighbours_of free.old.rows free.old.columns position.0 position.1 diagonals) []
        (answer_at free.old.rows free.old.columns free.old.values) (answer_at free.old.rows free.old.columns free.new.values) reached.old.items reached.new.items) }
    ensures counted { OnOk result (free_count free.new.values + length reached.new.items ≡ free_count free.old.values + length reached.old.items) }
    ensures refused { IfErr result (λ e. e ≡ OutOfMemory) }
{
    for neighbour in free.neighbours(position, diagonals) {
        if close(free, neighbour) {
            reached.push(neighbour)?;
        }
    }
    Ok(())
}

/// Closes a position inside. Was it free?
pub fn close<A: Allocator>(free: &mut Matrix<bool, A>, position: (usize, usize)) -> bool
    requires { HasPosition free.old position.0 position.1 }
    ensures below { position.0 * free.old.columns + position.1 < length free.old.values }
    ensures was { result ≡ value_at free.old position.0 position.1 false }
    ensures closed { free.new ≡ record { rows = free.old.rows; columns = free.old.columns; values = slice_set free.old.values (position.0 * free.old.columns + position.1) false } }
{
    let place = free.idx(position);
    mem::replace(&mut free.values[place], false)
}

/// The set of one position.
pub fn set_of_one<A: Allocator + Copy>(
    alloc: A,
    position: (usize, usize),
) -> Result<BTreeSet<(usize, usize), A>, AllocError>
    ensures { IfOk result (λ set. set.keys ≡ position ∷ []) }
{
    let mut set = BTreeSet::new(alloc);
    set.insert(position)?;
    Ok(set)
}

/// The set of these positions of a table. They are marked in the table, and put into the set as they
/// stand there, by rows: then nothing has to be sorted, and the list is gone before there is a set.
pub fn set_of<A: Allocator + Copy>(
    mut table: Matrix<bool, A>,
    positions: Vec<(usize, usize), A>,
) -> Result<BTreeSet<(usize, usize), A>, AllocError>
    requires { (p : ℕ × ℕ) → Has positions.items p → HasPosition table p.0 p.1 }
    ensures { IfOk result (λ set. (p : ℕ × ℕ) → Contains set.keys p ↔ Has positions.items p) }
{
    mark(&mut table, positions);
    set_of_marked(&table)
}

/// Makes the values at these positions `true`, and all others `false`.
fn mark<A: Allocator>(table: &mut Matrix<bool, A>, positions: Vec<(usize, usize), A>)
    requires { (p : ℕ × ℕ) → Has positions.items p → HasPosition table.old p.0 p.1 }
    ensures sizes { (table.new.rows ≡ table.old.rows) × (table.new.columns ≡ table.old.columns) }
    ensures marked { (p : ℕ × ℕ) → HasPosition table.old p.0 p.1 → (value_at table.new p.0 p.1 false ≡ true) ↔ Has positions.items p }
{
    clear(table.values.as_mut_slice());
    for position in &positions {
        open(table, *position);
    }
}

/// Makes all values `false`.
fn clear(values: &mut [bool])
    ensures { (k : ℕ) → slice_index_or values.new k false ≡ false }
{
    for value in values.iter_mut() {
        *value = false;
    }
}

/// Makes the value at a position inside `true`.
fn open<A: Allocator>(table: &mut Matrix<bool, A>, position: (usize, usize))
    requires { HasPosition table.old position.0 position.1 }
    ensures below { position.0 * table.old.columns + position.1 < length table.old.values }
    ensures opened { table.new ≡ record { rows = table.old.rows; columns = table.old.columns; values = slice_set table.old.values (position.0 * table.old.columns + position.1) true } }
{
    let place = table.idx(position);
    table.values[place] = true;
}

/// The set of the positions at which a table has `true`.
fn set_of_marked<A: Allocator + Copy>(
    table: &Matrix<bool, A>,
) -> Result<BTreeSet<(usize, usize), A>, AllocError>
    ensures matrix { IsMatrix table.now }
    ensures marked { IfOk result (IsFromIterResult position_cmp (filter_map (λ i. if i.1 then Some i.0 else None) (items_of table.now))) }
{
    let alloc = *table.values.allocator();
    table
        .items()
        .filter_map(|(position, is_marked)| is_marked.then_some(position))
        .collect(alloc)
}
