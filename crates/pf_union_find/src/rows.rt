//! Rows of items in one block of memory, each with room for so many. Items that are put in by a number
//! each are laid out by these numbers, as in a counting sort (H. H. Seward, 1954).

ghost use Rattle.std.specs.Prelude.{◌≡◌, ◌⊎◌, ◌↔◌, ◌<◌, ◌+◌, ℕ, Contains, IfOk, IfErr, length, slice_index, if◌then◌else◌, ◌==◌};
ghost use Rattle.pf_union_find.specs.Rows.{AreStarts, HasItem, fill_of, room_of, row_count};
ghost use Rattle.pf_base.specs.declared.error.PathError.TheVariants.{OutOfMemory};

use pf_base::PathError;
use pf_base::filled::{alone, filled};
use std::alloc::Allocator;
use std::marker::Model;

/// Rows of items, one row behind the other in a block.
///
/// A contract sees where each row begins, and behind the last one how many places there are; where the
/// items of each row end; and all places.
#[derive(Drop)]
pub struct Rows<T, A: Allocator> {
    starts: Vec<usize, A>,
    ends: Vec<usize, A>,
    places: Vec<T, A>,
}

impl<T, A: Allocator> Model for Rows<T, A> {
    ghost use Rattle.std.specs.Prelude.{List, ℕ};
    ghost use Rattle.pf_union_find.specs.Rows.{AreRows};

    ghost Value = { List ℕ × List ℕ × List T };

    ghost view = { λ rows. (rows.starts.items, rows.ends.items, rows.places.items) };

    ghost invariant = { λ rows. AreRows (rows.starts.items, rows.ends.items, rows.places.items) };
}

/// Where rows with room for so many items begin, and at the end how many places they have in all.
fn starts_of<A: Allocator>(alloc: A, counts: &[usize]) -> Result<Vec<usize, A>, PathError>
    ensures starts { IfOk result (λ starts. AreStarts counts.now starts.items) }
    ensures refused { IfErr result (λ e. e ≡ OutOfMemory) }
{
    let mut starts = Vec::new(alloc);
    starts.push(0)?;
    let mut total = 0usize;
    for count in counts {
        // Places that cannot be counted cannot be had.
        let Some(sum) = total.checked_add(*count) else {
            return Err(PathError::OutOfMemory);
        };
        total = sum;
        starts.push(total)?;
    }
    Ok(starts)
}

impl<T: Copy, A: Allocator + Copy> Rows<T, A> {
    /// A row with room for each of the counts. All places have this item, and no row has any yet.
    pub fn new(alloc: A, counts: &[usize], item: T) -> Result<Self, PathError>
        ensures count { IfOk result (λ rows. row_count rows ≡ length counts.now) }
        ensures room { IfOk result (λ rows. (row : ℕ) → row < length counts.now → room_of rows row ≡ slice_index counts.now row) }
        ensures none { IfOk result (λ rows. (row : ℕ) → fill_of rows row ≡ 0) }
        ensures refused { IfErr result (λ e. e ≡ OutOfMemory) }
    {
        let starts = starts_of(alloc, counts)?;
        let ends = Vec::from_slice(alloc, &starts[..counts.len()])?;
        let places = filled(alloc, starts[counts.len()], item)?;
        Ok(Rows {
            starts,
            ends,
            places,
        })
    }
}

impl<T, A: Allocator + Copy> Rows<T, A> {
    /// No rows.
    pub fn none(alloc: A) -> Result<Self, PathError>
        ensures none { IfOk result (λ rows. row_count rows ≡ 0) }
        ensures refused { IfErr result (λ e. e ≡ OutOfMemory) }
    {
        let starts = alone(alloc, 0usize)?;
        Ok(Rows {
            starts,
            ends: Vec::new(alloc),
            places: Vec::new(alloc),
        })
    }
}

impl<T: Copy, A: Allocator> Rows<T, A> {
    /// How many rows there are.
    pub fn len(&self) -> usize
        ensures { result ≡ row_count self.now }
    {
        self.ends.len()
    }

    /// Puts an item into a row that has room for one more.
    pub fn put(&mut self, row: usize, item: T)
        requires inside { row < row_count self.old }
        requires room { fill_of self.old row < room_of self.old row }
        ensures count { row_count self.new ≡ row_count self.old }
        ensures room { (other : ℕ) → room_of self.new other ≡ room_of self.old other }
        ensures fill { (other : ℕ) → fill_of self.new other ≡ (if other == row then fill_of self.old other + 1 else fill_of self.old other) }
        ensures items { (other : ℕ) (x : T) → HasItem self.new other x ↔ (HasItem self.old other x ⊎ ((other ≡ row) × (x ≡ item))) }
    {
        let end = self.ends[row];
        self.places[end] = item;
        self.ends[row] = end + 1;
    }

    /// The items of a row.
    pub fn row(&self, row: usize) -> &[T]
        requires { row < row_count self.now }
        ensures items { (x : T) → Contains result.now x ↔ HasItem self.now row x }
        ensures len { length result.now ≡ fill_of self.now row }
    {
        &self.places[self.starts[row]..self.ends[row]]
    }
}
