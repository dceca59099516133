//! Rows that are matched to columns of their own, under potentials.

ghost use Rattle.std.specs.Prelude.{◌≡◌, ◌≤◌, ◌<◌, ◌+◌, ◌+ℤ◌, ℕ, pos, true, None, OnOk, IfOk, IfErr, length, slice_index};
ghost use Rattle.pf_base.specs.declared.error.PathError.TheVariants.{OutOfMemory};
ghost use Rattle.pf_base.specs.Places.{number};
ghost use Rattle.pf_assignment.specs.Internal.AssignmentSteps.{gain, holder, flag, IsMatching, IsWide, IsMatchedIn, IsNextIn, IsTreeTo, IsAlternatingTree, AreRaised, AreLowered, LoweredFit, AreFlipped};

use crate::kuhn_munkres::tree::Tree;
use crate::kuhn_munkres::weights::Weights;
use pf_base::cost::arithmetic::plus;
use pf_base::filled::filled;
use pf_base::{Cost, PathError, SignedCost, Tally};
use std::alloc::Allocator;

/// The rows that were matched so far, one after another, and potentials of rows and columns. The
/// potentials of a row and a column are together at least the weight, and equal to it where the two
/// are matched; a column that no row has has potential zero, and none has a lower one.
#[derive(Drop)]
pub struct Matching<C, A: Allocator> {
    /// The column of each row that is matched.
    pub column_of: Vec<usize, A>,
    /// The row of each column, if it has one.
    pub row_of: Vec<Option<usize>, A>,
    /// The potentials of the rows.
    pub row_potentials: Vec<C, A>,
    /// The potentials of the columns.
    pub column_potentials: Vec<C, A>,
}

impl<C: Cost, A: Allocator + Copy> Matching<C, A> {
    /// No row is matched to any of so many columns.
    pub fn new(alloc: A, columns: usize) -> Result<Self, PathError>
        ensures rows { IfOk result (λ m. length m.column_of.items ≡ 0) }
        ensures row_potentials { IfOk result (λ m. length m.row_potentials.items ≡ 0) }
        ensures row_of { IfOk result (λ m. length m.row_of.items ≡ columns) }
        ensures column_potentials { IfOk result (λ m. length m.column_potentials.items ≡ columns) }
        ensures free { IfOk result (λ m. (j : ℕ) → holder m.row_of.items j ≡ None) }
        ensures zero { IfOk result (λ m. (j : ℕ) → number C.value m.column_potentials.items j ≡ pos 0) }
        ensures refused { IfErr result (λ e. e ≡ OutOfMemory) }
    {
        let row_of = filled(alloc, columns, None)?;
        let column_potentials = filled(alloc, columns, C::zero())?;
        Ok(Matching {
            column_of: Vec::new(alloc),
            row_of,
            row_potentials: Vec::new(alloc),
            column_potentials,
        })
    }
}

impl<C: SignedCost, A: Allocator> Matching<C, A> {
    /// Raises and lowers the potentials along the tree whose nearest column is this free one, and
    /// augments the matching along the path to it, so that the root of the tree, the next row, is matched.
    fn augment<W>(&mut self, weights: &W, tree: &Tree<C, A>, column: usize) -> Result<(), PathError>
    where
        W: Weights<C>,
        requires next { IsNextIn C.value (W.table weights.now) self.old C.fits }
        requires tree { IsTreeTo C.value (W.table weights.now) self.old tree.now column }
        requires free { holder self.old.row_of.items column ≡ None }
        ensures matched { OnOk result (IsMatchedIn C.value (W.table weights.now) self.new) }
        ensures rows { OnOk result (length self.new.column_of.items ≡ length self.old.column_of.items + 1) }
        ensures refused { IfErr result (λ e. e ≡ OutOfMemory) }
    {
        let depth = tree.distances[column];
        raise_columns(
            &mut self.column_potentials,
            &tree.visited,
            &tree.distances,
            depth,
        );
        lower_rows(
            &mut self.row_potentials,
            &self.column_of,
            &tree.visited,
            &tree.distances,
            depth,
        );
        self.row_potentials.push(depth.negated())?;
        let left = flip_path(
            &mut self.column_of,
            &mut self.row_of,
            &tree.rows,
            &tree.places,
            column,
        );
        self.row_of[left] = Some(self.column_of.len());
        self.column_of.push(left)?;
        Ok(())
    }

    /// Matches the next row, with at most a tick for each row up to it.
    pub fn match_row<W>(
        &mut self,
        weights: &W,
        tree: &mut Tree<C, A>,
        tally: &mut Tally,
    ) -> Result<(), PathError>
    where
        W: Weights<C>,
        requires next { IsNextIn C.value (W.table weights.now) self.old C.fits }
        requires wide { IsWide (W.table weights.now).columns tree.old }
        ensures matched { OnOk result (IsMatchedIn C.value (W.table weights.now) self.new) }
        ensures rows { OnOk result (length self.new.column_of.items ≡ length self.old.column_of.items + 1) }
        ensures wide { IsWide (W.table weights.now).columns tree.new }
        ensures refused { IfErr result (λ e. e ≡ OutOfMemory) }
        ensures ticked { tally.old ≤ tally.new }
        ensures rounds { tally.new ≤ tally.old + (W.table weights.now).rows }
    {
        let column = tree.grow(weights, self, tally)?;
        self.augment(weights, tree, column)
    }
}

/// Raises the potentials of the columns that were visited, each by as much as the depth is above its
/// distance.
fn raise_columns<C: SignedCost>(potentials: &mut [C], visited: &[bool], distances: &[C], depth: C)
    requires visited { length visited.now ≡ length potentials.old }
    requires distances { length distances.now ≡ length potentials.old }
    requires difference { (j : ℕ) → j < length potentials.old → flag visited.now j ≡ true → C.fits (gain C.value depth distances.now j) }
    requires sum { (j : ℕ) → j < length potentials.old → flag visited.now j ≡ true → C.fits (number C.value potentials.old j +ℤ gain C.value depth distances.now j) }
    ensures { AreRaised C.value depth distances.now visited.now potentials.old potentials.new }
{
    for column in 0..potentials.len() {
        if visited[column] {
            let by = depth.minus(distances[column]);
            potentials[column] = plus(potentials[column], by);
        }
    }
}

/// Lowers the potentials of the rows whose columns were visited, each by as much as the depth is
/// above its distance.
fn lower_rows<C: SignedCost>(
    potentials: &mut [C],
    column_of: &[usize],
    visited: &[bool],
    distances: &[C],
    depth: C,
)
    requires rows { length column_of.now ≤ length potentials.old }
    requires columns { (i : ℕ) → i < length column_of.now → slice_index column_of.now i < length visited.now }
    requires distances { length distances.now ≡ length visited.now }
    requires difference { (j : ℕ) → j < length visited.now → flag visited.now j ≡ true → C.fits (gain C.value depth distances.now j) }
    requires rest { LoweredFit C.value C.fits depth distances.now visited.now column_of.now potentials.old }
    ensures { AreLowered C.value depth distances.now visited.now column_of.now potentials.old potentials.new }
{
    for row in 0..column_of.len() {
        let column = column_of[row];
        if visited[column] {
            let by = depth.minus(distances[column]);
            potentials[row] = potentials[row].minus(by);
        }
    }
}

/// Flips the augmenting path that ends at a column: each row on it but the root is matched to the
/// column that follows it, and the column that follows the root is answered.
fn flip_path(
    column_of: &mut [usize],
    row_of: &mut [Option<usize>],
    rows: &[usize],
    places: &[usize],
    column: usize,
) -> usize
    requires matching { IsMatching (length column_of.old) (length row_of.old) (slice_index column_of.old) (holder row_of.old) }
    requires rooted { IsAlternatingTree (length column_of.old) (length row_of.old) (length rows.now) (slice_index column_of.old) (slice_index rows.now) (slice_index places.now) }
    requires places { length places.now ≡ length row_of.old }
    requires inside { column < length row_of.old }
    requires free { holder row_of.old column ≡ None }
    ensures flipped { AreFlipped column_of.old row_of.old rows.now places.now column column_of.new row_of.new result }
    ensures root { slice_index places.now result ≡ 0 }
{
    let mut column = column;
    let mut place = places[column];
    'rows: while place > 0 {
        let row = rows[place];
        let previous = column_of[row];
        column_of[row] = column;
        row_of[column] = Some(row);
        column = previous;
        place = places[column];
    }
    column
}
