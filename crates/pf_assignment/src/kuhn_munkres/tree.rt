//! The tree of shortest augmenting paths from the row that is matched next.

ghost use Rattle.std.specs.Prelude.{◌≡◌, ◌≤◌, ◌<◌, ◌+◌, ◌≤ℤ◌, ◌≢◌, ◌⊎◌, ℕ, Some, None, IfOk, OnOk, IfErr, MatchBool, length, slice_index};
ghost use Rattle.pf_base.specs.declared.error.PathError.TheVariants.{OutOfMemory};

use crate::kuhn_munkres::matching::Matching;
use crate::kuhn_munkres::weights::Weights;
use pf_base::cost::arithmetic::{is_below, plus};
use pf_base::filled::filled;
use pf_base::{Cost, PathError, SignedCost, Tally};
use std::alloc::Allocator;

/// Shortest alternating paths from the row that is matched next, its root, to all columns.
///
/// Such a path goes from a row to a column that it is not matched to, and from a column to the row
/// that it is matched to. It is an augmenting path where its last column has no row. A column is
/// visited once no path to it can get shorter.
#[derive(Drop)]
pub struct Tree<C, A: Allocator> {
    /// The rows of the tree in the order in which they came in, the root first.
    pub rows: Vec<usize, A>,
    /// Whether a column was visited, and so its row is in the tree.
    pub visited: Vec<bool, A>,
    /// The length of the shortest path to each column over rows of the tree.
    pub distances: Vec<C, A>,
    /// The place in `rows` of the last row on that path.
    pub places: Vec<usize, A>,
    // Each column has a distance and a place.
    ghost wide: { (length distances.items ≡ length visited.items) × (length places.items ≡ length visited.items) },
}

impl<C: Cost, A: Allocator + Copy> Tree<C, A> {
    ghost use Rattle.pf_assignment.specs.Internal.AssignmentSteps.{IsWide};

    /// A tree for a table of so many columns, before its first root.
    pub fn new(alloc: A, columns: usize) -> Result<Self, PathError>
        ensures wide { IfOk result (IsWide columns) }
        ensures refused { IfErr result (λ e. e ≡ OutOfMemory) }
    {
        let visited = filled(alloc, columns, false)?;
        let distances = filled(alloc, columns, C::zero())?;
        let places = filled(alloc, columns, 0)?;
        Ok(Tree {
            rows: Vec::new(alloc),
            visited,
            distances,
            places,
        })
    }
}

impl<C: Cost, A: Allocator> Tree<C, A> {
    ghost use Rattle.pf_assignment.specs.Internal.AssignmentSteps.{distance_to, IsWide, IsRelaxedIn, IsFreshIn};

    /// Makes all columns unvisited and as far as can be.
    fn clear(&mut self)
        ensures fresh { IsFreshIn C.value (C.value C.greatest) (length self.old.visited.items) self.new }
        ensures rows { self.new.rows.items ≡ self.old.rows.items }
        ensures wide { IsWide (length self.old.visited.items) self.new }
    {
        for column in 0..self.visited.len() {
            self.visited[column] = false;
            self.distances[column] = C::greatest();
            self.places[column] = 0;
        }
    }

    /// Is the first column to be visited before the second? At one distance a column that no row has
    /// comes first, since it ends the search.
    fn is_nearer(&self, row_of: &[Option<usize>], column: usize, other: usize) -> bool
        requires first { column < length self.now.distances.items }
        requires second { other < length self.now.distances.items }
        requires wide { length row_of.now ≡ length self.now.distances.items }
        ensures { MatchBool result (distance_to C.value self.now column ≤ℤ distance_to C.value self.now other) (distance_to C.value self.now other ≤ℤ distance_to C.value self.now column) }
    {
        let here = self.distances[column];
        let there = self.distances[other];
        if is_below(here, there) {
            true
        } else if is_below(there, here) {
            false
        } else {
            row_of[column].is_none()
        }
    }

    /// The one of two columns that is to be visited first, or the column where there is no other.
    fn nearer(&self, row_of: &[Option<usize>], nearest: Option<usize>, column: usize) -> usize
        requires inside { column < length self.now.distances.items }
        requires other { (n : ℕ) → nearest ≡ Some n → n < length self.now.distances.items }
        requires wide { length row_of.now ≡ length self.now.distances.items }
        ensures one { (result ≡ column) ⊎ (nearest ≡ Some result) }
        ensures here { distance_to C.value self.now result ≤ℤ distance_to C.value self.now column }
        ensures before { (n : ℕ) → nearest ≡ Some n → distance_to C.value self.now result ≤ℤ distance_to C.value self.now n }
    {
        match nearest {
            Some(other) => {
                if self.is_nearer(row_of, column, other) {
                    column
                } else {
                    other
                }
            }
            None => column,
        }
    }

    /// Brings the distance of a column up to date with the path over the row at `place`.
    fn relax(&mut self, column: usize, through: C, place: usize)
        requires inside { column < length self.old.visited.items }
        ensures here { IsRelaxedIn C.value (C.value through) place self.old self.new column }
        ensures distances { (j : ℕ) → j ≢ column → distance_to C.value self.new j ≡ distance_to C.value self.old j }
        ensures places { (j : ℕ) → j ≢ column → slice_index self.new.places.items j ≡ slice_index self.old.places.items j }
        ensures rows { self.new.rows.items ≡ self.old.rows.items }
        ensures visited { self.new.visited.items ≡ self.old.visited.items }
    {
        if is_below(through, self.distances[column]) {
            self.distances[column] = through;
            self.places[column] = place;
        }
    }
}

impl<C: SignedCost, A: Allocator> Tree<C, A> {
    ghost use Rattle.pf_assignment.specs.Internal.AssignmentSteps.{holder, IsWide, IsNextIn, IsTreeTo, IsNearestIn, IsScannedIn, CanScan};

    /// Brings the distances of all columns that were not visited up to date with the paths over one
    /// more row, at `place` among the rows of the tree, and answers the nearest of them. The sum of
    /// the row's distance and its potential is `offset`.
    fn scan<W>(
        &mut self,
        weights: &W,
        matching: &Matching<C, A>,
        row: usize,
        place: usize,
        offset: C,
    ) -> usize
    where
        W: Weights<C>,
        requires { CanScan C.value (W.table weights.now) matching.now C.fits self.old row (C.value offset) }
        ensures scanned { IsScannedIn C.value (W.table weights.now) matching.now row place (C.value offset) self.old self.new }
        ensures nearest { IsNearestIn C.value (W.table weights.now).columns self.new result }
        ensures rows { self.new.rows.items ≡ self.old.rows.items }
        ensures visited { self.new.visited.items ≡ self.old.visited.items }
        ensures wide { IsWide (W.table weights.now).columns self.new }
    {
        let mut nearest = None;
        for column in 0..weights.columns() {
            if !self.visited[column] {
                let bound = plus(offset, matching.column_potentials[column]);
                let through = bound.minus(weights.at(row, column));
                self.relax(column, through, place);
                nearest = Some(self.nearer(&matching.row_of, nearest, column));
            }
        }
        nearest.unwrap()
    }

    /// Makes a tree of the next row alone, and answers the column to be visited first.
    fn begin<W>(&mut self, weights: &W, matching: &Matching<C, A>) -> Result<usize, PathError>
    where
        W: Weights<C>,
        requires next { IsNextIn C.value (W.table weights.now) matching.now C.fits }
        requires wide { IsWide (W.table weights.now).columns self.old }
        ensures tree { IfOk result (IsTreeTo C.value (W.table weights.now) matching.now self.new) }
        ensures one { OnOk result (length self.new.rows.items ≡ 1) }
        ensures wide { IsWide (W.table weights.now).columns self.new }
        ensures refused { IfErr result (λ e. e ≡ OutOfMemory) }
    {
        let root = matching.column_of.len();
        self.rows.clear();
        self.rows.push(root)?;
        self.clear();
        Ok(self.scan(weights, matching, root, 0, C::zero()))
    }

    /// Visits a column, takes its row into the tree, and answers the column to be visited next.
    fn visit<W>(
        &mut self,
        weights: &W,
        matching: &Matching<C, A>,
        column: usize,
        row: usize,
    ) -> Result<usize, PathError>
    where
        W: Weights<C>,
        requires next { IsNextIn C.value (W.table weights.now) matching.now C.fits }
        requires tree { IsTreeTo C.value (W.table weights.now) matching.now self.old column }
        requires row { holder matching.now.row_of.items column ≡ Some row }
        ensures tree { IfOk result (IsTreeTo C.value (W.table weights.now) matching.now self.new) }
        ensures more { OnOk result (length self.new.rows.items ≡ length self.old.rows.items + 1) }
        ensures wide { IsWide (W.table weights.now).columns self.new }
        ensures refused { IfErr result (λ e. e ≡ OutOfMemory) }
    {
        let place = self.rows.len();
        self.rows.push(row)?;
        self.visited[column] = true;
        let offset = plus(self.distances[column], matching.row_potentials[row]);
        Ok(self.scan(weights, matching, row, place, offset))
    }

    /// Grows a tree from the next row until a column that no row has is nearest, and answers it. Each
    /// choice of a column is a tick.
    pub fn grow<W>(
        &mut self,
        weights: &W,
        matching: &Matching<C, A>,
        tally: &mut Tally,
    ) -> Result<usize, PathError>
    where
        W: Weights<C>,
        requires next { IsNextIn C.value (W.table weights.now) matching.now C.fits }
        requires wide { IsWide (W.table weights.now).columns self.old }
        ensures tree { IfOk result (IsTreeTo C.value (W.table weights.now) matching.now self.new) }
        ensures free { IfOk result (λ column. holder matching.now.row_of.items column ≡ None) }
        ensures wide { IsWide (W.table weights.now).columns self.new }
        ensures refused { IfErr result (λ e. e ≡ OutOfMemory) }
        ensures ticked { tally.old ≤ tally.new }
        ensures rounds { tally.new ≤ tally.old + length matching.now.column_of.items + 1 }
    {
        let mut column = self.begin(weights, matching)?;
        tally.tick();
        'visits: while let Some(row) = matching.row_of[column] {
            column = self.visit(weights, matching, column, row)?;
            tally.tick();
        }
        Ok(column)
    }
}
