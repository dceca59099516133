//! The vertices in reach of a position, where each step leads to a neighbour that passes a test.

ghost use Rattle.std.specs.Prelude.{◌≡◌, ◌+◌, ℕ, true, false, [], ◌∷◌, Some, IfOk, IfErr, OnOk, length, slice_get};
ghost use Rattle.pf_grid.specs.VertexFloods.{IsFlood, IsFloodBy};
ghost use Rattle.pf_grid.specs.GridPositions.{IsInside, has};
ghost use Rattle.pf_grid.specs.declared.error.GridError.TheVariants.{OutOfMemory};
ghost use Rattle.pf_matrix.specs.Calls.{CallableInTurn};
ghost use Rattle.pf_grid.specs.Steps.{neighbours_of};
ghost use Rattle.pf_matrix.specs.Floods.{answer_at};
ghost use Rattle.pf_matrix.specs.Internal.Flooding.{Spreads, free_count};
ghost use Rattle.pf_matrix.specs.Positions.{positions};

use crate::error::GridError;
use crate::grid::Grid;
use pf_matrix::Matrix;
use pf_matrix::flooding::{close, set_of, set_of_one};
use std::alloc::Allocator;
use std::collections::BTreeSet;

impl<A: Allocator + Copy> Grid<A> {
    /// The vertices that are reached from `start` by steps to neighbours that `predicate` takes. The
    /// start is always one of them, also where it is no vertex: then it is the only one.
    ///
    /// From a vertex, `predicate` is asked once for each position inside, the first column first,
    /// before the first step, and has to be callable at each in turn. The memory comes from the
    /// allocator of the grid.
    ///
    /// # Errors
    ///
    /// `OutOfMemory` where a request for memory was refused.
    ///
    /// The algorithm is breadth-first search (E. F. Moore, "The shortest path through a maze", 1959).
    pub fn bfs_reachable<P: FnMut((usize, usize)) -> bool>(
        &self,
        start: (usize, usize),
        predicate: P,
    ) -> Result<BTreeSet<(usize, usize), A>, GridError>
        requires { CallableInTurn P.pre P.step predicate (positions self.now.width self.now.height) }
        ensures alone { IfOk result (λ reached. has self.now start.0 start.1 ≡ false → reached.keys ≡ start ∷ []) }
        ensures reached { IfOk result (λ reached. has self.now start.0 start.1 ≡ true → IsFloodBy P.step predicate self.now start reached) }
        ensures refused { IfErr result (λ e. e ≡ OutOfMemory) }
    {
        let alloc = *self.words.allocator();
        if !self.has_vertex(start) {
            return Ok(set_of_one(alloc, start)?);
        }
        let Ok(free) = Matrix::from_fn(alloc, self.width, self.height, predicate) else {
            return Err(GridError::OutOfMemory);
        };
        self.flood(alloc, start, free)
    }

    /// The vertices that are reached from `start` by steps to neighbours that `predicate` takes, as
    /// `bfs_reachable` answers them: a set does not tell in which order they were found, and both calls
    /// go in breadth order.
    ///
    /// # Errors
    ///
    /// `OutOfMemory` where a request for memory was refused.
    pub fn dfs_reachable<P: FnMut((usize, usize)) -> bool>(
        &self,
        start: (usize, usize),
        predicate: P,
    ) -> Result<BTreeSet<(usize, usize), A>, GridError>
        requires { CallableInTurn P.pre P.step predicate (positions self.now.width self.now.height) }
        ensures alone { IfOk result (λ reached. has self.now start.0 start.1 ≡ false → reached.keys ≡ start ∷ []) }
        ensures reached { IfOk result (λ reached. has self.now start.0 start.1 ≡ true → IsFloodBy P.step predicate self.now start reached) }
        ensures refused { IfErr result (λ e. e ≡ OutOfMemory) }
    {
        self.bfs_reachable(start, predicate)
    }

    /// The vertices that are reached from `start` by steps to neighbours at which `free` has `true`.
    /// The start is always one of them.
    fn flood(
        &self,
        alloc: A,
        start: (usize, usize),
        mut free: Matrix<bool, A>,
    ) -> Result<BTreeSet<(usize, usize), A>, GridError>
        requires sizes { (free.rows ≡ self.now.width) × (free.columns ≡ self.now.height) }
        requires inside { IsInside self.now start }
        ensures reached { IfOk result (IsFlood self.now (answer_at free.rows free.columns free.values) start) }
        ensures refused { IfErr result (λ e. e ≡ OutOfMemory) }
    {
        let mut reached = Vec::new(alloc);
        reached.push(start)?;
        let mut next = 0;
        'positions: while next < reached.len() {
            self.reach_around(&mut free, reached[next], &mut reached)?;
            next += 1;
        }
        Ok(set_of(free, reached)?)
    }

    /// Puts the free neighbours of a vertex at the end of the list, and closes them. Where memory is
    /// refused, it did so with some of them.
    fn reach_around(
        &self,
        free: &mut Matrix<bool, A>,
        position: (usize, usize),
        reached: &mut Vec<(usize, usize), A>,
    ) -> Result<(), GridError>
        requires sizes { (free.old.rows ≡ self.now.width) × (free.old.columns ≡ self.now.height) }
        ensures sizes { (free.new.rows ≡ free.old.rows) × (free.new.columns ≡ free.old.columns) }
        ensures closes { (p : ℕ × ℕ) → answer_at free.old.rows free.old.columns free.new.values p ≡ true → answer_at free.old.rows free.old.columns free.old.values p ≡ true }
        ensures kept { (k : ℕ) (p : ℕ × ℕ) → slice_get reached.old.items k ≡ Some p → slice_get reached.new.items k ≡ Some p }
        ensures spreads { OnOk result (Spreads (neighbours_of self.now position) []
            (answer_at free.old.rows free.old.columns free.old.values) (answer_at free.old.rows free.old.columns free.new.values) reached.old.items reached.new.items) }
        ensures counted { OnOk result (free_count free.new.values + length reached.new.items ≡ free_count free.old.values + length reached.old.items) }
        ensures refused { IfErr result (λ e. e ≡ OutOfMemory) }
    {
        for neighbour in self.around(position) {
            if close(free, neighbour) {
                reached.push(neighbour)?;
            }
        }
        Ok(())
    }
}
