//! The positions in reach of a position, where each step leads to a neighbour that passes a test.

ghost use Rattle.std.specs.Prelude.{◌≡◌, IfOk, IfErr};
ghost use Rattle.pf_matrix.specs.Calls.{CallableInTurn};
ghost use Rattle.pf_matrix.specs.Floods.{IsFloodBy};
ghost use Rattle.pf_matrix.specs.Positions.{positions_of};
ghost use Rattle.pf_matrix.specs.declared.error.MatrixFormatError.TheVariants.{OutOfMemory};

use crate::error::MatrixFormatError;
use crate::matrix::Matrix;
use crate::matrix::flooding::flood;
use std::alloc::Allocator;
use std::collections::BTreeSet;

impl<C, A: Allocator + Copy> Matrix<C, A> {
    /// The positions that are reached from `start` by steps to neighbours that `predicate` takes. The
    /// start is always one of them, also where it lies outside: then it is the only one.
    ///
    /// `predicate` is asked once for each position, the first row first, before the first step, and
    /// has to be callable at each in turn. The memory comes from the allocator of the matrix.
    ///
    /// # Errors
    ///
    /// `OutOfMemory` where a request for memory was refused.
    ///
    /// The algorithm is breadth-first search (E. F. Moore, "The shortest path through a maze", 1959).
    pub fn bfs_reachable<P: FnMut((usize, usize)) -> bool>(
        &self,
        start: (usize, usize),
        diagonals: bool,
        predicate: P,
    ) -> Result<BTreeSet<(usize, usize), A>, MatrixFormatError>
        requires { CallableInTurn P.pre P.step predicate (positions_of self.now) }
        ensures reached { IfOk result (IsFloodBy P.step predicate self.now diagonals start) }
        ensures refused { IfErr result (λ e. e ≡ OutOfMemory) }
    {
        let alloc = *self.values.allocator();
        let free = Matrix::from_fn(alloc, self.rows, self.columns, predicate)?;
        flood(alloc, free, start, diagonals)
    }

    /// The positions that are reached from `start` by steps to neighbours that `predicate` takes, as
    /// `bfs_reachable` answers them: a set does not tell in which order they were found, and both calls
    /// go in breadth order.
    ///
    /// # Errors
    ///
    /// `OutOfMemory` where a request for memory was refused.
    pub fn dfs_reachable<P: FnMut((usize, usize)) -> bool>(
        &self,
        start: (usize, usize),
        diagonals: bool,
        predicate: P,
    ) -> Result<BTreeSet<(usize, usize), A>, MatrixFormatError>
        requires { CallableInTurn P.pre P.step predicate (positions_of self.now) }
        ensures reached { IfOk result (IsFloodBy P.step predicate self.now diagonals start) }
        ensures refused { IfErr result (λ e. e ≡ OutOfMemory) }
    {
        self.bfs_reachable(start, diagonals, predicate)
    }
}
