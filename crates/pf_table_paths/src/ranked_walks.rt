//! The clean paths by rising cost, one at a time.

ghost use Rattle.std.specs.Prelude.{◌≡◌, false, [], IfOk, IfErr};
ghost use Rattle.std.specs.Iterator.{at_most};
ghost use Rattle.pf_table_paths.specs.RankedWalks.{IsPathWalkInTable, PathStepInTable};
ghost use Rattle.pf_yen.specs.Walk.{IsBarred, most_items};

use crate::walk::{TableWalk, walk_of};
use pf_base::{Cost, PathError};
use pf_tables::{Goals, Graph};
use std::alloc::{Allocator, Global};
use std::marker::Model;

/// The clean paths by rising cost, each as a `Result`: made by `yen_paths`. A step that was refused
/// with `CostOverflow` is refused with it again after each `resume`.
#[derive(Drop)]
pub struct YenPaths<'a, C: Cost, G: Graph<C>, T: Goals + Copy, A: Allocator = Global> {
    graph: &'a G,
    start: usize,
    goals: T,
    walk: TableWalk<'a, C, G, T, A>,
}

impl<'a, C: Cost, G: Graph<C>, T: Goals + Copy, A: Allocator> Model for YenPaths<'a, C, G, T, A> {
    ghost use Rattle.pf_table_paths.specs.RankedWalks.{TablePathWalk, IsPathWalkInTable};

    ghost Value = { TablePathWalk C G T };

    ghost view = { λ s. record { table = s.graph.now; start = s.start; goals = s.goals; walk = s.walk } };

    ghost invariant = { λ s. IsPathWalkInTable C.value G.size G.places T.passes C.fits (record { table = s.graph.now; start = s.start; goals = s.goals; walk = s.walk }) };
}

impl<'a, C, G, T, A> Iterator for YenPaths<'a, C, G, T, A>
where
    C: Cost,
    G: Graph<C>,
    T: Goals + Copy,
    A: Allocator + Copy,
{
    type Item = Result<(Vec<usize, A>, C), PathError>;

    ghost next_gives = { PathStepInTable C.value G.size G.places T.passes C.fits };

    ghost remaining = { λ s. at_most (most_items s.walk) };

    fn next(&mut self) -> Option<Result<(Vec<usize, A>, C), PathError>> {
        self.walk.next()
    }
}

impl<'a, C, G, T, A> YenPaths<'a, C, G, T, A>
where
    C: Cost,
    G: Graph<C>,
    T: Goals + Copy,
    A: Allocator + Copy,
{
    /// Lets the next call of `next` try again the step that was refused. Where no step was refused
    /// since the last call of `resume`, this changes nothing. A step that was refused with
    /// `CostOverflow` is refused with it again.
    pub fn resume(&mut self)
        ensures lowered { self.new ≡ record self.old { walk = record self.old.walk { refused = false } } }
        ensures graph { IsPathWalkInTable C.value G.size G.places T.passes C.fits self.new }
    {
        self.walk.resume();
    }
}

/// The clean paths from the node `from` to goals, lazily, by rising cost: paths that contain no node
/// twice and of which only the last node is a goal, each once, with its cost. After any number of paths,
/// no clean path that was not given costs less than one that was. Where no step was refused, `None`
/// comes only when all were given, and for good: no path and no refusal comes after it.
///
/// In which order paths of one cost come is open. Where `from` is a goal, it is the only path. A number
/// that is no node of the graph has no edges. A `for` over the paths ends, and they can be resumed
/// behind it. What is in reach of `from` is gone through in the first calls of `next`, until one of them
/// is not refused.
///
/// # Errors
///
/// This call answers `OutOfMemory` where a request for memory was refused. A step is
///
/// - `Err(CostOverflow)` only where a path from `from`, in which no node stands twice and none is a
///   goal, and one step more, by the cheapest of the parallel edges, cost more than `C` can hold; before
///   the first path was given, also only where a cheapest path to some node and one step more cost more
///   than `C` can hold and no goal is cheaper than that node; after a path was given, also only where
///   that path with its step begins with some of the first nodes of the path that was given last and
///   goes on to a node to which no given path goes on from them, and no clean path that does so costs
///   less than that path without its step;
/// - `Err(OutOfMemory)` where a request for memory was refused.
///
/// A refused step loses no path; the walk then answers `None` until `resume` is called, and tries the
/// same step again. A step that was refused with `CostOverflow` is refused with it again after each
/// `resume`.
///
/// The nodes that are found are numbered in a table of 32-bit numbers, one for each node of the graph, so
/// that nothing is hashed.
///
/// The algorithm is Yen's (J. Y. Yen, "Finding the k shortest loopless paths in a network", 1971), with
/// the classes of E. L. Lawler, "A procedure for computing the k best solutions", 1972.
pub fn yen_paths<'a, C, G, T, A>(
    alloc: A,
    graph: &'a G,
    from: usize,
    goals: T,
) -> Result<YenPaths<'a, C, G, T, A>, PathError>
where
    C: Cost,
    G: Graph<C>,
    T: Goals + Copy,
    A: Allocator + Copy,
    ensures begins { IfOk result (λ s. (s.table ≡ graph.now) × (s.start ≡ from) × (s.goals ≡ goals) × (s.walk.given ≡ []) × (s.walk.refused ≡ false) × ¬ (IsBarred s.walk) × (s.walk.successors ≡ graph.now) × (s.walk.success ≡ goals)) }
    ensures graph { IfOk result (IsPathWalkInTable C.value G.size G.places T.passes C.fits) }
    ensures refused { IfErr result (λ e. e ≡ PathError.OutOfMemory) }
{
    let walk = walk_of(alloc, graph, from, goals)?;
    Ok(YenPaths {
        graph,
        start: from,
        goals,
        walk,
    })
}
