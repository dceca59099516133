//! Paths with fewest edges over a table.

ghost use Rattle.std.specs.Prelude.{◌≡◌, [], ◌∷◌, IfOk, IfErr, nat_eq};
ghost use Rattle.pf_base.specs.Successors.{IsFewestEdgesOrNone};
ghost use Rattle.pf_tables.specs.Graphs.{successors_of};

use crate::explored::Explored;
use crate::numbering::Numbering;
use pf_base::filled::alone;
use pf_base::{Cost, PathError};
use pf_core::bfs::fewest_edges_path;
use pf_core::clones::clones_at;
use pf_tables::{Goals, Graph};
use std::alloc::Allocator;
use std::marker::PhantomData;

/// A path with fewest edges from the node `from` to a goal, or `None` exactly where no walk leads
/// from `from` to a goal. What the edges cost plays no part.
///
/// The path contains no node twice, and which of several such paths is answered is open. A number
/// that is no node of the graph has no edges.
///
/// # Errors
///
/// `OutOfMemory`: a request for memory was refused.
///
/// The algorithm is breadth-first search (E. F. Moore, "The shortest path through a maze", 1959). A
/// call lays out one number for each node of the graph, and then takes memory and time for those that
/// it reaches.
pub fn bfs<C, G, T, A>(
    alloc: A,
    graph: &G,
    from: usize,
    goals: T,
) -> Result<Option<Vec<usize, A>>, PathError>
where
    C: Cost,
    G: Graph<C>,
    T: Goals + Copy,
    A: Allocator + Copy,
    ensures best { IfOk result (IsFewestEdgesOrNone nat_eq (successors_of C.value (G.size graph.now) (G.places graph.now)) (from ∷ []) (T.passes goals)) }
    ensures errors { IfErr result (λ e. e ≡ PathError.OutOfMemory) }
{
    if from >= graph.len() {
        if !goals.is_goal(from) {
            return Ok(None);
        }
        let path = alone(alloc, from)?;
        return Ok(Some(path));
    }
    let numbering = Numbering::of_one(alloc, graph.len(), from)?;
    let mut explored: Explored<'_, C, G, T, A> = Explored {
        graph,
        goals,
        numbering,
        cost: PhantomData,
    };
    match fewest_edges_path::<u8, _, _>(alloc, &mut explored)? {
        None => Ok(None),
        Some(numbers) => {
            let path = clones_at(alloc, &explored.numbering.order, &numbers)?;
            Ok(Some(path))
        }
    }
}
