//! Cheapest paths over a table.

ghost use Rattle.std.specs.Prelude.{◌≡◌, ◌⊎◌, [], ◌∷◌, Err, IfOk, IfErr, nat_eq};
ghost use Rattle.pf_base.specs.Edges.{CostOverflows, IsCheapestOrNone};
ghost use Rattle.pf_tables.specs.Graphs.{graph_of};

use crate::goals::Goals;
use crate::graph::Graph;
use crate::own_numbers::OwnNumbers;
use pf_base::filled::alone;
use pf_base::{Cost, PathError, Tally};
use pf_core::dijkstra::cheapest_path;
use std::alloc::Allocator;

/// A cheapest path from the node `from` to a goal, with its cost, or `None` exactly where no walk
/// leads from `from` to a goal.
///
/// The path contains no node twice, and which of several cheapest paths is answered is open. Where
/// several edges lead to one node, a step costs what the cheapest of them costs. A number that is
/// no node of the graph has no edges.
///
/// # Errors
///
/// - `CostOverflow`: only where a cheapest path to some node and one step more, by the cheapest of the
///   parallel edges, cost more than `C` can hold, and no goal is cheaper than that node.
/// - `OutOfMemory`: a request for memory was refused.
///
/// The algorithm is Dijkstra's (E. W. Dijkstra, "A note on two problems in connexion with graphs",
/// 1959), with a queue that is sorted only as far as it is read. A call lays out one label for each node of the graph, and then takes
/// memory and time for those that it reaches.
pub fn dijkstra<C, G, T, A>(
    alloc: A,
    graph: &G,
    from: usize,
    goals: T,
) -> Result<Option<(Vec<usize, A>, C)>, PathError>
where
    C: Cost,
    G: Graph<C>,
    T: Goals + Copy,
    A: Allocator + Copy,
    ensures best { IfOk result (IsCheapestOrNone nat_eq (graph_of C.value (G.size graph.now) (G.places graph.now)) (from ∷ []) (T.passes goals) C.value) }
    ensures overflow { result ≡ Err PathError.CostOverflow → CostOverflows nat_eq (graph_of C.value (G.size graph.now) (G.places graph.now)) (from ∷ []) (T.passes goals) C.fits }
    ensures errors { IfErr result (λ e. (e ≡ PathError.OutOfMemory) ⊎ (e ≡ PathError.CostOverflow)) }
{
    graph.known();
    if from >= graph.len() {
        if !goals.is_goal(from) {
            return Ok(None);
        }
        let path = alone(alloc, from)?;
        return Ok(Some((path, C::zero())));
    }
    let mut table = OwnNumbers { graph, goals };
    let mut tally = Tally::new();
    cheapest_path(alloc, &mut table, from, &mut tally)
}
