//! Cheapest paths to all nodes in reach, or up to a goal, as maps of parents.

ghost use Rattle.std.specs.HashMap.{get};
ghost use Rattle.std.specs.Prelude.{◌≡◌, ◌⊎◌, [], ◌∷◌, false, Err, IfOk, IfErr, nat_eq};
ghost use Rattle.pf_base.specs.Edges.{CostOverflows};
ghost use Rattle.pf_search.specs.Parents.{IsCheapestMap, IsPartialMap};
ghost use Rattle.pf_tables.specs.Graphs.{graph_of};

use pf_base::{Cost, PathError};
use pf_discovery::tested::TestedBy;
use pf_search::directed::dijkstra::Parents;
use pf_search::discovered::partial_map;
use pf_table_functions::discovery::edge_discovery;
use pf_table_functions::goal_test::GoalTest;
use pf_table_functions::table_nodes::TableNodes;
use pf_tables::{Goals, Graph};
use std::alloc::Allocator;

/// No node is a goal.
#[derive(Clone, Copy)]
struct NoGoal;

impl Goals for NoGoal {
    ghost passes = { λ _ _. false };

    fn is_goal(&self, _: usize) -> bool {
        false
    }
}

/// The parents and the cheapest costs of all nodes in reach of `from`, save that one: exactly these
/// have an entry, with the cost of a cheapest path and a node before it on such a path.
///
/// Who follows parents from an entry meets no node twice and ends at `from`. Which of several parents
/// is named is open. A number that is no node of the graph has no edges.
///
/// # Errors
///
/// - `CostOverflow`: only where a cheapest path to some node and one step more, by the cheapest of the
///   parallel edges, cost more than `C` can hold.
/// - `OutOfMemory`: a request for memory was refused.
///
/// The algorithm is Dijkstra's (E. W. Dijkstra, "A note on two problems in connexion with graphs",
/// 1959), with a queue that is sorted only as far as it is read.
pub fn dijkstra_all<C, G, A>(
    alloc: A,
    graph: &G,
    from: usize,
) -> Result<Parents<usize, C, A>, PathError>
where
    C: Cost,
    G: Graph<C>,
    A: Allocator + Copy,
    ensures cheapest { IfOk result (λ parents. IsCheapestMap nat_eq (graph_of C.value (G.size graph.now) (G.places graph.now)) from C.value (get nat_eq parents)) }
    ensures overflow { result ≡ Err PathError.CostOverflow → CostOverflows nat_eq (graph_of C.value (G.size graph.now) (G.places graph.now)) (from ∷ []) (λ _. false) C.fits }
    ensures errors { IfErr result (λ e. (e ≡ PathError.OutOfMemory) ⊎ (e ≡ PathError.CostOverflow)) }
{
    let (parents, _) = dijkstra_partial(alloc, graph, from, NoGoal)?;
    Ok(parents)
}

/// The parents and costs of the nodes that a search by rising cost has found where it comes to the
/// first goal, and that goal, or `None` where no goal is in reach.
///
/// Exactly the nodes to which a step leads from a node before the goal have an entry, save `from`.
/// It names the least cost that a node before the goal, at its cheapest cost, and one step give, and
/// such a node as the parent. An entry that costs no more than the goal is that of a cheapest path;
/// one that costs more need not be.
///
/// # Errors
///
/// - `CostOverflow`: only where a cheapest path to some node and one step more, by the cheapest of the
///   parallel edges, cost more than `C` can hold, and no goal is cheaper than that node.
/// - `OutOfMemory`: a request for memory was refused.
///
/// The algorithm is Dijkstra's, as in `dijkstra_all`.
pub fn dijkstra_partial<C, G, T, A>(
    alloc: A,
    graph: &G,
    from: usize,
    goals: T,
) -> Result<(Parents<usize, C, A>, Option<usize>), PathError>
where
    C: Cost,
    G: Graph<C>,
    T: Goals + Copy,
    A: Allocator + Copy,
    ensures partial { IfOk result (λ found. IsPartialMap nat_eq (graph_of C.value (G.size graph.now) (G.places graph.now)) from C.value (get nat_eq found.0) (T.passes goals) found.1) }
    ensures overflow { result ≡ Err PathError.CostOverflow → CostOverflows nat_eq (graph_of C.value (G.size graph.now) (G.places graph.now)) (from ∷ []) (T.passes goals) C.fits }
    ensures errors { IfErr result (λ e. (e ≡ PathError.OutOfMemory) ⊎ (e ≡ PathError.CostOverflow)) }
{
    graph.known();
    let mut searched = TestedBy {
        discovery: edge_discovery(graph, TableNodes::begin(alloc, graph.len(), from)?),
        success: GoalTest::new(goals),
    };
    partial_map(alloc, &mut searched)
}
