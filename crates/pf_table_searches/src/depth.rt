//! Paths found depth first.

ghost use Rattle.std.specs.Prelude.{◌≡◌, [], ◌∷◌, IfOk, IfErr, MatchOption, nat_eq};
ghost use Rattle.pf_base.specs.Successors.{HasSuccessor};
ghost use Rattle.pf_base.specs.Walks.{HasNoGoalWalk, IsGoalPath};
ghost use Rattle.pf_search.specs.Preorder.{IsFirstTreePath};
ghost use Rattle.pf_tables.specs.Graphs.{successors_of};

use pf_base::{Cost, PathError};
use pf_search::directed::dfs::dfs_over;
use pf_table_functions::goal_test::GoalTest;
use pf_table_functions::neighbours::Neighbours;
use pf_table_functions::table_nodes::TableNodes;
use pf_tables::{Goals, Graph};
use std::alloc::Allocator;

/// The tree path of a depth-first search from the node `from` to the first goal in preorder, or `None`
/// exactly where no walk leads from `from` to a goal. What the edges cost plays no part.
///
/// The path contains no node twice; it need not have fewest edges. A number that is no node of the
/// graph has no edges. A number is laid out for each node of the graph, and nothing is hashed.
///
/// # Errors
///
/// `OutOfMemory`: a request for memory was refused.
///
/// The algorithm is depth-first search (R. Tarjan, "Depth-first search and linear graph algorithms",
/// 1972).
pub fn dfs<C, G, T, A>(
    alloc: A,
    graph: &G,
    from: usize,
    goals: T,
) -> Result<Option<Vec<usize, A>>, PathError>
where
    C: Cost,
    G: Graph<C>,
    T: Goals + Copy,
    A: Allocator + Copy,
    ensures first { IfOk result (λ answer. MatchOption answer
        (HasNoGoalWalk nat_eq (HasSuccessor nat_eq (successors_of C.value (G.size graph.now) (G.places graph.now))) (from ∷ []) (T.passes goals))
        (λ path. IsGoalPath nat_eq (HasSuccessor nat_eq (successors_of C.value (G.size graph.now) (G.places graph.now))) (from ∷ []) (T.passes goals) path.items
        × IsFirstTreePath nat_eq (successors_of C.value (G.size graph.now) (G.places graph.now)) from (T.passes goals) path.items)) }
    ensures errors { IfErr result (λ e. e ≡ PathError.OutOfMemory) }
{
    dfs_over(
        alloc,
        TableNodes::new(alloc, graph.len()),
        from,
        Neighbours::new(graph),
        GoalTest::new(goals),
    )
}
