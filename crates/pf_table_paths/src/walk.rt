//! The clean paths of a table as a walk over functions.

ghost use Rattle.std.specs.Prelude.{◌≡◌, false, [], IfOk, IfErr, nat_eq};
ghost use Rattle.pf_table_functions.specs.TableFunctions.{GoalsTest, TableListsEdges};
ghost use Rattle.pf_tables.specs.Graphs.{graph_of};
ghost use Rattle.pf_yen.specs.Walk.{IsBarred, IsPathWalk};

use pf_base::{Cost, PathError};
use pf_table_functions::goal_test::GoalTest;
use pf_table_functions::neighbours::Neighbours;
use pf_table_functions::table_nodes::TableNodes;
use pf_tables::{Goals, Graph};
use pf_yen::directed::yen::YenPathsBy;
use std::alloc::Allocator;

/// A walk over the clean paths of a table to goals, with numbers for nodes in a table of their own.
pub type TableWalk<'a, C, G, T, A> = YenPathsBy<
    TableNodes<A>,
    C,
    Neighbours<'a, C, G>,
    GoalTest<T>,
    A,
>;

/// The walk over the clean paths from the node `from` of a table to goals.
pub fn walk_of<'a, C, G, T, A>(
    alloc: A,
    graph: &'a G,
    from: usize,
    goals: T,
) -> Result<TableWalk<'a, C, G, T, A>, PathError>
where
    C: Cost,
    G: Graph<C>,
    T: Goals + Copy,
    A: Allocator + Copy,
    ensures begins { IfOk result (λ walk. (walk.given ≡ []) × (walk.refused ≡ false) × ¬ (IsBarred walk) × (walk.successors ≡ graph.now) × (walk.success ≡ goals)) }
    ensures graph { IfOk result (IsPathWalk nat_eq C.value (graph_of C.value (G.size graph.now) (G.places graph.now)) from (T.passes goals) C.fits (TableListsEdges C.value G.size G.places) (GoalsTest T.passes)) }
    ensures refused { IfErr result (λ e. e ≡ PathError.OutOfMemory) }
{
    graph.known();
    let nodes = TableNodes::begin(alloc, graph.len(), from)?;
    let walk = YenPathsBy::over(alloc, nodes, Neighbours::new(graph), GoalTest::new(goals));
    Ok(walk)
}
