//! Cheapest paths, searched from both ends.

ghost use Rattle.std.specs.Prelude.{◌≡◌, ◌⊎◌, ◌==◌, [], ◌∷◌, Err, IfOk, IfErr, nat_eq};
ghost use Rattle.pf_base.specs.Edges.{CostOverflows, IsCheapestOrNone};
ghost use Rattle.pf_tables.specs.Graphs.{graph_of};

use pf_adjacency::BothWays;
use pf_base::{Cost, PathError};
use pf_both_ends::discovered::cheapest_path;
use pf_table_functions::discovery::edge_discovery;
use pf_table_functions::table_nodes::TableNodes;
use pf_tables::Graph;
use pf_two_sided::two_sided::TwoSided;
use std::alloc::Allocator;

/// A cheapest path from the node `from` to the node `to`, with its cost, or `None` exactly where no
/// walk leads there.
///
/// The path contains no node twice; where `from` is `to` it is that node alone, at no cost. Which of
/// several such paths is answered is open. A number that is no node of the graph has no edges.
///
/// # Errors
///
/// - `CostOverflow`: only where a cheapest path to some node and one step more, by the cheapest of the
///   parallel edges, cost more than `C` can hold, and `to` is no cheaper than that node.
/// - `OutOfMemory`: a request for memory was refused.
///
/// The algorithm is Dijkstra's from both ends (E. W. Dijkstra, "A note on two problems in connexion
/// with graphs", 1959; T. A. J. Nicholson, "Finding the shortest route between two points in a
/// network", 1966).
pub fn dijkstra_bidirectional<C, G, A, B>(
    alloc: A,
    graph: &BothWays<'_, C, G, B>,
    from: usize,
    to: usize,
) -> Result<Option<(Vec<usize, A>, C)>, PathError>
where
    C: Cost,
    G: Graph<C>,
    A: Allocator + Copy,
    B: Allocator,
    ensures best { IfOk result (IsCheapestOrNone nat_eq (graph_of C.value (G.size graph.now.forth) (G.places graph.now.forth)) (from ∷ []) (λ n. n == to) C.value) }
    ensures overflow { result ≡ Err PathError.CostOverflow → CostOverflows nat_eq (graph_of C.value (G.size graph.now.forth) (G.places graph.now.forth)) (from ∷ []) (λ n. n == to) C.fits }
    ensures errors { IfErr result (λ e. (e ≡ PathError.OutOfMemory) ⊎ (e ≡ PathError.CostOverflow)) }
{
    let forth = graph.forth();
    let back = graph.back();
    forth.known();
    back.known();
    let nodes = TableNodes::begin(alloc, forth.len(), from)?;
    let nodes_back = TableNodes::begin(alloc, back.len(), to)?;
    let mut both = TwoSided {
        forth: edge_discovery(forth, nodes),
        back: edge_discovery(back, nodes_back),
    };
    cheapest_path(alloc, &mut both)
}
