//! Paths with fewest edges, searched from both ends.

ghost use Rattle.std.specs.Prelude.{◌≡◌, ◌==◌, [], ◌∷◌, IfOk, IfErr, nat_eq};
ghost use Rattle.pf_base.specs.Successors.{IsFewestEdgesOrNone};
ghost use Rattle.pf_tables.specs.Graphs.{successors_of};

use pf_adjacency::BothWays;
use pf_base::{Cost, PathError};
use pf_both_ends::discovered::fewest_edges_path;
use pf_table_functions::discovery::hop_discovery;
use pf_table_functions::table_nodes::TableNodes;
use pf_tables::Graph;
use pf_two_sided::two_sided::TwoSided;
use std::alloc::Allocator;

/// A path with fewest edges from the node `from` to the node `to`, or `None` exactly where no walk
/// leads there. What the edges cost plays no part.
///
/// The path contains no node twice; where `from` is `to` it is that node alone. Which of several such
/// paths is answered is open. A number that is no node of the graph has no edges.
///
/// # Errors
///
/// `OutOfMemory`: a request for memory was refused.
///
/// The algorithm is breadth-first search from both ends (I. Pohl, "Bi-directional search", 1971), which
/// visits a whole level at a time of the side that found fewer nodes last.
pub fn bfs_bidirectional<C, G, A, B>(
    alloc: A,
    graph: &BothWays<'_, C, G, B>,
    from: usize,
    to: usize,
) -> Result<Option<Vec<usize, A>>, PathError>
where
    C: Cost,
    G: Graph<C>,
    A: Allocator + Copy,
    B: Allocator,
    ensures best { IfOk result (IsFewestEdgesOrNone nat_eq (successors_of C.value (G.size graph.now.forth) (G.places graph.now.forth)) (from ∷ []) (λ n. n == to)) }
    ensures errors { IfErr result (λ e. e ≡ PathError.OutOfMemory) }
{
    let forth = graph.forth();
    let back = graph.back();
    let nodes = TableNodes::begin(alloc, forth.len(), from)?;
    let nodes_back = TableNodes::begin(alloc, back.len(), to)?;
    let mut both = TwoSided {
        forth: hop_discovery(forth, nodes),
        back: hop_discovery(back, nodes_back),
    };
    fewest_edges_path(alloc, &mut both)
}
