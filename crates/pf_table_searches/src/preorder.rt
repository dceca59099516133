//! The nodes in reach of a start, one at a time in preorder.

ghost use Rattle.std.specs.Prelude.{◌≡◌, ◌-◌, ℕ, List, [], false, IfOk, IsOk, length, nat_eq};
ghost use Rattle.std.specs.Iterator.{at_most};
ghost use Rattle.pf_base.specs.Orders.{found_from, last_nodes};
ghost use Rattle.pf_search.specs.Items.{most_items};
ghost use Rattle.pf_tables.specs.Graphs.{successors_of};
ghost use Rattle.pf_table_searches.specs.TableWalks.{IsPreorderWalkInTable, IsPreorderWalkAlong, PreorderStepInTable};

use pf_base::{Cost, PathError};
use pf_search::directed::dfs::DfsReachableBy;
use pf_table_functions::neighbours::Neighbours;
use pf_table_functions::table_nodes::TableNodes;
use pf_tables::Graph;
use std::alloc::{Allocator, Global};
use std::marker::Model;

/// The nodes in reach of a start in preorder, each as a `Result`: made by `dfs_reach`.
#[derive(Drop)]
pub struct DfsReachable<'a, C: Cost, G: Graph<C>, A: Allocator = Global> {
    graph: &'a G,
    start: usize,
    walk: DfsReachableBy<TableNodes<A>, Neighbours<'a, C, G>, A>,
}

impl<'a, C: Cost, G: Graph<C>, A: Allocator> Model for DfsReachable<'a, C, G, A> {
    ghost use Rattle.std.specs.Prelude.{ℕ};
    ghost use Rattle.pf_search.specs.DepthWalks.{DepthWalk};
    ghost use Rattle.pf_table_searches.specs.TableWalks.{TableWalk, IsPreorderWalkInTable};

    ghost Value = { TableWalk G (DepthWalk ℕ G) };

    ghost view = { λ s. record { table = s.graph.now; start = s.start; walk = s.walk } };

    ghost invariant = { λ s. IsPreorderWalkInTable C.value G.size G.places (record { table = s.graph.now; start = s.start; walk = s.walk }) };
}

impl<'a, C, G, A> Iterator for DfsReachable<'a, C, G, A>
where
    C: Cost,
    G: Graph<C>,
    A: Allocator + Copy,
{
    type Item = Result<usize, PathError>;

    ghost next_gives = { PreorderStepInTable C.value G.size G.places };

    ghost remaining = { λ s. at_most (most_items (length s.walk.given) s.walk.refused) };

    fn next(&mut self) -> Option<Result<usize, PathError>> {
        self.walk.next()
    }
}

impl<'a, C, G, A> DfsReachable<'a, C, G, A>
where
    C: Cost,
    G: Graph<C>,
    A: Allocator + Copy,
{
    /// Lets the next call of `next` try again the step that was refused. Where no step was refused
    /// since the last call of `resume`, this changes nothing.
    pub fn resume(&mut self)
        ensures lowered { self.new ≡ record self.old { walk = record self.old.walk { refused = false } } }
        ensures graph { IsPreorderWalkInTable C.value G.size G.places self.new }
        ensures along { (paths : List (List ℕ)) → IsPreorderWalkAlong C.value G.size G.places paths self.old → IsPreorderWalkAlong C.value G.size G.places paths self.new }
    {
        self.walk.resume();
    }
}

impl<'a, C, G, A> DfsReachable<'a, C, G, A>
where
    C: Cost,
    G: Graph<C>,
    A: Allocator,
{
    /// The number of nodes that were found (the start, and each successor of a given node) and not
    /// yet given, each once. At least so many nodes are still to come.
    pub fn remaining_nodes_low_bound(&self) -> usize
        ensures left { result ≡ length self.now.walk.found - length self.now.walk.given }
        ensures graph { (paths : List (List ℕ)) → IsPreorderWalkAlong C.value G.size G.places paths self.now
            → result ≡ length (found_from nat_eq (successors_of C.value (G.size self.now.table) (G.places self.now.table)) self.now.start (last_nodes paths)) - length paths }
    {
        self.walk.remaining_nodes_low_bound()
    }
}

/// A walk over the nodes in reach of `start`, lazily, in the order in which a recursive depth-first
/// search first meets them (preorder), the edges of a node in the order of their places. Each node
/// comes once. What the edges cost plays no part.
///
/// A number that is no node of the graph has no edges, so that from it the walk gives it alone. A
/// `for` over a walk ends, and the walk can be resumed behind it.
///
/// This call takes no memory. The first step lays out a number for each node of the graph, and nothing is
/// hashed.
///
/// # Errors
///
/// This call answers `Ok`. A step is `Err(OutOfMemory)` where a request for memory was refused. It
/// leaves what was found and given as it was; the walk then answers `None` until `resume` is called,
/// and tries the same step again.
///
/// The order is that of depth-first search (R. Tarjan, "Depth-first search and linear graph algorithms",
/// 1972).
pub fn dfs_reach<'a, C, G, A>(
    alloc: A,
    graph: &'a G,
    start: usize,
) -> Result<DfsReachable<'a, C, G, A>, PathError>
where
    C: Cost,
    G: Graph<C>,
    A: Allocator + Copy,
    ensures begins { IfOk result (λ s. (s.table ≡ graph.now) × (s.start ≡ start) × (s.walk.refused ≡ false)) }
    ensures graph { IfOk result (IsPreorderWalkAlong C.value G.size G.places []) }
    ensures good { IsOk result }
{
    let nodes = TableNodes::new(alloc, graph.len());
    let walk = DfsReachableBy::over(alloc, nodes, start, Neighbours::new(graph));
    Ok(DfsReachable { graph, start, walk })
}
