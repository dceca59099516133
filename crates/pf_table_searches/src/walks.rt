//! The nodes in reach of a start, one at a time: in breadth order, and by rising cost.

ghost use Rattle.std.specs.Prelude.{◌≡◌, [], ◌∷◌, false, Ok, IfOk, IfErr, length};
ghost use Rattle.std.specs.Iterator.{at_most};
ghost use Rattle.pf_search.specs.Items.{most_items};
ghost use Rattle.pf_table_searches.specs.TableWalks.{IsBreadthWalkInTable, BreadthStepInTable, IsCheapestWalkInTable, IsBarredInTable, CheapestStepInTable};

use pf_base::{Cost, PathError};
use pf_search::directed::bfs::BfsReachableBy;
use pf_search::directed::dijkstra::{DijkstraReachableBy, DijkstraReachableItem};
use pf_table_functions::neighbours::Neighbours;
use pf_table_functions::table_nodes::TableNodes;
use pf_tables::Graph;
use std::alloc::{Allocator, Global};
use std::marker::Model;

/// The nodes in reach of a start in breadth order, each as a `Result`: made by `bfs_reach`.
#[derive(Drop)]
pub struct BfsReachable<'a, C: Cost, G: Graph<C>, A: Allocator = Global> {
    graph: &'a G,
    start: usize,
    walk: BfsReachableBy<TableNodes<A>, Neighbours<'a, C, G>>,
}

impl<'a, C: Cost, G: Graph<C>, A: Allocator> Model for BfsReachable<'a, C, G, A> {
    ghost use Rattle.std.specs.Prelude.{ℕ};
    ghost use Rattle.pf_search.specs.Breadth.{BreadthWalk};
    ghost use Rattle.pf_table_searches.specs.TableWalks.{TableWalk, IsBreadthWalkInTable};

    ghost Value = { TableWalk G (BreadthWalk ℕ G) };

    ghost view = { λ s. record { table = s.graph.now; start = s.start; walk = s.walk } };

    ghost invariant = { λ s. IsBreadthWalkInTable C.value G.size G.places (record { table = s.graph.now; start = s.start; walk = s.walk }) };
}

impl<'a, C, G, A> Iterator for BfsReachable<'a, C, G, A>
where
    C: Cost,
    G: Graph<C>,
    A: Allocator + Copy,
{
    type Item = Result<usize, PathError>;

    ghost next_gives = { BreadthStepInTable C.value G.size G.places };

    ghost remaining = { λ s. at_most (most_items (length s.walk.given) s.walk.refused) };

    fn next(&mut self) -> Option<Result<usize, PathError>> {
        self.walk.next()
    }
}

impl<'a, C, G, A> BfsReachable<'a, C, G, A>
where
    C: Cost,
    G: Graph<C>,
    A: Allocator + Copy,
{
    /// Lets the next call of `next` try again the step that was refused. Where no step was refused
    /// since the last call of `resume`, this changes nothing.
    pub fn resume(&mut self)
        ensures lowered { self.new ≡ record self.old { walk = record self.old.walk { refused = false } } }
        ensures graph { IsBreadthWalkInTable C.value G.size G.places self.new }
    {
        self.walk.resume();
    }
}

impl<'a, C, G, A> BfsReachable<'a, C, G, A>
where
    C: Cost,
    G: Graph<C>,
    A: Allocator,
{
    /// The number of nodes that were found (the start, and each successor of a given node) and not
    /// yet given, each once. At least so many nodes are still to come.
    pub fn remaining_nodes_low_bound(&self) -> usize
        ensures { result ≡ length self.now.walk.waiting }
    {
        self.walk.remaining_nodes_low_bound()
    }
}

/// A walk over the nodes in reach of `start`, lazily, in breadth order: by distance from the start;
/// at equal distance by the place of the earliest parent, then by the place in that parent's edges.
/// Each node comes once. What the edges cost plays no part.
///
/// A number that is no node of the graph has no edges, so that from it the walk gives it alone. A
/// `for` over a walk ends, and the walk can be resumed behind it.
///
/// This call takes no memory. The first step lays out a number for each node of the graph, and nothing is
/// hashed.
///
/// # Errors
///
/// This call answers `Ok`. A step is `Err(OutOfMemory)` where a request for memory was refused. It
/// leaves what was found and given as it was; the walk then answers `None` until `resume` is called,
/// and tries the same step again.
///
/// The algorithm is breadth-first search (E. F. Moore, "The shortest path through a maze", 1959).
pub fn bfs_reach<'a, C, G, A>(
    alloc: A,
    graph: &'a G,
    start: usize,
) -> Result<BfsReachable<'a, C, G, A>, PathError>
where
    C: Cost,
    G: Graph<C>,
    A: Allocator + Copy,
    ensures begins { result ≡ Ok (record { table = graph.now; start = start; walk = record { given = []; waiting = start ∷ []; refused = false; successors = graph.now } }) }
    ensures graph { IfOk result (IsBreadthWalkInTable C.value G.size G.places) }
{
    let nodes = TableNodes::new(alloc, graph.len());
    let walk = BfsReachableBy::over(nodes, start, Neighbours::new(graph));
    Ok(BfsReachable { graph, start, walk })
}

/// The nodes in reach of a start by rising cost, each as a `Result`: made by `dijkstra_reach`.
#[derive(Drop)]
pub struct DijkstraReachable<'a, C: Cost, G: Graph<C>, A: Allocator = Global> {
    graph: &'a G,
    start: usize,
    walk: DijkstraReachableBy<TableNodes<A>, C, Neighbours<'a, C, G>, A>,
}

impl<'a, C: Cost, G: Graph<C>, A: Allocator> Model for DijkstraReachable<'a, C, G, A> {
    ghost use Rattle.std.specs.Prelude.{ℕ};
    ghost use Rattle.pf_search.specs.CheapestFirst.{CheapestWalk};
    ghost use Rattle.pf_table_searches.specs.TableWalks.{TableWalk, IsCheapestWalkInTable};

    ghost Value = { TableWalk G (CheapestWalk ℕ C G) };

    ghost view = { λ s. record { table = s.graph.now; start = s.start; walk = s.walk } };

    ghost invariant = { λ s. IsCheapestWalkInTable C.value G.size G.places (record { table = s.graph.now; start = s.start; walk = s.walk }) };
}

impl<'a, C, G, A> Iterator for DijkstraReachable<'a, C, G, A>
where
    C: Cost,
    G: Graph<C>,
    A: Allocator + Copy,
{
    type Item = Result<DijkstraReachableItem<usize, C>, PathError>;

    ghost next_gives = { CheapestStepInTable C.value G.size G.places C.fits };

    ghost remaining = { λ s. at_most (most_items (length s.walk.given) s.walk.refused) };

    fn next(&mut self) -> Option<Result<DijkstraReachableItem<usize, C>, PathError>> {
        self.walk.next()
    }
}

impl<'a, C, G, A> DijkstraReachable<'a, C, G, A>
where
    C: Cost,
    G: Graph<C>,
    A: Allocator + Copy,
{
    /// Lets the next call of `next` try again the step that was refused. Where no step was refused
    /// since the last call of `resume`, this changes nothing.
    pub fn resume(&mut self)
        ensures lowered { self.new ≡ record self.old { walk = record self.old.walk { refused = false } } }
        ensures graph { IsCheapestWalkInTable C.value G.size G.places self.new }
        ensures bar { IsBarredInTable C.value G.size G.places C.fits self.old → IsBarredInTable C.value G.size G.places C.fits self.new }
    {
        self.walk.resume();
    }
}

/// A walk over the nodes in reach of `start`, lazily, by rising cost: each node once, at the cost of a
/// cheapest path to it, with the node before it on such a path, which was given before.
///
/// In which order nodes of one cost come, and which of several parents is named, is open. A number that
/// is no node of the graph has no edges, so that from it the walk gives it alone. A `for` over a walk
/// ends, and the walk can be resumed behind it.
///
/// This call lays out a number for each node of the graph, and nothing is hashed.
///
/// # Errors
///
/// This call answers `OutOfMemory` where a request for memory was refused. A step is
///
/// - `Err(CostOverflow)` only where a cheapest path to a cheapest node that was not given and one step
///   more, by the cheapest of the parallel edges, cost more than `C` can hold;
/// - `Err(OutOfMemory)` where a request for memory was refused.
///
/// A refused step leaves what was found and given as it was; the walk then answers `None` until
/// `resume` is called, and tries the same step again. A step that was refused with `CostOverflow` is
/// refused again after each `resume`.
///
/// The algorithm is Dijkstra's (E. W. Dijkstra, "A note on two problems in connexion with graphs",
/// 1959), with a queue that is sorted only as far as it is read.
pub fn dijkstra_reach<'a, C, G, A>(
    alloc: A,
    graph: &'a G,
    start: usize,
) -> Result<DijkstraReachable<'a, C, G, A>, PathError>
where
    C: Cost,
    G: Graph<C>,
    A: Allocator + Copy,
    ensures begins { IfOk result (λ s. (s.table ≡ graph.now) × (s.start ≡ start) × (s.walk.given ≡ []) × (s.walk.refused ≡ false) × (s.walk.successors ≡ graph.now)) }
    ensures graph { IfOk result (IsCheapestWalkInTable C.value G.size G.places) }
    ensures refused { IfErr result (λ e. e ≡ PathError.OutOfMemory) }
{
    graph.known();
    let nodes = TableNodes::begin(alloc, graph.len(), start)?;
    let walk = DijkstraReachableBy::over(alloc, nodes, Neighbours::new(graph))?;
    Ok(DijkstraReachable { graph, start, walk })
}
