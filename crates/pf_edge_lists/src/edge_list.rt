//! Graphs as lists of edges between names.

ghost use Rattle.std.specs.Prelude.{◌≡◌, ◌<◌, ◌≤◌, ℕ, [], Some, IfOk, IfErr, All, Contains, MatchOption, length, slice_get};
ghost use Rattle.std.specs.List.{AllZip};
ghost use Rattle.pf_base.specs.Walks.{HasNode, NoRepeats};
ghost use Rattle.pf_base.specs.NodeRefs.{HasSameNodes, nodes_of};
ghost use Rattle.pf_core.specs.Nodes.{StandsFor};
ghost use Rattle.pf_tables.specs.Graphs.{IsGraph};
ghost use Rattle.pf_edge_lists.specs.EdgeLists.{AreNumbered, CostsFromZeroTo, HasEdgesByName, IsFirstNegative, IsEdgeListFault, mentions_of, names_of, places_of};

use crate::error::EdgeListError;
use crate::names::{Names, are_below, lay_out_by_name, names_at};
use indexmap::IndexSet;
use pf_adjacency::AdjacencyList;
use pf_base::cost::arithmetic::is_negative;
use pf_base::{Cost, PathError};
use pf_tables::Graph;
use std::alloc::{Allocator, Global};
use std::hash::Hash;
use std::marker::Model;

/// A graph of edges (from, to, cost) between names, in a list that is lent.
///
/// The nodes stand for the names: first those that are given by themselves, in their order, and then
/// those of the edges, in the order in which they are first met: of an edge the name that it comes
/// from, and then the one that it leads to. Names that are equal are one node. The edges from a node
/// are those of the list whose first name is its name, in the order of the list; parallel edges and
/// loops stay. A contract sees the names that are given by themselves, and the list of the edges.
#[derive(Drop)]
pub struct EdgeList<'e, N: Eq + Hash, C: Cost, A: Allocator = Global> {
    given: &'e [N],
    edges: &'e [(N, N, C)],
    names: Names<'e, N, A>,
    rows: AdjacencyList<C, A>,
}

impl<'e, N: Eq + Hash, C: Cost, A: Allocator> Model for EdgeList<'e, N, C, A> {
    ghost use Rattle.pf_base.specs.NodeRefs.{nodes_of};
    ghost use Rattle.pf_edge_lists.specs.EdgeLists.{NamesAndEdges};
    ghost use Rattle.pf_edge_lists.specs.Internal.Layouts.{IsLaidOutByName};

    ghost Value = { NamesAndEdges N C };

    ghost view = { λ s. record { names = s.given.now; edges = s.edges.now } };

    ghost invariant = { λ s. IsLaidOutByName N.eq (record { names = s.given.now; edges = s.edges.now }) (nodes_of s.names.keys) s.rows };
}

/// The first edge that costs less than 0.
fn negative_edge<N, C: Cost>(edges: &[(N, N, C)]) -> Option<usize>
    ensures { MatchOption result
        (CostsFromZeroTo C.value edges.now (length edges.now))
        (IsFirstNegative C.value edges.now) }
{
    for (number, edge) in edges.iter().enumerate() {
        if is_negative(edge.2) {
            return Some(number);
        }
    }
    None
}

impl<'e, N: Eq + Hash, C: Cost, A: Allocator + Copy> EdgeList<'e, N, C, A> {
    /// The graph of these edges. Memory and time are linear in the number of edges: the names are
    /// numbered by a hash table, with one look-up for each end of an edge, and the edges are laid out
    /// by a counting sort of the numbers that they come from (H. H. Seward, 1954).
    ///
    /// # Errors
    ///
    /// - `NegativeCost`: an edge costs less than 0. The error has the number of the first such edge.
    /// - `OutOfMemory`: a request for memory was refused, and no edge costs less than 0.
    pub fn new(alloc: A, edges: &'e [(N, N, C)]) -> Result<Self, EdgeListError>
        ensures edges { IfOk result (λ list. list ≡ record { names = []; edges = edges.now }) }
        ensures names { IfOk result (λ list. HasSameNodes N.eq (names_of N.eq list) (mentions_of list)) }
        ensures apart { IfOk result (λ list. NoRepeats N.eq (names_of N.eq list)) }
        ensures numbered { IfOk result (AreNumbered N.eq) }
        ensures places { IfOk result (HasEdgesByName N.eq) }
        ensures sound { IfOk result (λ list. IsGraph C.value (length (names_of N.eq list)) (places_of N.eq list)) }
        ensures fault { IfErr result (IsEdgeListFault C.value edges.now) }
    {
        Self::with_names(alloc, &[], edges)
    }

    /// The graph of these names and edges: a name that stands in no edge is a node without edges. The
    /// given names are numbered first, in their order. Memory and time are linear in the number of
    /// names and edges.
    ///
    /// # Errors
    ///
    /// Those of `new`.
    pub fn with_names(
        alloc: A,
        names: &'e [N],
        edges: &'e [(N, N, C)],
    ) -> Result<Self, EdgeListError>
        ensures edges { IfOk result (λ list. list ≡ record { names = names.now; edges = edges.now }) }
        ensures names { IfOk result (λ list. HasSameNodes N.eq (names_of N.eq list) (mentions_of list)) }
        ensures apart { IfOk result (λ list. NoRepeats N.eq (names_of N.eq list)) }
        ensures numbered { IfOk result (AreNumbered N.eq) }
        ensures places { IfOk result (HasEdgesByName N.eq) }
        ensures sound { IfOk result (λ list. IsGraph C.value (length (names_of N.eq list)) (places_of N.eq list)) }
        ensures fault { IfErr result (IsEdgeListFault C.value edges.now) }
    {
        if let Some(edge) = negative_edge(edges) {
            return Err(EdgeListError::NegativeCost { edge });
        }
        let mut numbers = IndexSet::new(alloc);
        let rows = lay_out_by_name(alloc, &mut numbers, names, edges)?;
        Ok(EdgeList {
            given: names,
            edges,
            names: numbers,
            rows,
        })
    }
}

impl<'e, N: Eq + Hash, C: Cost, A: Allocator> EdgeList<'e, N, C, A> {
    /// The number of names, which are the nodes.
    pub fn len(&self) -> usize
        ensures { result ≡ length (names_of N.eq self.now) }
    {
        self.names.len()
    }

    /// The node of a name; nothing where the list has no name that equals it.
    pub fn number_of(&self, name: &N) -> Option<usize>
        ensures { MatchOption result
            (¬ (HasNode N.eq (names_of N.eq self.now) name.now))
            (λ node. StandsFor N.eq (names_of N.eq self.now) node name.now) }
    {
        self.names.get_index_of(&name)
    }

    /// The name of a node, as it is where it was first met, or `None` exactly where the list has no
    /// such node.
    pub fn name_of(&self, node: usize) -> Option<&'e N>
        ensures { MatchOption result
            (length (names_of N.eq self.now) ≤ node)
            (λ name. slice_get (names_of N.eq self.now) node ≡ Some name.now) }
    {
        self.names.get_index(node).copied()
    }

    /// The names of these nodes, in their order, or `None` exactly where one of the numbers is no node.
    pub fn names_of<B: Allocator + Copy>(
        &self,
        alloc: B,
        nodes: &[usize],
    ) -> Result<Option<Vec<&'e N, B>>, PathError>
        ensures names { IfOk result (λ answer. MatchOption answer
            (¬ (All (λ node. node < length (names_of N.eq self.now)) nodes.now))
            (λ names. AllZip (λ node name. slice_get (names_of N.eq self.now) node ≡ Some name) nodes.now (nodes_of names.items))) }
        ensures refused { IfErr result (λ e. e ≡ PathError.OutOfMemory) }
    {
        if !are_below(self.names.len(), nodes) {
            return Ok(None);
        }
        let names = self.names_along(alloc, nodes)?;
        Ok(Some(names))
    }

    /// The names of the nodes of a path, in their order.
    pub(crate) fn names_along<B: Allocator + Copy>(
        &self,
        alloc: B,
        path: &[usize],
    ) -> Result<Vec<&'e N, B>, PathError>
        requires { (k : ℕ) → Contains path.now k → k < length (names_of N.eq self.now) }
        ensures names { IfOk result (λ names. AllZip (λ node name. slice_get (names_of N.eq self.now) node ≡ Some name) path.now (nodes_of names.items)) }
        ensures refused { IfErr result (λ e. e ≡ PathError.OutOfMemory) }
    {
        names_at(alloc, self.names.as_slice(), path)
    }
}

impl<'e, N: Eq + Hash, C: Cost, A: Allocator> Graph<C> for EdgeList<'e, N, C, A> {
    ghost size = { λ list. length (names_of N.eq list) };

    ghost places = { places_of N.eq };

    fn len(&self) -> usize {
        self.names.len()
    }

    fn places(&self, node: usize) -> usize {
        self.rows.places(node)
    }

    fn edge(&self, node: usize, place: usize) -> Option<(usize, C)> {
        self.rows.edge(node, place)
    }

    fn known(&self) {
        self.rows.known();
    }
}
