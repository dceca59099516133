//! What a discovery asks for the edges of a node.

ghost use Rattle.std.specs.Prelude.{◌≡◌, true, List, ℤ, map};
ghost use Rattle.pf_base.specs.Answers.{ListsEdges, Gives};
ghost use Rattle.pf_base.specs.Edges.{InReach};
ghost use Rattle.pf_core.specs.HopLaws.{unit_alike};
ghost use Rattle.pf_discovery.specs.Sources.{AnswersEdges, AnswersHops};

use pf_base::{Cost, EdgeFunction, SuccessorFunction};

/// A graph that is asked node by node, and whose answers say edges.
pub trait EdgeSource<N: Eq, C: Cost>: Drop {
    /// How an answer says an edge.
    type Item;

    /// What a node's edges are answered as.
    type Items: IntoIterator<Item = Self::Item>;

    // At each node in reach of these starts, now and after any calls, this may be asked and says the
    // edges of this graph, in order, up to node equality.
    ghost answers: { Self → List N → (N → List (N × ℤ)) → Type 0 };

    // The node that an edge leads to, and its cost.
    ghost edge: { Self.Item → N × C };

    /// The edges of a node.
    fn items(&mut self, node: &N) -> Self::Items
        requires within { (starts : List N) × (edges : N → List (N × ℤ)) × InReach N.eq edges starts node.now × answers self.old starts edges }
        ensures goes_on { (starts : List N) (edges : N → List (N × ℤ)) → InReach N.eq edges starts node.now → answers self.old starts edges → answers self.new starts edges }
        ensures listed { (starts : List N) (edges : N → List (N × ℤ)) → InReach N.eq edges starts node.now → answers self.old starts edges
            → Gives Self.Items.into_iter_gives Self.Items.IntoIter.can_next Self.Items.IntoIter.remaining Self.Items.IntoIter.next_gives (λ items. ListsEdges N.eq C.value (map edge items) (edges node.now)) result };

    /// The node that an edge leads to, and its cost.
    fn edge_of(item: Self::Item) -> (N, C)
        ensures { result ≡ edge item };

    // Equal nodes have the same edges.
    ghost alike_law: { (source : Self) (starts : List N) (edges : N → List (N × ℤ)) → answers source starts edges
        → (x y : N) → InReach N.eq edges starts x → N.eq x y ≡ true → ListsEdges N.eq (λ z. z) (edges x) (edges y) };
}

/// A function that lists edges, each as a node and a cost.
#[derive(Drop)]
pub struct Weighted<F> {
    pub function: F,
}

impl<N, C, F> EdgeSource<N, C> for Weighted<F>
where
    N: Eq,
    C: Cost,
    F: EdgeFunction<N, C>,
{
    type Item = (N, C);

    type Items = F::Edges;

    ghost answers = { AnswersEdges N.eq F.answers };

    ghost edge = { λ item. item };

    fn items(&mut self, node: &N) -> F::Edges {
        self.function.edges(node)
    }

    fn edge_of(item: (N, C)) -> (N, C) {
        item
    }

    ghost alike_law = { λ s starts edges a. F.alike_law s.function starts edges a };
}

/// A function that lists successors: each edge costs 1.
#[derive(Drop)]
pub struct Unweighted<F> {
    pub function: F,
}

impl<N, F> EdgeSource<N, u8> for Unweighted<F>
where
    N: Eq,
    F: SuccessorFunction<N>,
{
    type Item = N;

    type Items = F::Successors;

    ghost answers = { AnswersHops N.eq F.answers };

    ghost edge = { λ item. (item, 1) };

    fn items(&mut self, node: &N) -> F::Successors {
        self.function.successors(node)
    }

    fn edge_of(item: N) -> (N, u8) {
        (item, 1)
    }

    ghost alike_law = { λ s starts edges a. unit_alike N.eq starts edges a.0 a.1 (F.alike_law s.function starts a.0 a.2) };
}
