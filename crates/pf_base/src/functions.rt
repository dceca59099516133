//! The functions that are handed in: what is asked of them, and what their answers say of a graph.

ghost use Rattle.std.specs.Prelude.{◌≡◌, List, ℤ, Bool, true};
ghost use Rattle.pf_base.specs.Answers.{AnswersGraph, AnswersSuccessors, AnswersTest, ListsEdges, SameNodes, Gives};
ghost use Rattle.pf_base.specs.Edges.{InReach};
ghost use Rattle.pf_base.specs.Regions.{Region, IsIn};
ghost use Rattle.pf_base.specs.Successors.{HasSuccessor};
ghost use Rattle.pf_base.specs.Walks.{IsReachable};

use crate::cost::Cost;

/// A graph that is asked for the edges of a node, each a node and a cost. Every function from a node to
/// its edges is one.
pub trait EdgeFunction<N: Eq, C: Cost>: Drop {
    /// What the edges of a node are answered as.
    type Edges: IntoIterator<Item = (N, C)>;

    // At each node of the given sort, now and after any calls, this may be asked and lists the edges of
    // this graph, in order, up to node equality. Equal nodes have the same edges.
    ghost answers: { Self → (N → Type 0) → (N → List (N × ℤ)) → Type 0 };

    /// The edges of a node.
    fn edges(&mut self, node: &N) -> Self::Edges
        requires within { (starts : List N) × (edges : N → List (N × ℤ)) × InReach N.eq edges starts node.now × answers self.old (InReach N.eq edges starts) edges }
        ensures goes_on { (starts : List N) (edges : N → List (N × ℤ)) → InReach N.eq edges starts node.now
            → answers self.old (InReach N.eq edges starts) edges → answers self.new (InReach N.eq edges starts) edges }
        ensures listed { (starts : List N) (edges : N → List (N × ℤ)) → InReach N.eq edges starts node.now → answers self.old (InReach N.eq edges starts) edges
            → Gives Self.Edges.into_iter_gives Self.Edges.IntoIter.can_next Self.Edges.IntoIter.remaining Self.Edges.IntoIter.next_gives (λ xs. ListsEdges N.eq C.value xs (edges node.now)) result };

    // Equal nodes have the same edges.
    ghost alike_law: { (f : Self) (starts : List N) (edges : N → List (N × ℤ)) → answers f (InReach N.eq edges starts) edges
        → (x y : N) → InReach N.eq edges starts x → N.eq x y ≡ true → ListsEdges N.eq (λ z. z) (edges x) (edges y) };
}

impl<N, C, IN, FN> EdgeFunction<N, C> for FN
where
    N: Eq,
    C: Cost,
    IN: IntoIterator<Item = (N, C)>,
    FN: FnMut(&N) -> IN,
{
    type Edges = IN;

    ghost answers = { AnswersGraph FN.FnMut IN.into_iter_gives IN.IntoIter.can_next IN.IntoIter.remaining IN.IntoIter.next_gives N.eq C.value };

    fn edges(&mut self, node: &N) -> IN {
        self(node)
    }

    ghost alike_law = { λ f starts edges a. a.alike };
}

/// A graph that is asked for the nodes that follow a node. Every function from a node to its successors
/// is one.
pub trait SuccessorFunction<N: Eq>: Drop {
    /// What the successors of a node are answered as.
    type Successors: IntoIterator<Item = N>;

    // At each node of the given sort, now and after any calls, this may be asked and lists the
    // successors of this graph, in order, up to node equality. Equal nodes have the same ones.
    ghost answers: { Self → (N → Type 0) → (N → List N) → Type 0 };

    /// The nodes that follow a node.
    fn successors(&mut self, node: &N) -> Self::Successors
        requires within { (starts : List N) × (next : N → List N) × IsReachable N.eq (HasSuccessor N.eq next) starts node.now × answers self.old (IsReachable N.eq (HasSuccessor N.eq next) starts) next }
        ensures goes_on { (starts : List N) (next : N → List N) → IsReachable N.eq (HasSuccessor N.eq next) starts node.now
            → answers self.old (IsReachable N.eq (HasSuccessor N.eq next) starts) next → answers self.new (IsReachable N.eq (HasSuccessor N.eq next) starts) next }
        ensures listed { (starts : List N) (next : N → List N) → IsReachable N.eq (HasSuccessor N.eq next) starts node.now → answers self.old (IsReachable N.eq (HasSuccessor N.eq next) starts) next
            → Gives Self.Successors.into_iter_gives Self.Successors.IntoIter.can_next Self.Successors.IntoIter.remaining Self.Successors.IntoIter.next_gives (λ xs. SameNodes N.eq xs (next node.now)) result };

    // Equal nodes have the same successors.
    ghost alike_law: { (f : Self) (starts : List N) (next : N → List N) → answers f (IsReachable N.eq (HasSuccessor N.eq next) starts) next
        → (x y : N) → IsReachable N.eq (HasSuccessor N.eq next) starts x → N.eq x y ≡ true → SameNodes N.eq (next x) (next y) };
}

impl<N, IN, FN> SuccessorFunction<N> for FN
where
    N: Eq,
    IN: IntoIterator<Item = N>,
    FN: FnMut(&N) -> IN,
{
    type Successors = IN;

    ghost answers = { AnswersSuccessors FN.FnMut IN.into_iter_gives IN.IntoIter.can_next IN.IntoIter.remaining IN.IntoIter.next_gives N.eq };

    fn successors(&mut self, node: &N) -> IN {
        self(node)
    }

    ghost alike_law = { λ f starts next a. a.alike };
}

/// A test of a node. Every function from a node to a truth value is one.
pub trait NodeTest<N: Eq>: Drop {
    // At each node of the given sort, now and after any calls, this may be asked and answers this test.
    // Equal nodes have the same answer.
    ghost answers: { Self → (N → Type 0) → (N → Bool) → Type 0 };

    /// Whether the node passes the test.
    fn passes(&mut self, node: &N) -> bool
        requires within { (region : Region N) × (test : N → Bool) × IsIn N.eq region node.now × answers self.old (IsIn N.eq region) test }
        ensures goes_on { (region : Region N) (test : N → Bool) → IsIn N.eq region node.now → answers self.old (IsIn N.eq region) test → answers self.new (IsIn N.eq region) test }
        ensures passed { (region : Region N) (test : N → Bool) → IsIn N.eq region node.now → answers self.old (IsIn N.eq region) test → result ≡ test node.now };

    // Equal nodes have the same answer.
    ghost alike_law: { (f : Self) (region : Region N) (test : N → Bool) → answers f (IsIn N.eq region) test
        → (x y : N) → IsIn N.eq region x → N.eq x y ≡ true → test x ≡ test y };
}

impl<N, FS> NodeTest<N> for FS
where
    N: Eq,
    FS: FnMut(&N) -> bool,
{
    ghost answers = { AnswersTest FS.FnMut N.eq };

    fn passes(&mut self, node: &N) -> bool {
        self(node)
    }

    ghost alike_law = { λ f region test a. a.alike };
}
