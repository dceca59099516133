//! The functions that estimate: what is asked of them, and what their answers say.

ghost use Rattle.std.specs.Prelude.{◌≡◌, List, ℤ, true};
ghost use Rattle.pf_base.specs.Edges.{InReach};
ghost use Rattle.pf_informed.specs.Estimates.{AnswersEstimate};

use pf_base::Cost;

/// An estimate of the cost from a node on. Every function from a node to a cost is one.
pub trait EstimateFunction<N: Eq, C: Cost>: Drop {
    // At each node of the given sort, now and after any calls, this may be asked and answers this
    // estimate. Equal nodes have the same estimate.
    ghost answers: { Self → (N → Type 0) → (N → ℤ) → Type 0 };

    /// The estimate of the cost from the node on.
    fn estimate(&mut self, node: &N) -> C
        requires within { (starts : List N) × (edges : N → List (N × ℤ)) × (estimate : N → ℤ) × InReach N.eq edges starts node.now × answers self.old (InReach N.eq edges starts) estimate }
        ensures goes_on { (starts : List N) (edges : N → List (N × ℤ)) (estimate : N → ℤ) → InReach N.eq edges starts node.now
            → answers self.old (InReach N.eq edges starts) estimate → answers self.new (InReach N.eq edges starts) estimate }
        ensures estimated { (starts : List N) (edges : N → List (N × ℤ)) (estimate : N → ℤ) → InReach N.eq edges starts node.now
            → answers self.old (InReach N.eq edges starts) estimate → C.value result ≡ estimate node.now };

    // Equal nodes have the same estimate.
    ghost alike_law: { (f : Self) (starts : List N) (edges : N → List (N × ℤ)) (estimate : N → ℤ) → answers f (InReach N.eq edges starts) estimate
        → (x y : N) → InReach N.eq edges starts x → N.eq x y ≡ true → estimate x ≡ estimate y };
}

impl<N, C, FH> EstimateFunction<N, C> for FH
where
    N: Eq,
    C: Cost,
    FH: FnMut(&N) -> C,
{
    ghost answers = { AnswersEstimate FH.FnMut N.eq C.value };

    fn estimate(&mut self, node: &N) -> C {
        self(node)
    }

    ghost alike_law = { λ f starts edges estimate a. a.alike };
}
