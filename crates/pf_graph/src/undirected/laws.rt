//! Laws of the definitions of undirected graphs, for proofs about programs that use them.
//!
//! A call adds its law to what the caller's proof knows. It does nothing when it runs.

ghost use Rattle.std.specs.Prelude.{◌≡◌, ◌≤ℤ◌, List};
ghost use Rattle.pf_graph.specs.GrownTree.{GrowsByLeast, IsLeastAround, AreChosenEitherWay};
ghost use Rattle.pf_graph.specs.Spanning.{IsForest, IsLeastUnderEveryBound, AreChosenFrom, JoinTheSame, weight_sum};

use pf_base::Cost;
use std::marker::PhantomData;

/// A forest that is least under every weight bound weighs at most as much as every forest of the
/// given edges that joins the same nodes.
///
/// So the edges of `kruskal` and `kruskal_indices` have least total weight, where the weights are
/// costs. Only forests are compared: where weights are below zero, a choice with cycles could weigh
/// less.
pub fn least_total_weight<N: Eq, C: Cost>(_of: PhantomData<(N, C)>)
    ensures { (edges chosen other : List (N × N × C))
        → IsForest N.eq chosen → IsLeastUnderEveryBound N.eq C.cmp edges chosen
        → IsForest N.eq other → AreChosenFrom (λ w u. u ≡ w) edges other
        → JoinTheSame N.eq chosen other
        → weight_sum C.value chosen ≤ℤ weight_sum C.value other }
{}

/// A tree that is grown from a start by the least edge that leaves it, as `prim` grows it, weighs at
/// most as much as every forest of the given edges that joins the same nodes.
///
/// Only forests are compared, as in `least_total_weight`.
pub fn least_tree_weight<N: Eq + Ord, C: Cost>(_of: PhantomData<(N, C)>)
    ensures { (edges tree other : List (N × N × C)) (start : N)
        → GrowsByLeast N.eq N.cmp C.cmp edges start tree → IsForest N.eq tree
        → IsLeastAround N.eq C.cmp edges start tree → AreChosenEitherWay C.is_clone edges tree
        → IsForest N.eq other → AreChosenFrom (λ w u. u ≡ w) edges other
        → JoinTheSame N.eq tree other
        → weight_sum C.value tree ≤ℤ weight_sum C.value other }
{}
