//! Callers of `kruskal_indices` and `prim` with contracts of their own.

ghost use Rattle.std.specs.Prelude.{◌≡◌, ◌≤ℤ◌, ℕ, pos, List, IfOk, map, nat_eq};
ghost use Rattle.std.specs.Ordering.{nat_cmp};
ghost use Rattle.pf_graph.specs.GrownTree.{StartsAt};
ghost use Rattle.pf_graph.specs.EdgesByReference.{shown};
ghost use Rattle.pf_graph.specs.Spanning.{IsForest, IsLeastUnderEveryBound, AreChosenFrom, JoinTheSame, weight_sum};

use pf_base::PathError;
use pf_graph::undirected::kruskal::kruskal_indices;
use pf_graph::undirected::laws::least_tree_weight;
use pf_graph::undirected::prim::prim;
use std::alloc::Allocator;
use std::marker::PhantomData;

/// The cables that connect all houses that can be connected, for the least price.
pub fn cables<A>(
    alloc: A,
    houses: usize,
    offers: &[(usize, usize, u64)],
) -> Result<Vec<(usize, usize, u64), A>, PathError>
where
    A: Allocator + Copy,
    ensures forest { IfOk result (λ chosen. IsForest nat_eq chosen.items) }
    ensures least { IfOk result (λ chosen. IsLeastUnderEveryBound nat_eq nat_cmp offers.now chosen.items) }
{
    let cables = kruskal_indices(alloc, houses, offers)?;
    let chosen: Vec<(usize, usize, u64), A> = cables.collect(alloc)?;
    Ok(chosen)
}

/// The pipes of a network that grows from its source, the first house of the first offer. No other
/// choice of offers without a cycle that connects the same houses costs less.
pub fn pipes<'a, A>(
    alloc: A,
    offers: &'a [(usize, usize, u64)],
) -> Result<Vec<(&'a usize, &'a usize, u64), A>, PathError>
where
    A: Allocator + Copy,
    ensures cheapest { IfOk result (λ tree. (source : ℕ) (other : List (ℕ × ℕ × ℕ)) → StartsAt offers.now source
        → IsForest nat_eq other → AreChosenFrom (λ w u. u ≡ w) offers.now other → JoinTheSame nat_eq (map shown tree.items) other
        → weight_sum pos (map shown tree.items) ≤ℤ weight_sum pos other) }
{
    least_tree_weight::<usize, u64>(PhantomData);
    prim(alloc, offers)
}
