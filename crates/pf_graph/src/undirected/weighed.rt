//! Edges in the order of their weights.

ghost use Rattle.std.proofs.Common.{rules};
ghost use Rattle.std.specs.Cmp.{partial_equiv_from_equiv, partial_order_from_own_ties};
ghost use Rattle.std.specs.Cmp.Rules.{comparing};
ghost use Rattle.std.specs.Ordering.{on, as_partial_cmp};
ghost use Rattle.std.proofs.lemmas.Cmp.{on_equiv, on_total};

use std::cmp::Ordering;

/// An edge that others own, and what it is weighed by. Edges of equal weight are equal, whatever
/// their ends. The weight stands here by value, so that a comparison follows no reference.
#[derive(Drop)]
pub struct Weighed<'a, N, C, W> {
    pub edge: &'a (N, N, C),
    pub weight: W,
}

impl<'a, N, C, W: Eq> PartialEq for Weighed<'a, N, C, W> {
    ghost eq = { λ x y. W.eq x.weight y.weight };

    ghost laws = { partial_equiv_from_equiv (on_equiv (λ x. x.weight) W.Eq.laws) };

    fn eq(&self, other: &Self) -> bool {
        self.weight == other.weight
    }
}

impl<'a, N, C, W: Eq> Eq for Weighed<'a, N, C, W> {
    ghost laws = { on_equiv (λ x. x.weight) W.Eq.laws };
}

impl<'a, N, C, W: Ord> PartialOrd for Weighed<'a, N, C, W> {
    ghost partial_cmp = { as_partial_cmp (λ x y. W.cmp x.weight y.weight) };

    ghost laws = { partial_order_from_own_ties (Prim.search (comparing, rules)) (Prim.search (comparing, rules)) };

    fn partial_cmp(&self, other: &Self) -> Option<Ordering> {
        Some(self.cmp(other))
    }
}

impl<'a, N, C, W: Ord> Ord for Weighed<'a, N, C, W> {
    ghost cmp = { λ x y. W.cmp x.weight y.weight };

    ghost total = { on_total (λ x. x.weight) W.Ord.total };

    ghost matches_partial_cmp = { Prim.search (comparing, rules) };

    ghost matches_eq = { λ x y. W.matches_eq x.weight y.weight };

    fn cmp(&self, other: &Self) -> Ordering {
        self.weight.cmp(&other.weight)
    }
}
