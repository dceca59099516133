//! Paths that wait to be given, in the order of their costs.

ghost use Rattle.std.specs.Prelude.{refl};
ghost use Rattle.std.specs.Cmp.{partial_equiv_from_equiv, po, back_equiv, back_total, on_equiv, on_total};
ghost use Rattle.std.specs.Ordering.{as_partial_cmp};

use pf_base::Cost;
use std::alloc::Allocator;
use std::cmp::Ordering;

/// A cheapest path of its class: of the clean paths that begin with the same numbers, up to the place
/// `spur`, and do not go on to a banned number. Candidates of one cost are equal, whatever their paths.
#[derive(Drop)]
pub struct Candidate<C: Cost, A: Allocator> {
    pub path: Vec<usize, A>,
    pub cost: C,
    pub spur: usize,
    pub banned: Vec<usize, A>,
}

// The order is that of the costs turned round, so that a heap has the cheapest candidate first.

impl<C: Cost, A: Allocator> PartialEq for Candidate<C, A> {
    ghost eq = { λ x y. C.eq y.cost x.cost };

    ghost laws = { partial_equiv_from_equiv (back_equiv (on_equiv (λ x. x.cost) C.Eq.laws)) };

    fn eq(&self, other: &Self) -> bool {
        other.cost == self.cost
    }
}

impl<C: Cost, A: Allocator> Eq for Candidate<C, A> {
    ghost laws = { back_equiv (on_equiv (λ x. x.cost) C.Eq.laws) };
}

impl<C: Cost, A: Allocator> PartialOrd for Candidate<C, A> {
    ghost partial_cmp = { as_partial_cmp (λ x y. C.cmp y.cost x.cost) };

    ghost laws = { po (back_total (on_total (λ x. x.cost) C.Ord.total)) (λ x y. C.matches_eq y.cost x.cost) };

    fn partial_cmp(&self, other: &Self) -> Option<Ordering> {
        Some(self.cmp(other))
    }
}

impl<C: Cost, A: Allocator> Ord for Candidate<C, A> {
    ghost cmp = { λ x y. C.cmp y.cost x.cost };

    ghost total = { back_total (on_total (λ x. x.cost) C.Ord.total) };

    ghost matches_partial_cmp = { λ x y. refl };

    ghost matches_eq = { λ x y. C.matches_eq y.cost x.cost };

    fn cmp(&self, other: &Self) -> Ordering {
        other.cost.cmp(&self.cost)
    }
}
