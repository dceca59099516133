//! Steps over numbered edges.

ghost use Rattle.std.proofs.Common.{refl};
ghost use Rattle.std.specs.Cmp.{partial_equiv_from_equiv, partial_order_from_total, eq_by_cmp_equiv};
ghost use Rattle.std.specs.Ordering.{as_partial_cmp, is_eq};
ghost use Rattle.std.specs.Prelude.{◌≡◌};
ghost use Rattle.pf_graph.specs.Internal.Spanning.Frontier.{edge_of, step_order, step_order_total};

use std::cmp::Ordering;

/// An edge from the end that a tree covers to the other. Such edges stand in the order of the fields.
#[derive(PartialEq, Eq, PartialOrd, Ord)]
#[derive_where(Clone, Copy)]
pub struct Taken<'a, N, C> {
    pub weight: &'a C,
    pub covered: &'a N,
    pub new: &'a N,
}

/// A step over an edge, as it is written or the other way round, to the end that has this number.
/// Many steps wait while a tree grows, so a step takes no more than 16 bytes.
#[derive_where(Clone, Copy)]
pub struct Step<'a, N, C> {
    pub edge: &'a (N, N, C),
    pub number: u32,
    pub onward: bool,
}

impl<'a, N, C> Step<'a, N, C> {
    /// The edge from the end that the step comes from to the end that it leads to.
    pub fn taken(&self) -> Taken<'a, N, C>
        ensures { (result.covered.now, result.new.now, result.weight.now) ≡ edge_of self.now }
    {
        let edge = self.edge;
        let (covered, new) = if self.onward {
            (&edge.0, &edge.1)
        } else {
            (&edge.1, &edge.0)
        };
        Taken {
            weight: &edge.2,
            covered,
            new,
        }
    }
}

impl<'a, N: Ord, C: Ord> PartialEq for Step<'a, N, C> {
    ghost eq = { λ s t. is_eq (step_order N.cmp C.cmp s t) };

    ghost laws = { partial_equiv_from_equiv (eq_by_cmp_equiv (step_order_total N.total C.total)) };

    fn eq(&self, other: &Self) -> bool {
        self.cmp(other).is_eq()
    }
}

impl<'a, N: Ord, C: Ord> Eq for Step<'a, N, C> {
    ghost laws = { eq_by_cmp_equiv (step_order_total N.total C.total) };
}

impl<'a, N: Ord, C: Ord> PartialOrd for Step<'a, N, C> {
    ghost partial_cmp = { as_partial_cmp (step_order N.cmp C.cmp) };

    ghost laws = { partial_order_from_total (step_order_total N.total C.total) };

    fn partial_cmp(&self, other: &Self) -> Option<Ordering> {
        Some(self.cmp(other))
    }
}

impl<'a, N: Ord, C: Ord> Ord for Step<'a, N, C> {
    ghost cmp = { step_order N.cmp C.cmp };

    ghost total = { step_order_total N.total C.total };

    ghost matches_partial_cmp = { λ s t. refl };

    ghost matches_eq = { λ s t. refl };

    fn cmp(&self, other: &Self) -> Ordering {
        self.taken().cmp(&other.taken())
    }
}
