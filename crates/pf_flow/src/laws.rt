//! Laws of flows and cuts.

ghost use Rattle.std.specs.Prelude.{◌≡◌, ◌≢◌, ◌<◌, ◌≤ℤ◌, ℕ, ℤ, Bool};
ghost use Rattle.pf_residual.specs.Flows.{PairTable, IsFeasibleFlow, IsCut, flow_value, cut_capacity};
ghost use Rattle.pf_residual.specs.Networks.{Network, HasSameCapacities, HasCutOfTotal, HasTotalOfFlow};

/// No flow is worth more than a cut: its value is at most the cut's capacity.
pub fn flow_is_within_cut()
    ensures { (n source sink : ℕ) (capacity f : PairTable) (side : ℕ → Bool) → source < n → IsFeasibleFlow n source sink capacity f → IsCut source sink side
        → flow_value n source f ≤ℤ cut_capacity n side capacity }
{}

/// Stores of the same vertices, ends and capacities report one total after `augment`: where source and
/// sink differ that of a least cut, which does not depend on the store, and else 0. Where they differ,
/// the two cuts are enough (`apart`); in any case the cuts and a part of `IsNetwork` are (`total`).
pub fn stores_report_one_total()
    ensures apart { (N M : Network) → HasSameCapacities N M → N.source ≢ N.sink → HasCutOfTotal N → HasCutOfTotal M → M.total ≡ N.total }
    ensures total { (N M : Network) → HasSameCapacities N M → HasTotalOfFlow N → HasTotalOfFlow M → HasCutOfTotal N → HasCutOfTotal M → M.total ≡ N.total }
{}
