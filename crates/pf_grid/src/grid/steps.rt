//! Steps from one vertex to another beside it.

ghost use Rattle.std.specs.Prelude.{◌≡◌, ◌+◌, ◌<◌, ◌≤◌, ◌^◌, [], ◌∷◌, length, drop, MatchOption};
ghost use Rattle.std.specs.List.{filter_map};
ghost use Rattle.pf_grid.specs.GridPositions.{IsInside};
ghost use Rattle.pf_grid.specs.Steps.{shifted, target};

use crate::grid::Grid;
use pf_base::shift::Shift;
use std::alloc::Allocator;

/// The steps to all sides, in the order of `neighbours`.
pub(crate) const AROUND: [(Shift, Shift); 8] = [
    (Shift::Before, Shift::Same),
    (Shift::Before, Shift::Before),
    (Shift::Before, Shift::After),
    (Shift::After, Shift::Same),
    (Shift::After, Shift::Before),
    (Shift::After, Shift::After),
    (Shift::Same, Shift::Before),
    (Shift::Same, Shift::After),
];

/// The steps to one side of each pair, in the order of `edges`.
pub(crate) const FORWARD: [(Shift, Shift); 4] = [
    (Shift::After, Shift::Same),
    (Shift::Same, Shift::After),
    (Shift::After, Shift::After),
    (Shift::Before, Shift::After),
];

impl<A: Allocator> Grid<A> {
    /// The vertex that a step from a position inside leads to, if there is one.
    pub(crate) fn target(&self, from: (usize, usize), to: (Shift, Shift)) -> Option<(usize, usize)>
        requires { IsInside self.now from }
        ensures { result ≡ target self.now from to }
    {
        if !self.diagonal && to.0 != Shift::Same && to.1 != Shift::Same {
            return None;
        }
        let x = shifted(from.0, to.0)?;
        let y = shifted(from.1, to.1)?;
        if self.has_vertex((x, y)) {
            Some((x, y))
        } else {
            None
        }
    }
}

/// The next vertex that one of these steps leads to, and the step after it.
pub(crate) fn next_step<A: Allocator>(
    grid: &Grid<A>,
    from: (usize, usize),
    ways: &[(Shift, Shift)],
    next: &mut usize,
) -> Option<(usize, usize)>
    requires steps { next.old ≤ length ways.now }
    requires inside { next.old < length ways.now → IsInside grid.now from }
    ensures steps { next.new ≤ length ways.now }
    ensures inside { next.new < length ways.now → IsInside grid.now from }
    ensures step { MatchOption result
        ((filter_map (target grid.now from) (drop next.old ways.now) ≡ []) × (next.new ≡ length ways.now))
        (λ q. filter_map (target grid.now from) (drop next.old ways.now) ≡ q ∷ filter_map (target grid.now from) (drop next.new ways.now)) }
{
    while *next < ways.len() {
        let to = ways[*next];
        *next += 1;
        if let Some(end) = grid.target(from, to) {
            return Some(end);
        }
    }
    None
}

/// The coordinate that a step leads to, if there is one.
fn shifted(at: usize, to: Shift) -> Option<usize>
    requires { at + 1 < 2 ^ 64 }
    ensures { result ≡ shifted at to }
{
    match to {
        Shift::Before => at.checked_sub(1),
        Shift::Same => Some(at),
        Shift::After => Some(at + 1),
    }
}
