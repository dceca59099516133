//! Augmenting paths in the levels of vertices, found by depth first over current arcs.

ghost use Rattle.std.specs.Prelude.{◌≡◌, ◌<◌, ◌<ℤ◌, pos, true, length, slice_index, IfSome};
ghost use Rattle.pf_residual.specs.Networks.{Network};
ghost use Rattle.pf_residual.specs.Internal.CurrentArcs.{AreArcs, IsPartialPath, IsSinkPath, work_of};

use crate::current_arcs::CurrentArcs;
use crate::store::FlowStore;
use pf_base::SignedCost;
use pf_base::cost::arithmetic::is_below;
use std::alloc::Allocator;

/// Is an arc admissible: has it residual capacity, and does it lead to a vertex of this level, and to
/// the sink where the sink is of this level?
fn is_admissible<C, S>(
    store: &S,
    levels: &[usize],
    from: usize,
    arc: (usize, usize),
    level: usize,
) -> bool
where
    C: SignedCost,
    S: FlowStore<C>,
    requires levels_len { length levels.now ≡ (S.network store.now).vertices }
    requires from { from < (S.network store.now).vertices }
    requires to { arc.0 < (S.network store.now).vertices }
    ensures level { result ≡ true → slice_index levels.now arc.0 ≡ level }
    ensures last { result ≡ true → level ≡ slice_index levels.now (S.network store.now).sink → arc.0 ≡ (S.network store.now).sink }
    ensures left { result ≡ true → pos 0 <ℤ (S.network store.now).residual from arc.0 }
{
    let (to, place) = arc;
    let sink = store.sink();
    if levels[to] != level {
        return false;
    }
    if level == levels[sink] && to != sink {
        return false;
    }
    is_below(C::zero(), store.residual_capacity_near(from, to, place))
}

/// Advances over the current arc of the vertex at this depth of the path where it is admissible, and
/// else retires it; where the vertex has no arc left, retreats, and retires the arc that led there.
/// Answered is the depth after that, and nothing where the search is over.
fn advance_or_retreat<C, S, A>(
    store: &S,
    levels: &[usize],
    arcs: &mut CurrentArcs<A>,
    path: &mut [usize],
    places: &mut [usize],
    depth: usize,
) -> Option<usize>
where
    C: SignedCost,
    S: FlowStore<C>,
    A: Allocator + Copy,
    requires partial { IsPartialPath (S.network store.now) levels.now arcs.old.targets.items arcs.old.places.items arcs.old.ends.items path.old depth }
    requires below { depth < slice_index levels.now (S.network store.now).sink }
    requires places_len { length places.old ≡ (S.network store.now).vertices }
    ensures partial { IfSome result (IsPartialPath (S.network store.now) levels.now arcs.new.targets.items arcs.new.places.items arcs.new.ends.items path.new) }
    ensures less { IfSome result (λ after. work_of (S.network store.now) levels.now arcs.new after < work_of (S.network store.now) levels.now arcs.old depth) }
    ensures arcs { AreArcs (S.network store.now).vertices arcs.new.targets.items arcs.new.places.items arcs.new.ends.items }
{
    let from = path[depth];
    if let Some(arc) = arcs.current_arc(from) {
        if is_admissible(store, levels, from, arc, depth + 1) {
            (path[depth + 1], places[depth + 1]) = arc;
            return Some(depth + 1);
        }
        arcs.retire_arc(from);
        return Some(depth);
    }
    if depth == 0 {
        return None;
    }
    arcs.retire_arc(path[depth - 1]);
    Some(depth - 1)
}

/// Is there an augmenting path over arcs that are left? It is written to the path, each vertex at the
/// place of its level, and at the same place the number by which the store finds the arc to it.
pub fn find_augmenting_path<C, S, A>(
    store: &S,
    levels: &[usize],
    arcs: &mut CurrentArcs<A>,
    path: &mut [usize],
    places: &mut [usize],
) -> bool
where
    C: SignedCost,
    S: FlowStore<C>,
    A: Allocator + Copy,
    requires start { slice_index levels.now (S.network store.now).source ≡ 0 }
    requires above { 0 < slice_index levels.now (S.network store.now).sink }
    requires reached { slice_index levels.now (S.network store.now).sink < (S.network store.now).vertices }
    requires levels_len { length levels.now ≡ (S.network store.now).vertices }
    requires path_len { length path.old ≡ (S.network store.now).vertices }
    requires places_len { length places.old ≡ (S.network store.now).vertices }
    requires arcs { AreArcs (S.network store.now).vertices arcs.old.targets.items arcs.old.places.items arcs.old.ends.items }
    ensures admissible { result ≡ true → IsSinkPath (S.network store.now) (slice_index levels.now) path.new }
    ensures arcs { AreArcs (S.network store.now).vertices arcs.new.targets.items arcs.new.places.items arcs.new.ends.items }
{
    let top = levels[store.sink()];
    path[0] = store.source();
    let mut depth = 0;
    'moves: while depth < top {
        let Some(after) = advance_or_retreat(store, levels, arcs, path, places, depth) else {
            return false;
        };
        depth = after;
    }
    true
}
