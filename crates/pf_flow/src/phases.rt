//! Phases of shortest augmenting paths.

ghost use Rattle.std.specs.Prelude.{◌≡◌, ◌≢◌, ◌<◌, length, slice_index};
ghost use Rattle.pf_residual.specs.Networks.{Network, IsNetwork};
ghost use Rattle.pf_residual.specs.Internal.AugmentingPaths.{IsLabelling};
ghost use Rattle.pf_residual.specs.Internal.CurrentArcs.{IsSinkPath};
ghost use Rattle.pf_flow.specs.Internal.Phases.{HoldsLevels, IsAugmented};

use crate::levels::Levels;
use pf_base::{SignedCost, Tally};
use pf_residual::level_paths::find_augmenting_path;
use pf_residual::paths::add_along;
use pf_residual::store::FlowStore;
use std::alloc::Allocator;

/// Adds as much flow along a path to the sink as its pairs have left, with a tick. The levels stay
/// levels, and their potential rises by as much.
fn augment_path<C, S>(
    store: &mut S,
    levels: &[usize],
    path: &[usize],
    places: &[usize],
    tally: &mut Tally,
)
where
    C: SignedCost,
    S: FlowStore<C>,
    requires network { IsNetwork C.fits (S.network store.old) }
    requires apart { (S.network store.old).source ≢ (S.network store.old).sink }
    requires admissible { IsSinkPath (S.network store.old) (slice_index levels.now) path.now }
    requires labelling { IsLabelling (S.network store.old).vertices (S.network store.old).source (S.network store.old).residual (slice_index levels.now) }
    requires levels_len { length levels.now ≡ (S.network store.old).vertices }
    requires path_len { length path.now ≡ (S.network store.old).vertices }
    requires places_len { length places.now ≡ (S.network store.old).vertices }
    requires reached { slice_index levels.now (S.network store.old).sink < (S.network store.old).vertices }
    ensures network { IsNetwork C.fits (S.network store.new) }
    ensures augmented { IsAugmented (slice_index levels.now) (S.network store.old) (S.network store.new) tally.old tally.new }
{
    let depth = levels[store.sink()];
    add_along(store, &path[..depth + 1], &places[..depth + 1]);
    tally.tick();
}

/// Adds flow along paths that go up by a level with each pair, with a tick for each of them, which the
/// potential of the levels rises by: along the one by which the sink was reached, and then along all
/// that are found over arcs that are left.
pub fn augment_phase<C, S, A>(
    store: &mut S,
    found: &mut Levels<A>,
    path: &mut [usize],
    places: &mut [usize],
    tally: &mut Tally,
)
where
    C: SignedCost,
    S: FlowStore<C>,
    A: Allocator + Copy,
    requires network { IsNetwork C.fits (S.network store.old) }
    requires apart { (S.network store.old).source ≢ (S.network store.old).sink }
    requires found { HoldsLevels (S.network store.old) found.old }
    requires reached { slice_index found.old.levels.items (S.network store.old).sink < (S.network store.old).vertices }
    requires path_len { length path.old ≡ (S.network store.old).vertices }
    requires places_len { length places.old ≡ (S.network store.old).vertices }
    ensures network { IsNetwork C.fits (S.network store.new) }
    ensures augmented { IsAugmented (slice_index found.old.levels.items) (S.network store.old) (S.network store.new) tally.old tally.new }
{
    found.write_path(path, store.sink());
    augment_path(store, &found.levels, path, places, tally);
    'paths: while find_augmenting_path(store, &found.levels, &mut found.arcs, path, places) {
        augment_path(store, &found.levels, path, places, tally);
    }
}
