//! Laws of the searches' definitions, for proofs about programs that use them.
//!
//! A call adds its law to what the caller's proof knows. It does nothing when it runs.

ghost use Rattle.std.specs.Prelude.{◌↔◌, ℤ, List, Bool};
ghost use Rattle.pf_base.specs.Edges.{IsCheapestGoalPath};
ghost use Rattle.pf_informed.specs.CheapestPaths.{HasOnlyCostsAboveZero, IsCheapestCleanPath};

use std::marker::PhantomData;

/// Where all costs in reach are above zero, the cheapest clean paths are the cheapest paths to nodes
/// that pass.
///
/// So there `astar_bag` lists what `astar` may answer, and nothing else.
pub fn cheapest_clean_paths_are_cheapest<N: Eq>(_of: PhantomData<N>)
    ensures { (edges : N → List (N × ℤ)) (starts : List N) (test : N → Bool) (path : List N) (cost : ℤ)
        → HasOnlyCostsAboveZero N.eq edges starts
        → IsCheapestCleanPath N.eq edges starts test path cost ↔ IsCheapestGoalPath N.eq edges starts test path cost }
{}
