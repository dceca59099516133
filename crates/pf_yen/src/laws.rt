//! Laws of the definitions of clean paths, for proofs about programs that use them.
//!
//! A call adds its law to what the caller's proof knows. It does nothing when it runs.

ghost use Rattle.std.specs.Prelude.{◌≡◌, ◌≤◌, ◌∷◌, [], ℕ, ℤ, List, Bool, Some, slice_get, length, Contains};
ghost use Rattle.pf_base.specs.Answers.{SameNodes};
ghost use Rattle.pf_base.specs.Edges.{InReach};
ghost use Rattle.pf_base.specs.Walks.{HasNode};
ghost use Rattle.pf_yen.specs.CleanPaths.{IsCleanPath};
ghost use Rattle.pf_yen.specs.Counting.{most_paths};

use std::marker::PhantomData;

/// Where the start and n further nodes are all nodes in reach of the start, at most `most_paths n` clean
/// paths differ place by place.
///
/// So a walk of `yen_paths` over a finite reach ends, and `yen` answers no more paths than that.
pub fn clean_paths_are_finitely_many<N: Eq>(_of: PhantomData<N>)
    ensures { (edges : N → List (N × ℤ)) (start : N) (test : N → Bool) (further : List N) (paths : List (List N))
        → ((x : N) → InReach N.eq edges (start ∷ []) x → HasNode N.eq (start ∷ further) x)
        → ((path : List N) → Contains paths path → IsCleanPath N.eq edges start test path)
        → ((i j : ℕ) (path other : List N) → slice_get paths i ≡ Some path → slice_get paths j ≡ Some other → SameNodes N.eq path other → i ≡ j)
        → length paths ≤ most_paths (length further) }
{}
