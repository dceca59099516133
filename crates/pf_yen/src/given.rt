//! The paths that were given, as contracts alone see them.

ghost use Rattle.std.specs.Prelude.{◌≡◌, ◌++◌, [], ◌∷◌};

use std::alloc::Allocator;
use std::marker::Model;
use std::snapshot::Snapshot;

/// Paths with their costs, the last one first.
#[derive(Drop)]
enum Chain<N: Drop, C: Drop, A: Allocator> {
    Nothing,
    Path {
        before: Snapshot<Snapshot<Chain<N, C, A>>>,
        path: Snapshot<Vec<N, A>>,
        cost: Snapshot<C>,
    },
}

/// The paths that were given, with their costs: of no size, and known to contracts alone.
#[derive(Drop)]
pub struct Given<N: Drop, C: Drop, A: Allocator> {
    chain: Snapshot<Chain<N, C, A>>,
}

impl<N: Drop, C: Drop, A: Allocator> Model for Given<N, C, A> {
    ghost use Rattle.std.specs.Prelude.{List};
    ghost use Rattle.std.specs.Coded.{coded_list, coded×};
    ghost use Rattle.pf_yen.specs.Internal.Given.{paths_of_chain};

    ghost Value = { List (List N × C) };

    ghost coded = { coded_list (coded× (coded_list N.code) C.code) };

    ghost view = { λ s. paths_of_chain s.chain.value };
}

impl<N: Drop, C: Drop, A: Allocator> Given<N, C, A> {
    /// No path was given.
    pub fn nothing() -> Self
        ensures { result ≡ [] }
    {
        Given {
            chain: Snapshot::of(&Chain::Nothing),
        }
    }

    /// One path more was given.
    pub fn and(&self, path: &Vec<N, A>, cost: &C) -> Self
        ensures { result ≡ self.now ++ (path.now.items, cost.now) ∷ [] }
    {
        Given {
            chain: Snapshot::of(&Chain::Path {
                before: Snapshot::of(&self.chain),
                path: Snapshot::of(path),
                cost: Snapshot::of(cost),
            }),
        }
    }
}
