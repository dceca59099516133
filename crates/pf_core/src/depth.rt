//! How many steps paths have, as contracts alone see it.

ghost use Rattle.std.specs.Prelude.{◌≡◌, ◌+◌};

use std::marker::Model;
use std::snapshot::Snapshot;

/// A whole number, made of others.
#[derive(Drop)]
enum Steps {
    Zero,
    Next(Snapshot<Steps>),
    Same(Snapshot<Snapshot<Steps>>),
}

/// The number of steps of a path: of no size, and known to contracts alone.
#[derive(Drop)]
pub struct Depth {
    steps: Snapshot<Steps>,
}

impl Model for Depth {
    ghost use Rattle.std.specs.Prelude.{ℕ};
    ghost use Rattle.pf_core.specs.Depths.{depth_of_steps};

    ghost Value = { ℕ };

    ghost view = { λ d. depth_of_steps d.steps.value };
}

impl Depth {
    /// The depth at which a path begins.
    pub fn zero() -> Self
        ensures { result ≡ 0 }
    {
        Depth {
            steps: Snapshot::of(&Steps::Zero),
        }
    }

    /// The same depth once more.
    pub fn same(&self) -> Self
        ensures { result ≡ self.now }
    {
        let again = Snapshot::of(&self.steps);
        Depth {
            steps: Snapshot::of(&Steps::Same(again)),
        }
    }

    /// One step more.
    pub fn deeper(&self) -> Self
        ensures { result ≡ self.now + 1 }
    {
        let Depth { steps } = self.same();
        Depth {
            steps: Snapshot::of(&Steps::Next(steps)),
        }
    }
}
