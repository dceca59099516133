//! A node type with an order whose equality is not identity: letters that differ only in case are one
//! node.

ghost use Rattle.std.specs.Prelude.{◌==◌};
ghost use Rattle.std.proofs.Common.{rules};
ghost use Rattle.std.specs.Char.{to_ascii_lowercase};
ghost use Rattle.std.specs.Cmp.{partial_order_from_own_ties};
ghost use Rattle.std.specs.Cmp.Rules.{comparing, hashing};
ghost use Rattle.std.specs.Hash as fed;
ghost use Rattle.std.specs.Ordering.{on, nat_cmp, as_partial_cmp};

use std::cmp::Ordering;
use std::hash::{Hash, Hasher};

/// An ASCII letter. Its case tells no two letters apart, and a copy keeps it.
#[derive(Clone, Copy)]
pub struct Letter {
    pub byte: u8,
}

impl PartialEq for Letter {
    ghost eq = { on (λ l. to_ascii_lowercase l.byte) ◌==◌ };

    ghost laws = { Prim.search (comparing, rules) };

    fn eq(&self, other: &Letter) -> bool {
        self.byte.to_ascii_lowercase() == other.byte.to_ascii_lowercase()
    }
}

impl Eq for Letter {
    ghost laws = { Prim.search (comparing, rules) };
}

impl Ord for Letter {
    ghost cmp = { on (λ l. to_ascii_lowercase l.byte) nat_cmp };

    ghost total = { Prim.search (comparing, rules) };

    ghost matches_partial_cmp = { Prim.search (comparing, rules) };

    ghost matches_eq = { Prim.search (comparing, rules) };

    fn cmp(&self, other: &Letter) -> Ordering {
        self.byte
            .to_ascii_lowercase()
            .cmp(&other.byte.to_ascii_lowercase())
    }
}

impl PartialOrd for Letter {
    ghost partial_cmp = { as_partial_cmp (on (λ l. to_ascii_lowercase l.byte) nat_cmp) };

    ghost laws = { partial_order_from_own_ties (Prim.search (comparing, rules))
        (Prim.search (comparing, rules)) };

    fn partial_cmp(&self, other: &Letter) -> Option<Ordering> {
        Some(self.cmp(other))
    }
}

impl Hash for Letter {
    ghost hash_input = { λ l. fed.u8 (to_ascii_lowercase l.byte) };

    ghost respects_eq = { Prim.search (hashing, rules) };

    fn hash<H: Hasher>(&self, state: &mut H) {
        self.byte.to_ascii_lowercase().hash(state);
    }
}
