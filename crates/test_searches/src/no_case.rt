//! A node type whose equality is not identity: names that differ only in letter case are one node.

ghost use Rattle.std.specs.Prelude.{◌==◌, ◌++◌, map};
ghost use Rattle.std.proofs.Common.{rules};
ghost use Rattle.std.specs.Char.{to_ascii_lowercase};
ghost use Rattle.std.specs.Cmp.Rules.{comparing, hashing};
ghost use Rattle.std.specs.Hash as fed;
ghost use Rattle.std.specs.Cmp.Lexicographic.{pointwise};
ghost use Rattle.std.specs.List.{flat_map};
ghost use Rattle.std.specs.Ordering.{on};

use std::hash::{Hash, Hasher};

/// A name of ASCII letters. Letter case tells no two names apart, and a copy keeps the spelling.
#[derive(Clone, Copy)]
pub struct NoCase<'a> {
    pub name: &'a str,
}

impl PartialEq for NoCase<'_> {
    ghost eq = { on (λ n. map to_ascii_lowercase n.name.now) (pointwise ◌==◌) };

    ghost laws = { Prim.search (comparing, rules) };

    fn eq(&self, other: &NoCase<'_>) -> bool {
        self.name.eq_ignore_ascii_case(other.name)
    }
}

impl Eq for NoCase<'_> {
    ghost laws = { Prim.search (comparing, rules) };
}

impl Hash for NoCase<'_> {
    ghost hash_input = { λ n. flat_map fed.u8 (map to_ascii_lowercase n.name.now) ++ fed.u8 255 };

    ghost respects_eq = { Prim.search (hashing, rules) };

    fn hash<H: Hasher>(&self, state: &mut H) {
        for byte in self.name.as_bytes() {
            state.write_u8(byte.to_ascii_lowercase());
        }
        // No byte of a text is 255, so a name is never the beginning of another one's writes.
        state.write_u8(255);
    }
}
