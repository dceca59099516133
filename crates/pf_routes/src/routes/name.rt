//! Names as keys of a set.

ghost use Rattle.std.specs.Prelude.{◌≡◌, take};
ghost use Rattle.std.specs.Cmp.Rules.{comparing};
ghost use Rattle.std.specs.Int.Digits.{AllBelowBase};
ghost use Rattle.std.specs.Str.{bytes_eq};
ghost use Rattle.std.specs.Ordering.{on};
ghost use Rattle.std.proofs.Common.{rules};
ghost use Rattle.pf_routes.specs.Internal.Heads.{head_of, name_input};
ghost use Rattle.pf_routes.specs.Internal.Heads.Laws.{same_input};

use std::hash::{Hash, Hasher};
use std::marker::Model;

/// How many bytes of a name stand beside it.
const HEAD: usize = 8;

/// A name as it stands in a text, with its first bytes beside it.
///
/// By these, short names are compared and hashed without a look at the text, whose bytes are seldom
/// in the processor's caches. A contract sees the bytes of the name.
pub(crate) struct Name<'a> {
    bytes: &'a [u8],
    head: u64,
}

impl<'a> Model for Name<'a> {
    ghost use Rattle.std.specs.Prelude.{◌≡◌, ℕ, List, take};
    ghost use Rattle.std.specs.Int.Digits.{AllBelowBase};
    ghost use Rattle.std.specs.Borrow.{Bor};
    ghost use Rattle.pf_routes.specs.Internal.Heads.{head_of};

    ghost Value = { Bor (List ℕ) };

    ghost view = { λ n. n.bytes };

    ghost invariant = { λ n. (n.head ≡ head_of n.bytes.now) × AllBelowBase 256 (take 8 n.bytes.now) };
}

impl<'a> Drop for Name<'a> {
    fn drop(self) {
        let Name { bytes: _, head: _ } = self;
    }
}

/// The first bytes as the digits of a number.
fn head_of(bytes: &[u8]) -> u64
    ensures head { result ≡ head_of bytes.now }
    ensures digits { AllBelowBase 256 (take 8 bytes.now) }
{
    let front = &bytes[..bytes.len().min(HEAD)];
    let mut head = 0;
    'front: for byte in front {
        head = head * 256 + u64::from(*byte);
    }
    head
}

impl<'a> Name<'a> {
    /// The name of these bytes.
    pub(crate) fn new(bytes: &'a [u8]) -> Self
        ensures { result.now ≡ bytes.now }
    {
        Name {
            bytes,
            head: head_of(bytes),
        }
    }

    /// The same name once more.
    pub(crate) fn copied(&self) -> Self
        ensures { result ≡ self.now }
    {
        Name {
            bytes: self.bytes,
            head: self.head,
        }
    }

    /// The bytes of the name.
    pub(crate) fn bytes(&self) -> &'a [u8]
        ensures { result ≡ self.now }
    {
        self.bytes
    }
}

impl PartialEq for Name<'_> {
    ghost eq = { on (λ n. n.now) bytes_eq };

    ghost laws = { Prim.search (comparing, rules) };

    fn eq(&self, other: &Self) -> bool {
        if self.bytes.len() > HEAD {
            return self.bytes == other.bytes;
        }
        self.bytes.len() == other.bytes.len() && self.head == other.head
    }
}

impl Eq for Name<'_> {
    ghost laws = { Prim.search (comparing, rules) };
}

impl Hash for Name<'_> {
    ghost hash_input = { λ n. name_input n.now };

    ghost respects_eq = { λ x y e. same_input x.now y.now e };

    fn hash<H: Hasher>(&self, state: &mut H) {
        if self.bytes.len() > HEAD {
            self.bytes.hash(state);
        } else {
            state.write_u64(self.head);
        }
    }
}
