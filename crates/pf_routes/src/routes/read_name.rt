//! Names whose first byte has been read.

ghost use Rattle.std.specs.Prelude.{◌≡◌, ◌++◌, OnOk};

use std::alloc::{AllocError, Allocator};
use std::marker::Model;

/// A name whose first byte has been read, so that the others are near when it is written.
///
/// A contract sees the bytes of the name.
#[derive(Drop)]
pub(crate) struct ReadName<'a> {
    first: Option<u8>,
    rest: &'a [u8],
}

impl<'a> Model for ReadName<'a> {
    ghost use Rattle.std.specs.Prelude.{ℕ, List};
    ghost use Rattle.pf_routes.specs.Internal.ReadNames.{with_first};

    ghost Value = { List ℕ };

    ghost view = { λ n. with_first n.first n.rest.now };
}

impl<'a> ReadName<'a> {
    /// Reads the first byte of a name.
    pub(crate) fn of(name: &'a [u8]) -> Self
        ensures { result ≡ name.now }
    {
        match name.split_first() {
            Some((first, rest)) => ReadName {
                first: Some(*first),
                rest,
            },
            None => ReadName {
                first: None,
                rest: name,
            },
        }
    }

    /// Puts the name at the end of a text.
    pub(crate) fn push_to<A: Allocator>(&self, text: &mut Vec<u8, A>) -> Result<(), AllocError>
        ensures { OnOk result (text.new.items ≡ text.old.items ++ self.now) }
    {
        if let Some(first) = self.first {
            text.push(first)?;
        }
        text.extend_from_slice(self.rest)
    }
}
