//! Names by number, in memory of their own.

ghost use Rattle.std.specs.Prelude.{◌≡◌, ℕ, ◌+◌, ◌<◌, ◌≤◌, IfOk, vec_len, slice_index};

use crate::routes::name::Name;
use std::alloc::{AllocError, Allocator};

/// The bytes of all names, one name behind the other, and where each begins.
///
/// It outlives the text that the names were read from, so that this can be given back before the
/// graph takes its memory.
#[derive(Drop)]
pub(crate) struct NameTable<A: Allocator + Copy> {
    bytes: Vec<u8, A>,
    offsets: Vec<usize, A>,
    ghost some: { 0 < vec_len offsets },
    ghost within: { (n : ℕ) → n < vec_len offsets → slice_index offsets.items n ≤ vec_len bytes },
    ghost ordered: { (n : ℕ) → n + 1 < vec_len offsets → slice_index offsets.items n ≤ slice_index offsets.items (n + 1) },
}

impl<A: Allocator + Copy> NameTable<A> {
    ghost use Rattle.pf_routes.specs.Internal.NameTable.{HoldsNames, name_in, table_len};

    /// The table of these names.
    pub(crate) fn of(alloc: A, names: &[Name<'_>]) -> Result<Self, AllocError>
        ensures { IfOk result (λ table. HoldsNames table names.now) }
    {
        let mut bytes = Vec::new(alloc);
        let mut offsets = Vec::new(alloc);
        offsets.push(0)?;
        'names: for name in names {
            bytes.extend_from_slice(name.bytes())?;
            offsets.push(bytes.len())?;
        }
        Ok(NameTable { bytes, offsets })
    }

    /// The number of names.
    pub(crate) fn len(&self) -> usize
        ensures { result ≡ table_len self.now }
    {
        self.offsets.len() - 1
    }

    /// The name of this number.
    pub(crate) fn name(&self, number: usize) -> &[u8]
        requires { number < table_len self.now }
        ensures { result.now ≡ name_in self.now number }
    {
        let start = self.offsets[number];
        let end = self.offsets[number + 1];
        &self.bytes[start..end]
    }
}
