//! Places by number.

ghost use Rattle.std.specs.Prelude.{◌≡◌, ◌⊎◌, ◌<◌, ℕ, Some, OnOk, IfErr, length, slice_get};

use pf_base::PathError;
use std::alloc::Allocator;

/// Makes a vector so long that it has a place for the number.
pub fn widen<T: Copy, A: Allocator>(
    items: &mut Vec<T, A>,
    number: usize,
    value: T,
) -> Result<(), PathError>
    ensures long { OnOk result (number < length items.new.items) }
    ensures kept { OnOk result ((k : ℕ) (x : T) → slice_get items.old.items k ≡ Some x → slice_get items.new.items k ≡ Some x) }
    ensures from { OnOk result ((k : ℕ) (x : T) → slice_get items.new.items k ≡ Some x → slice_get items.old.items k ≡ Some x ⊎ (x ≡ value)) }
    ensures refused { IfErr result (λ e. e ≡ PathError.OutOfMemory) }
{
    if number >= items.len() {
        let len = number.checked_add(1).ok_or(PathError::OutOfMemory)?;
        items.resize(len, value)?;
    }
    Ok(())
}
