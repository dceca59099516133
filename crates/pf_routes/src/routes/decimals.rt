//! Numbers of 128 bits as decimal digits, which std does not write.

ghost use Rattle.std.specs.Prelude.{◌≡◌, ◌++◌, OnOk};
ghost use Rattle.std.specs.Fmt.{decimal};

use std::alloc::{AllocError, Allocator};

/// Puts the decimal digits of a number at the end.
pub(crate) fn push_decimal<A: Allocator + Copy>(
    text: &mut Vec<u8, A>,
    number: u128,
) -> Result<(), AllocError>
    ensures { OnOk result (text.new.items ≡ text.old.items ++ decimal number) }
{
    if number >= 10 {
        push_decimal(text, number / 10)?;
    }
    text.push(b'0' + (number % 10) as u8)?;
    Ok(())
}
