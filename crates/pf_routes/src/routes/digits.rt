//! Numbers in decimal digits.

ghost use Rattle.std.specs.Prelude.{◌≡◌, ◌+◌, ◌*◌, ◌^◌, ◌≤◌, Some, None, MatchOption, IsTrue, if◌then◌else◌};
ghost use Rattle.std.specs.Char.{is_ascii_digit, digit_value};
ghost use Rattle.std.specs.Str.Parse.{digits_value};
ghost use Rattle.pf_routes.specs.EdgeText.{is_cost};

/// The number with one more digit.
fn push_digit(number: u64, digit: u8) -> Option<u64>
    requires { IsTrue (is_ascii_digit digit) }
    ensures { MatchOption result (2 ^ 64 ≤ number * 10 + digit_value digit) (λ n. n ≡ number * 10 + digit_value digit) }
{
    number.checked_mul(10)?.checked_add(u64::from(digit - b'0'))
}

/// The number that a field spells, where it is digits alone and the number fits.
pub(crate) fn number_of(field: &[u8]) -> Option<u64>
    ensures { result ≡ (if is_cost field.now then Some (digits_value 10 field.now) else None) }
{
    let mut number = 0u64;
    for digit in field {
        if !digit.is_ascii_digit() {
            return None;
        }
        number = push_digit(number, *digit)?;
    }
    Some(number)
}
