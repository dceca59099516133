//! A caller that steps from name to name.

ghost use Rattle.std.specs.Prelude.{◌≡◌, if◌then◌else◌};
ghost use Rattle.pf_base.specs.Answers.{IsLawfulClone};

use crate::cycles::{Cycles, cycles_by};

/// The value after a value: `second` after all but `second`, and `third` after that.
fn after<T: Eq + Copy>(value: T, second: T, third: T) -> T
    ensures { result ≡ (if T.eq value second then third else second) }
{
    if value == second { third } else { second }
}

/// The cycle that `first` leads to, by each of the four calls.
pub fn cycles_of_names<T: Eq + Copy>(first: T, second: T, third: T) -> Cycles<T>
    requires clones { IsLawfulClone T.eq T.is_clone }
{
    cycles_by(first, |value| after(value, second, third))
}
