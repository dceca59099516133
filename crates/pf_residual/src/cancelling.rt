//! Flow that is taken off an arc: round cycles of flow through it, found by breadth-first search.

ghost use Rattle.std.specs.Prelude.{◌≡◌, ◌<◌, ◌≤ℤ◌, pos, IfErr, OnOk, length};
ghost use Rattle.pf_residual.specs.Internal.Cancelling.{AreInside, IsCirculation, AreAmounts, HasAmount, IsLowered};

use pf_base::{PathError, SignedCost};
use std::alloc::Allocator;

pub mod arcs;
mod cycle;
mod search;

use arcs::{Arc, rows_of};
use cycle::{cycle_through, least_amount, take_off};

/// Takes this much off an arc, round cycles of flow, so that what each vertex gains and loses stays
/// balanced. No arc loses more.
pub fn cancel<C: SignedCost, A: Allocator + Copy>(
    alloc: A,
    size: usize,
    ends: &[Arc],
    amounts: &mut [C],
    through: usize,
    excess: C,
) -> Result<(), PathError>
    requires inside { AreInside size ends.now }
    requires long { length amounts.old ≡ length ends.now }
    requires amounts { AreAmounts C.value amounts.old }
    requires balanced { IsCirculation C.value ends.now amounts.old }
    requires excess { pos 0 ≤ℤ C.value excess }
    requires enough { HasAmount C.value amounts.old through (λ z. C.value excess ≤ℤ z) }
    ensures balanced { OnOk result (IsCirculation C.value ends.now amounts.new) }
    ensures lowered { OnOk result (IsLowered C.value (C.value excess) through amounts.old amounts.new) }
    ensures refused { IfErr result (λ e. e ≡ PathError.OutOfMemory) }
{
    let rows = rows_of(alloc, size, ends)?;
    let mut rest = excess;
    'rounds: while !rest.is_zero() {
        let cycle = cycle_through(alloc, ends, amounts, &rows, through)?;
        rest.known();
        let amount = least_amount(&cycle, amounts, rest);
        take_off(&cycle, amounts, amount);
        rest = rest.minus(amount);
    }
    Ok(())
}
