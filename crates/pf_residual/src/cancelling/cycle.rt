//! A cycle of arcs that carry flow, and the flow that is taken off it.

ghost use Rattle.std.specs.Prelude.{◌≡◌, ◌<◌, ◌≤ℤ◌, ◌<ℤ◌, ◌+ℤ◌, ℕ, Bool, List, Some, pos, IfOk, IfErr, length};
ghost use Rattle.pf_residual.specs.Internal.Cancelling.{Has, AreRows, AreInside, IsCirculation, AreAmounts, HasAmount, IsOnce, IsCycle, IsTakenOff, net_of, gained};
ghost use Rattle.pf_residual.specs.declared.cancelling.arcs.Arc.{Arc};

use crate::cancelling::arcs::{Arc, Rows};
use crate::cancelling::search::search;
use pf_base::cost::arithmetic::lesser;
use pf_base::{PathError, SignedCost};
use std::alloc::Allocator;

/// A cycle through an arc that carries flow: one that leads back has to be in reach, as no set of
/// vertices gains more than it loses.
pub fn cycle_through<C: SignedCost, A: Allocator + Copy>(
    alloc: A,
    ends: &[Arc],
    amounts: &[C],
    rows: &Rows<A>,
    through: usize,
) -> Result<Vec<usize, A>, PathError>
    requires rows { AreRows ends.now rows.now.items }
    requires inside { AreInside (length rows.now.items) ends.now }
    requires long { length amounts.now ≡ length ends.now }
    requires amounts { AreAmounts C.value amounts.now }
    requires balanced { IsCirculation C.value ends.now amounts.now }
    requires through { HasAmount C.value amounts.now through (λ z. pos 0 <ℤ z) }
    ensures cycle { IfOk result (λ cycle. IsCycle C.value ends.now amounts.now through cycle.items) }
    ensures refused { IfErr result (λ e. e ≡ PathError.OutOfMemory) }
{
    let arc = ends[through];
    let reached = search(alloc, ends, amounts, rows, arc.to)?;
    let Some(last) = reached.places[arc.from] else {
        unreachable!()
    };
    let mut at = last;
    let mut cycle = Vec::new(alloc);
    'steps: while at > 0 {
        let step = reached.steps[at];
        cycle.push(step.arc)?;
        at = step.before;
    }
    cycle.push(through)?;
    Ok(cycle)
}

/// The least amount on a cycle, or the limit where that is less.
pub fn least_amount<C: SignedCost>(cycle: &[usize], amounts: &[C], limit: C) -> C
    requires amounts { (k : ℕ) → Has cycle.now k → HasAmount C.value amounts.now k (λ z. pos 0 <ℤ z) }
    requires limit { pos 0 <ℤ C.value limit }
    ensures some { pos 0 <ℤ C.value result }
    ensures limited { C.value result ≤ℤ C.value limit }
    ensures each { (k : ℕ) → Has cycle.now k → HasAmount C.value amounts.now k (λ z. C.value result ≤ℤ z) }
{
    let mut least = limit;
    'arcs: for number in cycle {
        least = lesser(amounts[*number], least);
    }
    least
}

/// Takes this much off each arc of a cycle.
pub fn take_off<C: SignedCost>(cycle: &[usize], amounts: &mut [C], amount: C)
    requires once { IsOnce cycle.now }
    requires amount { pos 0 ≤ℤ C.value amount }
    requires each { (k : ℕ) → Has cycle.now k → HasAmount C.value amounts.old k (λ z. C.value amount ≤ℤ z) }
    ensures taken { IsTakenOff C.value (C.value amount) cycle.now amounts.old amounts.new }
    ensures balance { (side : ℕ → Bool) (ends : List Arc) → length amounts.old ≡ length ends
        → net_of C.value side ends amounts.new +ℤ gained side (C.value amount) ends cycle.now ≡ net_of C.value side ends amounts.old }
{
    'arcs: for number in cycle {
        let held = amounts[*number];
        held.known();
        amounts[*number] = held.minus(amount);
    }
}
