//! A breadth-first search over the arcs that carry flow.

ghost use Rattle.std.specs.Prelude.{◌≡◌, ◌≢◌, ◌<◌, ℕ, [], ◌∷◌, None, Some, pos, IfOk, IfErr, OnOk, length, slice_get, slice_set, replicate};
ghost use Rattle.pf_residual.specs.Internal.Cancelling.{AreRows, AreInside, HasAmount, IsPlaced, Reaches, IsReached, Extends, IsRowOf, LeadsToPlaced, IsExpanded, StaysReached};
ghost use Rattle.pf_residual.specs.declared.cancelling.arcs.Arc.{Arc};
ghost use Rattle.pf_residual.specs.declared.cancelling.search.Step.{Step};

use crate::cancelling::arcs::{Arc, Rows};
use pf_base::{PathError, SignedCost};
use std::alloc::Allocator;

/// A vertex that a search reached, the arc by which it did, and the place of the step before.
#[derive(Clone, Copy)]
pub struct Step {
    pub vertex: usize,
    pub arc: usize,
    pub before: usize,
}

/// The steps of a search, and for each vertex the place of its step.
#[derive(Drop)]
pub struct Reached<A: Allocator> {
    pub steps: Vec<Step, A>,
    pub places: Vec<Option<usize>, A>,
}

/// The search that has reached its start alone.
fn begin<A: Allocator + Copy>(alloc: A, size: usize, start: usize) -> Result<Reached<A>, PathError>
    requires start { start < size }
    ensures first { IfOk result (λ reached. (s : Step) × (reached.steps.items ≡ s ∷ []) × (s.vertex ≡ start)) }
    ensures places { IfOk result (λ reached. reached.places.items ≡ slice_set (replicate size None) start (Some 0)) }
    ensures refused { IfErr result (λ e. e ≡ PathError.OutOfMemory) }
{
    let mut places = Vec::new(alloc);
    places.resize(size, None)?;
    places[start] = Some(0);
    let mut steps = Vec::new(alloc);
    steps.push(Step {
        vertex: start,
        arc: 0,
        before: 0,
    })?;
    Ok(Reached { steps, places })
}

/// Takes the step, if its vertex was not reached before.
fn reach<A: Allocator>(reached: &mut Reached<A>, step: Step) -> Result<(), PathError>
    requires inside { step.vertex < length reached.old.places.items }
    ensures reached { OnOk result (Reaches step reached.old.steps.items reached.old.places.items reached.new.steps.items reached.new.places.items) }
    ensures refused { IfErr result (λ e. e ≡ PathError.OutOfMemory) }
{
    if reached.places[step.vertex].is_none() {
        let place = reached.steps.len();
        reached.steps.push(step)?;
        reached.places[step.vertex] = Some(place);
    }
    Ok(())
}

/// Goes on over an arc, if it carries flow. It leaves the vertex of the step at `at`.
fn follow<C: SignedCost, A: Allocator>(
    ends: &[Arc],
    amounts: &[C],
    number: usize,
    at: usize,
    reached: &mut Reached<A>,
) -> Result<(), PathError>
    requires start { (start : ℕ) × IsReached C.value ends.now amounts.now start reached.old.steps.items reached.old.places.items }
    requires arc { (s : Step) × (e : Arc) × (slice_get reached.old.steps.items at ≡ Some s) × (slice_get ends.now number ≡ Some e) × (e.from ≡ s.vertex) }
    requires long { length amounts.now ≡ length ends.now }
    requires inside { AreInside (length reached.old.places.items) ends.now }
    ensures reached { OnOk result (StaysReached C.value ends.now amounts.now reached.old.steps.items reached.old.places.items reached.new.steps.items reached.new.places.items) }
    ensures extends { OnOk result (Extends reached.old.steps.items reached.old.places.items reached.new.steps.items reached.new.places.items) }
    ensures placed { OnOk result ((e : Arc) → slice_get ends.now number ≡ Some e → HasAmount C.value amounts.now number (λ z. z ≢ pos 0) → IsPlaced reached.new.places.items e.to) }
    ensures refused { IfErr result (λ e. e ≡ PathError.OutOfMemory) }
{
    if amounts[number].is_zero() {
        return Ok(());
    }
    let vertex = ends[number].to;
    reach(
        reached,
        Step {
            vertex,
            arc: number,
            before: at,
        },
    )
}

/// Goes on over each arc of the row that carries flow. It is the row of the vertex of the step at
/// `at`.
fn expand<C: SignedCost, A: Allocator>(
    ends: &[Arc],
    amounts: &[C],
    row: &[usize],
    at: usize,
    reached: &mut Reached<A>,
) -> Result<(), PathError>
    requires start { (start : ℕ) × IsReached C.value ends.now amounts.now start reached.old.steps.items reached.old.places.items }
    requires row { IsRowOf ends.now row.now at reached.old.steps.items }
    requires long { length amounts.now ≡ length ends.now }
    requires inside { AreInside (length reached.old.places.items) ends.now }
    ensures reached { OnOk result (StaysReached C.value ends.now amounts.now reached.old.steps.items reached.old.places.items reached.new.steps.items reached.new.places.items) }
    ensures extends { OnOk result (Extends reached.old.steps.items reached.old.places.items reached.new.steps.items reached.new.places.items) }
    ensures expanded { OnOk result (LeadsToPlaced C.value ends.now amounts.now row.now reached.new.places.items) }
    ensures refused { IfErr result (λ e. e ≡ PathError.OutOfMemory) }
{
    'arcs: for number in row {
        follow(ends, amounts, *number, at, reached)?;
    }
    Ok(())
}

/// All vertices in reach of the start over arcs that carry flow.
pub fn search<C: SignedCost, A: Allocator + Copy>(
    alloc: A,
    ends: &[Arc],
    amounts: &[C],
    rows: &Rows<A>,
    start: usize,
) -> Result<Reached<A>, PathError>
    requires rows { AreRows ends.now rows.now.items }
    requires long { length amounts.now ≡ length ends.now }
    requires inside { AreInside (length rows.now.items) ends.now }
    requires start { start < length rows.now.items }
    ensures reached { IfOk result (λ reached. IsReached C.value ends.now amounts.now start reached.steps.items reached.places.items) }
    ensures wide { IfOk result (λ reached. length reached.places.items ≡ length rows.now.items) }
    ensures whole { IfOk result (λ reached. IsExpanded C.value ends.now amounts.now (length reached.steps.items) reached.steps.items reached.places.items) }
    ensures refused { IfErr result (λ e. e ≡ PathError.OutOfMemory) }
{
    let mut reached = begin(alloc, rows.len(), start)?;
    let mut at = 0;
    'steps: while at < reached.steps.len() {
        let vertex = reached.steps[at].vertex;
        expand(ends, amounts, &rows[vertex], at, &mut reached)?;
        at += 1;
    }
    Ok(reached)
}
