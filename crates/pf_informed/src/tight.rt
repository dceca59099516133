//! The numbers before each number on cheapest ways.

ghost use Rattle.std.specs.Prelude.{◌≡◌, ◌⊎◌, ◌↔◌, ◌<◌, ◌≤◌, ◌+◌, ◌++◌, ◌∷◌, [], ℕ, List, OnOk, IfOk, IfErr, MatchBool, MatchOption, Contains, length, nat_eq};
ghost use Rattle.pf_base.specs.Walks.{HasNode};
ghost use Rattle.pf_core.specs.declared.labels.Label.{Label};
ghost use Rattle.pf_core.specs.Labels.{HasLabel};
ghost use Rattle.pf_core.specs.Numbered.{Grows};
ghost use Rattle.pf_informed.specs.Internal.Chains.{before_in};
ghost use Rattle.pf_informed.specs.Internal.Tight.{AreRows, IsTightStep, IsTight};

use crate::predecessors::Predecessors;
use pf_base::{Cost, PathError};
use pf_core::numbered::GoalGraph;
use pf_core::slot::Slot;
use std::alloc::Allocator;

/// The goals that a cheapest way leads to, and the numbers before each number on cheapest ways.
#[derive(Drop)]
pub(crate) struct Tight<A: Allocator> {
    pub goals: Vec<usize, A>,
    pub before: Predecessors<A>,
}

/// The cost of the label of a number, if it has one.
fn cost_of<C: Copy>(labels: &[Slot<C>], number: usize) -> Option<C>
    ensures { MatchOption result ((l : Label C) → ¬ (HasLabel labels.now number l)) (λ cost. (l : Label C) × HasLabel labels.now number l × (cost ≡ l.cost)) }
{
    if number >= labels.len() {
        return None;
    }
    match labels[number].label() {
        Some(label) => Some(label.cost),
        None => None,
    }
}

/// Is the label of `next` that which a step at this price leads to, from a label of this cost?
fn is_tight<C: Cost>(labels: &[Slot<C>], next: usize, cost: C, price: C) -> bool
    ensures { MatchBool result (IsTightStep C.value labels.now next (C.value cost) price) (¬ (IsTightStep C.value labels.now next (C.value cost) price)) }
{
    let Some(least) = cost_of(labels, next) else {
        return false;
    };
    least.known();
    let Some(sum) = cost.checked_add(&price) else {
        return false;
    };
    if least < sum {
        return false;
    }
    !(sum < least)
}

/// Puts a number before the end of a step of its row, where the step is tight.
fn link_step<C: Cost, A: Allocator>(
    before: &mut Predecessors<A>,
    labels: &[Slot<C>],
    number: usize,
    cost: C,
    next: usize,
    price: C,
) -> Result<(), PathError>
    requires rows { AreRows number (length labels.now) before.old }
    ensures rows { OnOk result (AreRows number (length labels.now) before.new) }
    ensures linked { OnOk result ((j k : ℕ) → HasNode nat_eq (before_in before.new j) k ↔ (HasNode nat_eq (before_in before.old j) k
        ⊎ ((k ≡ number) × (j ≡ next) × IsTightStep C.value labels.now j (C.value cost) price))) }
    ensures refused { IfErr result (λ e. e ≡ PathError.OutOfMemory) }
{
    if !is_tight(labels, next, cost, price) {
        return Ok(());
    }
    before.link(next, number)
}

/// Puts a number before each end of a tight step of its row, once.
fn link_row<C: Cost, A: Allocator>(
    before: &mut Predecessors<A>,
    labels: &[Slot<C>],
    number: usize,
    cost: C,
    row: &[(usize, C)],
) -> Result<(), PathError>
    requires rows { AreRows number (length labels.now) before.old }
    ensures rows { OnOk result (AreRows number (length labels.now) before.new) }
    ensures linked { OnOk result ((j k : ℕ) → HasNode nat_eq (before_in before.new j) k ↔ (HasNode nat_eq (before_in before.old j) k
        ⊎ ((k ≡ number) × ((c : C) × Contains row.now (j, c) × IsTightStep C.value labels.now j (C.value cost) c)))) }
    ensures refused { IfErr result (λ e. e ≡ PathError.OutOfMemory) }
{
    'steps: for (next, price) in row {
        link_step(before, labels, number, cost, *next, *price)?;
    }
    Ok(())
}

/// Looks at the steps from one number more, where its label costs at most `best`.
fn look<C: Cost, G: GoalGraph<C>, A: Allocator>(
    graph: &mut G,
    labels: &[Slot<C>],
    number: usize,
    best: C,
    row: &mut Vec<(usize, C), A>,
    tight: &mut Tight<A>,
) -> Result<(), PathError>
    requires inside { (number < length labels.now) × (length labels.now ≤ G.node_count graph.old) }
    requires graph { (g : G.Graph) × G.explores graph.old g }
    requires someone { (x : G.Node) × G.stands graph.old number x }
    requires rows { AreRows number (length labels.now) tight.old.before }
    ensures grows { Grows (G.node_count graph.old) (G.node_count graph.new) (G.stands graph.old) (G.stands graph.new) }
    ensures graph { (g : G.Graph) → G.explores graph.old g → G.explores graph.new g }
    ensures rows { OnOk result (AreRows (number + 1) (length labels.now) tight.new.before) }
    ensures tight { OnOk result ((g : G.Graph) → G.explores graph.old g
        → IsTight C.value labels.now (G.step g) (G.passes g) (G.stands graph.old) (C.value best) number tight.old.goals.items (before_in tight.old.before)
        → IsTight C.value labels.now (G.step g) (G.passes g) (G.stands graph.new) (C.value best) (number + 1) tight.new.goals.items (before_in tight.new.before)) }
    ensures refused { IfErr result (λ e. e ≡ PathError.OutOfMemory) }
{
    let Some(cost) = cost_of(labels, number) else {
        return Ok(());
    };
    if best < cost {
        return Ok(());
    }
    if graph.is_goal(number) {
        tight.goals.push(number)?;
        return Ok(());
    }
    graph.expand(number, row)?;
    link_row(&mut tight.before, labels, number, cost, row)
}

/// The goals whose labels cost at most `best`, and the numbers before each number on ways to them. The
/// row is room for the steps from one number.
pub(crate) fn tight_edges<C: Cost, G: GoalGraph<C>, A: Allocator + Copy>(
    alloc: A,
    graph: &mut G,
    labels: &[Slot<C>],
    row: &mut Vec<(usize, C), A>,
    best: C,
) -> Result<Tight<A>, PathError>
    requires found { length labels.now ≤ G.node_count graph.old }
    requires graph { (g : G.Graph) × G.explores graph.old g }
    requires someone { (k : ℕ) → k < length labels.now → (x : G.Node) × G.stands graph.old k x }
    ensures grows { Grows (G.node_count graph.old) (G.node_count graph.new) (G.stands graph.old) (G.stands graph.new) }
    ensures wide { IfOk result (λ tight. length tight.before ≡ length labels.now) }
    ensures tight { IfOk result (λ tight. (g : G.Graph) → G.explores graph.old g
        → G.explores graph.new g × IsTight C.value labels.now (G.step g) (G.passes g) (G.stands graph.new) (C.value best) (length labels.now) tight.goals.items (before_in tight.before)) }
    ensures refused { IfErr result (λ e. e ≡ PathError.OutOfMemory) }
{
    let mut tight = Tight {
        goals: Vec::new(alloc),
        before: Predecessors::new(alloc, labels.len())?,
    };
    'numbers: for number in 0..labels.len() {
        look(graph, labels, number, best, row, &mut tight)?;
    }
    Ok(tight)
}
