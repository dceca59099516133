//! The tests of estimates.

ghost use Rattle.std.specs.Prelude.{◌≡◌, ◌⊎◌, ◌<◌, ◌≤ℤ◌, ◌<ℤ◌, ◌+ℤ◌, ℕ, pos, true, length, MatchBool, MatchResult};
ghost use Rattle.pf_tables.specs.Graphs.{IsGraph};
ghost use Rattle.pf_estimated_graphs.specs.EstimatesInTables.{IsSoundAt, FallsAt, IsFaultOfNode, IsFaultOfRow, IsFaultOfEdge, estimate_at};
ghost use Rattle.pf_estimated_graphs.specs.declared.error.EstimateError.TheVariants.{NegativeEstimate, EstimateAtGoal};

use crate::error::EstimateError;
use pf_base::Cost;
use pf_tables::{Goals, Graph};

/// Tests that an estimate is from 0 up, and 0 where its node is a goal.
fn check_node<C: Cost>(goal: bool, node: usize, estimate: C) -> Result<(), EstimateError>
    ensures { MatchResult result
        (λ _. (pos 0 ≤ℤ C.value estimate) × (goal ≡ true → C.value estimate ≡ pos 0))
        (λ e. ((C.value estimate <ℤ pos 0) × (e ≡ NegativeEstimate node)) ⊎ ((goal ≡ true) × (pos 0 <ℤ C.value estimate) × (e ≡ EstimateAtGoal node))) }
{
    if estimate < C::zero() {
        return Err(EstimateError::NegativeEstimate { node });
    }
    if goal && C::zero() < estimate {
        return Err(EstimateError::EstimateAtGoal { node });
    }
    Ok(())
}

/// Tests the estimate of each node by itself.
pub fn check_nodes<C: Cost, T: Goals>(goals: &T, estimates: &[C]) -> Result<(), EstimateError>
    ensures { MatchResult result
        (λ _. (node : ℕ) → node < length estimates.now → IsSoundAt C.value (T.passes goals.now) estimates.now node)
        (IsFaultOfNode C.value (T.passes goals.now) estimates.now) }
{
    for (node, estimate) in estimates.iter().enumerate() {
        check_node(goals.is_goal(node), node, *estimate)?;
    }
    Ok(())
}

/// Is an estimate above what an edge costs and the estimate behind it?
fn exceeds<C: Cost>(estimate: C, cost: C, behind: C) -> bool
    requires cost { pos 0 ≤ℤ C.value cost }
    requires behind { pos 0 ≤ℤ C.value behind }
    ensures { MatchBool result
        ((C.value cost +ℤ C.value behind) <ℤ C.value estimate)
        (C.value estimate ≤ℤ (C.value cost +ℤ C.value behind)) }
{
    estimate.known();
    match cost.checked_add(&behind) {
        Some(sum) => sum < estimate,
        None => false,
    }
}

/// Tests the estimate of a node against each of its edges.
fn check_row<C: Cost, G: Graph<C>>(
    graph: &G,
    estimates: &[C],
    node: usize,
) -> Result<(), EstimateError>
    requires inside { node < G.size graph.now }
    requires complete { length estimates.now ≡ G.size graph.now }
    requires from_zero { (k : ℕ) → k < G.size graph.now → pos 0 ≤ℤ estimate_at C.value estimates.now k }
    ensures { MatchResult result
        (λ _. (place : ℕ) → FallsAt C.value (G.places graph.now) estimates.now node place)
        (IsFaultOfRow C.value (G.places graph.now) estimates.now node) }
{
    graph.known();
    for place in 0..graph.places(node) {
        if let Some(edge) = graph.edge(node, place)
            && exceeds(estimates[node], edge.1, estimates[edge.0])
        {
            return Err(EstimateError::EstimateAboveEdge { node, place });
        }
    }
    Ok(())
}

/// Tests the estimates against each edge.
pub fn check_edges<C: Cost, G: Graph<C>>(graph: &G, estimates: &[C]) -> Result<(), EstimateError>
    requires complete { length estimates.now ≡ G.size graph.now }
    requires from_zero { (k : ℕ) → k < G.size graph.now → pos 0 ≤ℤ estimate_at C.value estimates.now k }
    ensures { MatchResult result
        (λ _. (node : ℕ) (place : ℕ) → node < G.size graph.now → FallsAt C.value (G.places graph.now) estimates.now node place)
        (IsFaultOfEdge C.value (G.places graph.now) estimates.now (G.size graph.now)) }
{
    for node in 0..graph.len() {
        check_row(graph, estimates, node)?;
    }
    Ok(())
}
