//! Spanning edges, components, flows and cycles.

ghost use Rattle.std.specs.Prelude.{◌<◌};

use crate::checks::count_of;
use crate::error::BenchError;
use crate::inputs::{Network, WeightedEdge, edges, edges_from_first, groups};
use crate::repeats::{Outcome, Repeats};
use pf_base::PathError;
use pf_components::connected_components::components;
use pf_cycles::directed::cycle_detection::{brent, floyd};
use pf_flow::edmonds_karp::{EKFlows, edmonds_karp_dense, edmonds_karp_sparse};
use pf_graph::undirected::kruskal::{kruskal, kruskal_indices};
use pf_graph::undirected::prim::prim;
use std::alloc::Global;

/// A choice of spanning edges.
pub enum EdgesJob {
    KruskalIndices,
    Kruskal,
    Prim,
}

impl EdgesJob {
    /// Runs it on the input of this size.
    pub fn run(&self, alloc: Global, size: usize, repeats: &Repeats) -> Outcome
        requires { 0 < size }
    {
        let edges = match self {
            EdgesJob::Prim => edges_from_first(alloc, size)?,
            _ => edges(alloc, size)?,
        };
        repeats.check(|is_last| match self {
            EdgesJob::KruskalIndices => weight_by_number(alloc, size, &edges),
            EdgesJob::Kruskal => weight(alloc, &edges),
            EdgesJob::Prim => tree_weight(prim(alloc, &edges), is_last),
        })
    }
}

/// The weight of the edges that `kruskal_indices` gives.
fn weight_by_number(alloc: Global, size: usize, edges: &[WeightedEdge]) -> Outcome {
    let mut sum = 0u64;
    for edge in kruskal_indices(alloc, size, edges)? {
        sum = sum.wrapping_add(u64::from(edge.2));
    }
    Ok(Some(sum))
}

/// The weight of the edges that `kruskal` gives.
fn weight(alloc: Global, edges: &[WeightedEdge]) -> Outcome {
    let mut sum = 0u64;
    for edge in kruskal(alloc, edges)? {
        sum = sum.wrapping_add(u64::from(edge.2));
    }
    Ok(Some(sum))
}

/// The weight of the tree that `prim` answers.
fn tree_weight(found: Result<Vec<(&usize, &usize, u32)>, PathError>, is_last: bool) -> Outcome {
    match &found {
        Ok(tree) if is_last => {
            let mut sum = 0u64;
            for edge in tree {
                sum = sum.wrapping_add(u64::from(edge.2));
            }
            Ok(Some(sum))
        }
        Ok(_) => Ok(None),
        Err(fault) => Err(BenchError::Path(*fault)),
    }
}

/// Counts the components of groups so often.
pub fn repeat_components(alloc: Global, size: usize, repeats: &Repeats) -> Outcome
    requires { 0 < size }
{
    let groups = groups(alloc, size)?;
    repeats.check(|is_last| count_of(components(alloc, &groups), is_last))
}

/// A flow in a network.
pub enum FlowJob {
    Dense,
    Sparse,
}

impl FlowJob {
    /// Runs it on the input of this size.
    pub fn run(&self, alloc: Global, size: usize, repeats: &Repeats) -> Outcome
        requires { 0 < size }
    {
        let network = match self {
            FlowJob::Dense => Network::dense(alloc, size)?,
            FlowJob::Sparse => Network::in_layers(alloc, size)?,
        };
        repeats.check(|is_last| self.call(alloc, &network, is_last))
    }

    /// Makes the call on a network, by a square of capacities or by lists of them.
    fn call(&self, alloc: Global, network: &Network, is_last: bool) -> Outcome {
        let vertices = network.vertices();
        let (source, sink) = (0, network.sink());
        let capacities = network.capacities().iter().copied();
        match self {
            FlowJob::Dense => flow_of(
                edmonds_karp_dense(alloc, vertices, &source, &sink, capacities),
                is_last,
            ),
            FlowJob::Sparse => flow_of(
                edmonds_karp_sparse(alloc, vertices, &source, &sink, capacities),
                is_last,
            ),
        }
    }
}

/// The total of a flow.
fn flow_of(found: Result<EKFlows<usize, i64>, PathError>, is_last: bool) -> Outcome {
    match &found {
        Ok(flow) if is_last => Ok(u64::try_from(flow.1).ok()),
        Ok(_) => Ok(None),
        Err(fault) => Err(BenchError::Path(*fault)),
    }
}

/// A search for the cycle of a step.
pub enum CycleJob {
    Brent,
    Floyd,
}

/// The length of a cycle, its first value, and the steps to it.
type Cycle = (usize, u64, usize);

impl CycleJob {
    /// Finds the cycle of `x * x + 1` modulo a number, from 1, so often.
    pub fn run(&self, modulus: u64, repeats: &Repeats) -> Outcome
        requires { 0 < modulus }
    {
        repeats.check(|is_last| steps_of(self.cycle(modulus), is_last))
    }

    /// The cycle of `x * x + 1` modulo a number, from 1.
    fn cycle(&self, modulus: u64) -> Result<Cycle, PathError>
        requires { 0 < modulus }
    {
        let next = |x: u64| x.wrapping_mul(x).wrapping_add(1) % modulus;
        match self {
            CycleJob::Brent => brent(1u64, next),
            CycleJob::Floyd => floyd(1u64, next),
        }
    }
}

/// The length of a cycle and the steps to it.
fn steps_of(found: Result<Cycle, PathError>, is_last: bool) -> Outcome {
    match found {
        Ok((length, _, steps)) if is_last => {
            Ok(Some((length as u64).saturating_add(steps as u64)))
        }
        Ok(_) => Ok(None),
        Err(fault) => Err(BenchError::Path(fault)),
    }
}
