//! Strong components and topological orders.

ghost use Rattle.std.specs.Prelude.{◌<◌, ◌+◌, All, length};

use crate::checks::count_of;
use crate::error::BenchError;
use crate::inputs::Rows;
use crate::repeats::{Outcome, Repeats};
use pf_base::PathError;
use pf_orders::directed::strongly_connected_components::strongly_connected_components;
use pf_orders::directed::topological_sort::{topological_sort, topological_sort_into_groups};
use std::alloc::Global;

/// Rows, and nodes of theirs.
#[derive(Drop)]
struct Numbered {
    rows: Rows,
    nodes: Vec<usize>,
    ghost inside: { All (λ n. n + 1 < length rows.offsets.items) nodes.items },
}

impl Numbered {
    /// Rows and all their nodes, in order.
    fn all(alloc: Global, rows: Rows) -> Result<Numbered, BenchError> {
        let mut nodes = Vec::new(alloc);
        'nodes: for node in 0..rows.offsets().len() - 1 {
            nodes.push(node)?;
        }
        Ok(Numbered { rows, nodes })
    }
}

/// Strong components, or a topological order.
pub enum OrderJob {
    Scc,
    TopologicalSort,
    Groups,
}

impl OrderJob {
    /// Runs it on the input of this size, which has cycles only where they are asked for.
    pub fn run(&self, alloc: Global, size: usize, repeats: &Repeats) -> Outcome
        requires { 0 < size }
    {
        let rows = Rows::random(alloc, size, matches!(self, OrderJob::Scc))?;
        let input = Numbered::all(alloc, rows)?;
        repeats.check(|is_last| self.call(alloc, &input, is_last))
    }

    /// Makes the call on all nodes.
    fn call(&self, alloc: Global, input: &Numbered, is_last: bool) -> Outcome {
        let roots = input.nodes.as_slice();
        let next = |node: &usize| input.rows.ends_from(*node);
        match self {
            OrderJob::Scc => count_of(strongly_connected_components(alloc, roots, next), is_last),
            OrderJob::TopologicalSort => order_of(topological_sort(alloc, roots, next), is_last),
            OrderJob::Groups => {
                depth_sum(topological_sort_into_groups(alloc, roots, next), is_last)
            }
        }
    }
}

/// How many nodes stand in an order.
pub fn order_of(found: Result<Result<Vec<usize>, usize>, PathError>, is_last: bool) -> Outcome {
    match &found {
        Ok(Ok(order)) if is_last => Ok(Some(order.len() as u64)),
        Ok(_) => Ok(None),
        Err(fault) => Err(BenchError::Path(*fault)),
    }
}

/// Groups of nodes, and what remains where there are cycles.
pub type Groups = Result<Vec<Vec<usize>>, (Vec<Vec<usize>>, Vec<usize>)>;

/// The sum over groups, numbered from 0, of number times nodes.
pub fn depth_sum(found: Result<Groups, PathError>, is_last: bool) -> Outcome {
    match &found {
        Ok(Ok(groups)) if is_last => {
            let mut sum = 0u64;
            let mut depth = 0u64;
            for group in groups {
                sum = sum.wrapping_add(depth.wrapping_mul(group.len() as u64));
                depth = depth.wrapping_add(1);
            }
            Ok(Some(sum))
        }
        Ok(_) => Ok(None),
        Err(fault) => Err(BenchError::Path(*fault)),
    }
}
