//! Faults of estimates, by name.

ghost use Rattle.pf_estimated_names.specs.Internal.Faults.{IsWithin, IsNamedFault};

use crate::error::NameEstimateError;
use pf_base::Cost;
use pf_edge_lists::EdgeList;
use pf_estimated_graphs::EstimateError;
use pf_name_numbers::names::name_or;
use pf_tables::Graph;
use std::alloc::Allocator;
use std::hash::Hash;

/// A fault of the estimates of numbers, with the names that these stand for.
pub fn named_fault<'p, 'e, N, C, A>(
    list: &EdgeList<'e, N, C, A>,
    other: &'p N,
    fault: EstimateError,
) -> NameEstimateError<'p, N>
where
    'e: 'p,
    N: Eq + Hash,
    C: Cost,
    A: Allocator,
    requires { IsWithin N.eq list.now fault }
    ensures { IsNamedFault N.eq list.now other.now fault result }
{
    match fault {
        EstimateError::WrongNumberOfEstimates => unreachable!(),
        EstimateError::NegativeEstimate { node } => NameEstimateError::NegativeEstimate {
            name: name_or(list, other, node),
        },
        EstimateError::EstimateAtGoal { node } => NameEstimateError::EstimateAtGoal {
            name: name_or(list, other, node),
        },
        EstimateError::EstimateAboveEdge { node, place } => NameEstimateError::EstimateAboveEdge {
            from: name_or(list, other, node),
            to: match list.edge(node, place) {
                Some(edge) => name_or(list, other, edge.0),
                None => other,
            },
        },
    }
}
