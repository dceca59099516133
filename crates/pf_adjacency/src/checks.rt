//! The tests of edges between numbers.

ghost use Rattle.std.specs.Prelude.{map, MatchResult};
ghost use Rattle.pf_adjacency.specs.NumberedEdges.{AreSoundEdges, IsSoundEdge};
ghost use Rattle.pf_adjacency.specs.EdgeFaults.{IsEdgeFaultAt, IsFirstEdgeFault};

use crate::error::AdjacencyError;
use crate::numbered_edge::NumberedEdge;
use pf_base::Cost;
use pf_base::cost::arithmetic::is_negative;

/// Tests that an edge leads from a node below `size` to one, and costs no less than 0.
fn check_edge<C: Cost>(
    ends: (usize, usize, C),
    edge: usize,
    size: usize,
) -> Result<(), AdjacencyError>
    ensures { MatchResult result (λ _. IsSoundEdge C.value size ends) (IsEdgeFaultAt C.value size edge ends) }
{
    if ends.0 >= size {
        Err(AdjacencyError::SourceOutside { edge })
    } else if ends.1 >= size {
        Err(AdjacencyError::TargetOutside { edge })
    } else if is_negative(ends.2) {
        Err(AdjacencyError::NegativeCost { edge })
    } else {
        Ok(())
    }
}

/// Tests each edge, in order.
pub fn check_edges<E: NumberedEdge<C>, C: Cost>(
    edges: &[E],
    size: usize,
) -> Result<(), AdjacencyError>
    ensures { MatchResult result
        (λ _. AreSoundEdges C.value size (map E.ends edges.now))
        (IsFirstEdgeFault C.value size (map E.ends edges.now)) }
{
    for (number, edge) in edges.iter().enumerate() {
        check_edge(edge.ends(), number, size)?;
    }
    Ok(())
}
