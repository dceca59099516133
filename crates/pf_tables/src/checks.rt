//! The tests that the makers of tables share.

ghost use Rattle.std.specs.Prelude.{◌≤◌, ◌≤ℤ◌, ◌<ℤ◌, pos, length, MatchBool, MatchResult};
ghost use Rattle.pf_tables.specs.Graphs.{part};
ghost use Rattle.pf_tables.specs.Faults.{IsSound, IsSoundRow, IsFaultAt, IsFirstFaultOfRow};

use crate::error::TableError;
use crate::row::Row;
use pf_base::Cost;
use pf_base::cost::arithmetic::is_negative;

/// Tests whether an edge leads to a node below `size` and costs no less than 0.
fn check_edge<C: Cost>(
    edge: (usize, C),
    node: usize,
    place: usize,
    size: usize,
) -> Result<(), TableError>
    ensures { MatchResult result (λ _. IsSound C.value size edge) (IsFaultAt C.value size node place edge) }
{
    if edge.0 >= size {
        Err(TableError::TargetOutside { node, place })
    } else if is_negative(edge.1) {
        Err(TableError::NegativeCost { node, place })
    } else {
        Ok(())
    }
}

/// Tests each edge of a part of a row, which is the row of `node`.
pub fn check_part<C: Cost, R: Row<C>>(
    edges: &R,
    first: usize,
    end: usize,
    node: usize,
    size: usize,
) -> Result<(), TableError>
    requires rising { first ≤ end }
    requires within { end ≤ length (R.edges edges.now) }
    ensures { MatchResult result
        (λ _. IsSoundRow C.value size (part first end (R.edges edges.now)))
        (IsFirstFaultOfRow C.value size node (part first end (R.edges edges.now))) }
{
    for number in first..end {
        check_edge(edges.edge(number), node, number - first, size)?;
    }
    Ok(())
}
