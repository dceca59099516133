//! Orders, components and ranked paths, with ample memory and with each growth refused in turn.

use crate::cells::{Board, Cell, Target};
use crate::tests::{FIRST, Heap, LAST, are_a_path};
use pf_base::PathError;
use pf_state_orders::{
    strongly_connected_component, strongly_connected_components, topological_sort,
    topological_sort_into_groups,
};
use pf_state_paths::{yen, yen_paths};
use std::alloc::Global;
use std::process::Abort;
use test_allocator::Refusing;

/// All cells of the board. No steps lead round.
const CELLS: &[Cell] = &[
    Cell { row: 0, column: 0 },
    Cell { row: 0, column: 1 },
    Cell { row: 0, column: 2 },
    Cell { row: 1, column: 0 },
    Cell { row: 1, column: 1 },
    Cell { row: 1, column: 2 },
    Cell { row: 2, column: 0 },
    Cell { row: 2, column: 1 },
    Cell { row: 2, column: 2 },
];

/// A call over the board.
#[derive(Clone, Copy, Debug)]
enum Call {
    /// `topological_sort`.
    Order,
    /// `topological_sort_into_groups`.
    Groups,
    /// `strongly_connected_components`.
    Components,
    /// `strongly_connected_component`.
    Component,
    /// `yen`.
    Paths,
    /// `yen_paths`.
    Walk,
}

/// Each call.
const CALLS: &[Call] = &[
    Call::Order,
    Call::Groups,
    Call::Components,
    Call::Component,
    Call::Paths,
    Call::Walk,
];

/// The cells of an answer, one group behind the other.
type Groups<'h> = Vec<Vec<Cell, Heap<'h>>, Heap<'h>>;

/// Whether an order has all cells, from the first to the last.
fn is_an_order(
    answer: Result<Result<Vec<Cell, Heap<'_>>, Cell>, PathError>,
) -> Result<bool, PathError> {
    let answer = answer?;
    Ok(
        matches!(&answer, Ok(order) if order.len() == 9 && order.first() == Some(&FIRST) && order.last() == Some(&LAST)),
    )
}

/// Whether the groups are the five diagonals of the board.
fn are_diagonals(
    answer: Result<Result<Groups<'_>, (Groups<'_>, Vec<Cell, Heap<'_>>)>, PathError>,
) -> Result<bool, PathError> {
    let answer = answer?;
    let Ok(groups) = &answer else {
        return Ok(false);
    };
    for (number, group) in groups.iter().enumerate() {
        for cell in group {
            if usize::from(cell.row.saturating_add(cell.column)) != number {
                return Ok(false);
            }
        }
    }
    Ok(groups.len() == 5)
}

/// Whether there are nine components.
fn are_nine(answer: Result<Groups<'_>, PathError>) -> Result<bool, PathError> {
    let answer = answer?;
    Ok(answer.len() == 9)
}

/// Whether a component has the first cell alone.
fn is_alone(answer: Result<Vec<Cell, Heap<'_>>, PathError>) -> Result<bool, PathError> {
    let answer = answer?;
    Ok(answer.as_slice() == [FIRST].as_slice())
}

/// Whether five paths of four steps are answered.
fn are_five(
    answer: Result<Vec<(Vec<Cell, Heap<'_>>, u32), Heap<'_>>, PathError>,
) -> Result<bool, PathError> {
    let answer = answer?;
    for (path, cost) in &answer {
        if *cost != 4 || !are_a_path(path) {
            return Ok(false);
        }
    }
    Ok(answer.len() == 5)
}

/// How many paths of four steps a walk gives until it ends or is refused.
fn count_paths<'h, W>(walk: W) -> Result<usize, PathError>
where
    W: Iterator<Item = Result<(Vec<Cell, Heap<'h>>, u32), PathError>>,
    requires { W.can_next walk }
{
    let mut count = 0usize;
    for path in walk.take(100) {
        let (path, cost) = path?;
        if cost == 4 && are_a_path(&path) {
            count = count.saturating_add(1);
        }
    }
    Ok(count)
}

/// Whether the walk over all paths gives six.
fn are_six(heap: Heap<'_>) -> Result<bool, PathError> {
    let goal = Target { row: 2, column: 2 };
    let mut walk = yen_paths(heap, &Board, &FIRST, &goal)?;
    // Nothing was refused, so that this changes nothing.
    walk.resume();
    Ok(count_paths(walk)? == 6)
}

/// Whether a call answers rightly.
fn is_right(heap: Heap<'_>, call: Call) -> Result<bool, PathError> {
    match call {
        Call::Order => is_an_order(topological_sort(heap, &Board, &[FIRST])),
        Call::Groups => are_diagonals(topological_sort_into_groups(heap, &Board, CELLS)),
        Call::Components => are_nine(strongly_connected_components(heap, &Board, &[FIRST])),
        Call::Component => is_alone(strongly_connected_component(heap, &Board, &FIRST)),
        Call::Paths => are_five(yen(heap, &Board, &FIRST, &Target { row: 2, column: 2 }, 5)),
        Call::Walk => are_six(heap),
    }
}

/// Runs a call with growth 0, 1, 2, .. refused alone, until a run meets no refusal, and answers how
/// many growths that run made. Each run before it has to answer that it was out of memory.
fn refuse_each_growth(rt: &impl Abort, ample: Global, call: Call) -> u64 {
    for growth in 0..1_000u64 {
        let heap = Refusing::new(ample);
        heap.refuse(growth, 1);
        let answer = is_right(&heap, call);
        if heap.pending() > 0 {
            assert!(rt; matches!(answer, Ok(true)), "{call:?} with no refusal");
            return growth;
        }
        assert!(rt;
            matches!(answer, Err(PathError::OutOfMemory)),
            "{call:?}, growth {growth}"
        );
    }
    panic!(rt; "every run of {call:?} met a refusal")
}

#[test]
fn orders_and_paths_refuse_each_growth(rt: HostRuntime) {
    for call in CALLS {
        let growths = refuse_each_growth(&rt, rt.alloc(), *call);
        assert!(rt; growths >= 3, "{call:?} makes {growths} growths");
    }
}
