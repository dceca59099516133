//! Each call at a concrete type, with ample memory and with each growth refused in turn.

use crate::cells::{Board, Cell, StepsLeft, Target};
use pf_base::PathError;
use pf_state_estimates::{astar, astar_bag, astar_bag_collect, fringe, idastar};
use std::alloc::Global;
use std::process::Abort;
use test_allocator::Refusing;

/// The heap that refuses growths.
pub type Heap<'h> = &'h Refusing<Global>;

/// The cells that every path begins and ends with. Six paths of four steps lead from the one to the other.
pub const FIRST: Cell = Cell { row: 0, column: 0 };

pub const LAST: Cell = Cell { row: 2, column: 2 };

/// A call that an estimate leads.
#[derive(Clone, Copy, Debug)]
enum Call {
    /// `astar`.
    Astar,
    /// `fringe`.
    Fringe,
    /// `idastar`.
    Idastar,
    /// `astar_bag`, of which the paths are counted.
    Bag,
    /// `astar_bag_collect`.
    Gathered,
}

/// Each call.
const CALLS: &[Call] = &[
    Call::Astar,
    Call::Fringe,
    Call::Idastar,
    Call::Bag,
    Call::Gathered,
];

/// Whether these cells are a path of four steps from the first cell to the last.
pub fn are_a_path(cells: &[Cell]) -> bool {
    let mut steps = cells.iter();
    let Some(first) = steps.next() else {
        return false;
    };
    let mut last = *first;
    for cell in steps {
        if cell
            .row
            .abs_diff(last.row)
            .saturating_add(cell.column.abs_diff(last.column))
            != 1
        {
            return false;
        }
        last = *cell;
    }
    cells.len() == 5 && *first == FIRST && last == LAST
}

/// Whether the answer is a cheapest path.
fn is_cheapest(
    answer: Result<Option<(Vec<Cell, Heap<'_>>, u32)>, PathError>,
) -> Result<bool, PathError> {
    let answer = answer?;
    Ok(matches!(&answer, Some((path, 4)) if are_a_path(path)))
}

/// Whether all six cheapest paths are given, one after the other.
fn are_six(heap: Heap<'_>, target: &Target) -> Result<bool, PathError> {
    let Some((mut paths, cost)) = astar_bag(heap, &Board, &FIRST, &StepsLeft, target)? else {
        return Ok(false);
    };
    let mut count = 0u64;
    for path in &mut paths {
        if are_a_path(&path?) {
            count = count.saturating_add(1);
        }
    }
    Ok(cost == 4 && count == 6)
}

/// Whether all six cheapest paths are gathered.
fn are_gathered(
    answer: Result<Option<(Vec<Vec<Cell, Heap<'_>>, Heap<'_>>, u32)>, PathError>,
) -> Result<bool, PathError> {
    let answer = answer?;
    Ok(matches!(&answer, Some((paths, 4)) if paths.len() == 6))
}

/// Whether a call answers the only right answer.
fn is_right(heap: Heap<'_>, call: Call) -> Result<bool, PathError> {
    let target = Target { row: 2, column: 2 };
    match call {
        Call::Astar => is_cheapest(astar(heap, &Board, &FIRST, &StepsLeft, &target)),
        Call::Fringe => is_cheapest(fringe(heap, &Board, &FIRST, &StepsLeft, &target)),
        Call::Idastar => is_cheapest(idastar(heap, &Board, &FIRST, &StepsLeft, &target)),
        Call::Bag => are_six(heap, &target),
        Call::Gathered => are_gathered(astar_bag_collect(
            heap, &Board, &FIRST, &StepsLeft, &target,
        )),
    }
}

/// Runs a call with growth 0, 1, 2, .. refused alone, until a run meets no refusal, and answers how
/// many growths that run made. Each run before it has to answer that it was out of memory.
fn refuse_each_growth(rt: &impl Abort, ample: Global, call: Call) -> u64 {
    for growth in 0..1_000u64 {
        let heap = Refusing::new(ample);
        heap.refuse(growth, 1);
        let answer = is_right(&heap, call);
        if heap.pending() > 0 {
            assert!(rt; matches!(answer, Ok(true)), "{call:?} with no refusal");
            return growth;
        }
        assert!(rt;
            matches!(answer, Err(PathError::OutOfMemory)),
            "{call:?}, growth {growth}"
        );
    }
    panic!(rt; "every run of {call:?} met a refusal")
}

#[test]
fn calls_answer_and_refuse_each_growth(rt: HostRuntime) {
    for call in CALLS {
        let growths = refuse_each_growth(&rt, rt.alloc(), *call);
        assert!(rt; growths >= 6, "{call:?} makes {growths} growths");
    }
}
