//! The texts of the refusals.

use pathfinding::routes::RouteError;
use pf_base::PathError;
use pf_edge_lists::EdgeListError;
use pf_tables::TableError;
use std::alloc::Global;
use std::fmt::Display;

/// Whether an error is printed as this text.
fn is_printed<E: Display>(alloc: Global, error: &E, text: &str) -> bool {
    matches!(&error.to_string(alloc), Ok(printed) if printed.as_str() == text)
}

/// Refusals of searches, and their texts.
const REFUSALS: &[(PathError, &str)] = &[
    (PathError::OutOfMemory, "out of memory"),
    (PathError::CostOverflow, "cost overflow"),
    (PathError::UnknownVertex, "unknown vertex"),
    (PathError::StepOverflow, "step count overflow"),
    (PathError::NegativeCapacity, "negative capacity"),
];

/// Faults of runs, and their texts.
const FAULTS: &[(RouteError, &str)] = &[
    (RouteError::BadEdge(12), "line 12: bad edge"),
    (RouteError::CostOverflow, "cost overflow"),
    (RouteError::OutOfMemory, "out of memory"),
    (RouteError::ReadFailed, "read failed"),
    (RouteError::WriteFailed, "write failed"),
];

/// Refusals of tables, and their texts.
const TABLES: &[(TableError, &str)] = &[
    (
        TableError::TargetOutside { node: 3, place: 1 },
        "the edge at place 1 of node 3 leads to no node",
    ),
    (
        TableError::NegativeCost { node: 0, place: 2 },
        "the edge at place 2 of node 0 costs less than 0",
    ),
    (TableError::NoFirstOffset, "the offsets do not begin with 0"),
    (
        TableError::FallingOffset { node: 4 },
        "the offset after node 4 is below the one before it",
    ),
    (
        TableError::WrongLastOffset,
        "the last offset is not the number of edges",
    ),
    (
        TableError::WrongNumberOfCells,
        "the number of cells is not that of the rows times that of the columns",
    ),
    (
        TableError::NegativeCell { cell: 7 },
        "to enter cell 7 costs less than 0",
    ),
];

/// Refusals of lists of edges, and their texts.
const EDGE_LISTS: &[(EdgeListError, &str)] = &[
    (EdgeListError::OutOfMemory, "out of memory"),
    (
        EdgeListError::NegativeCost { edge: 12 },
        "edge 12 costs less than 0",
    ),
];

#[test]
fn refusals_have_their_texts(rt: HostRuntime) {
    for (refusal, text) in REFUSALS {
        assert!(rt; is_printed(rt.alloc(), refusal, text), "{text}");
    }
    for (fault, text) in FAULTS {
        assert!(rt; is_printed(rt.alloc(), fault, text), "{text}");
    }
}

#[test]
fn refusals_of_tables_have_their_texts(rt: HostRuntime) {
    for (refusal, text) in TABLES {
        assert!(rt; is_printed(rt.alloc(), refusal, text), "{text}");
    }
    for (refusal, text) in EDGE_LISTS {
        assert!(rt; is_printed(rt.alloc(), refusal, text), "{text}");
    }
}
