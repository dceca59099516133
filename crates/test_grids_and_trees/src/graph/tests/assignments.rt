//! Best assignments: worked values, and a table of one's own that counts its reads.

ghost use Rattle.std.specs.Prelude.{◌≤◌};

use crate::graph::tests::Heap;
use pf_assignment::kuhn_munkres::{
    Weights, kuhn_munkres, kuhn_munkres_min, kuhn_munkres_tallied, weights_fit,
};
use pf_base::{PathError, Tally};
use pf_matrix::{Matrix, MatrixFormatError, from_slices};
use std::cell::Cell;
use test_allocator::Refusing;

/// Which total a search is for.
pub(super) enum Best {
    /// The greatest, by `kuhn_munkres`.
    Greatest,
    /// The least, by `kuhn_munkres_min`.
    Least,
}

/// Rows of weights, which total is asked for, what it is, and the columns where no others give it.
pub(super) type Assignment<'a> = (&'a [&'a [i32]], Best, i32, Option<&'a [usize]>);

const ASSIGNMENTS: &[Assignment<'static>] = &[
    (&[&[1]], Best::Greatest, 1, Some(&[0])),
    (&[&[1, 1], &[1, 1]], Best::Greatest, 2, None),
    (&[&[1, 2], &[1, 1]], Best::Greatest, 3, Some(&[1, 0])),
    (&[&[1, 1], &[2, 1]], Best::Greatest, 3, Some(&[1, 0])),
    (&[&[2, 1], &[1, 1]], Best::Greatest, 3, Some(&[0, 1])),
    (&[&[1, 1], &[1, 2]], Best::Greatest, 3, Some(&[0, 1])),
    (
        &[&[1, 2, 3], &[6, 5, 4], &[1, 1, 1]],
        Best::Greatest,
        10,
        Some(&[2, 0, 1]),
    ),
    (
        &[&[-1, -2, -3], &[-6, -5, -4], &[-1, -1, -1]],
        Best::Greatest,
        -6,
        Some(&[0, 2, 1]),
    ),
    (
        &[&[100, 110, 90], &[95, 130, 75], &[95, 140, 65]],
        Best::Greatest,
        325,
        Some(&[2, 0, 1]),
    ),
    (
        &[
            &[62, 78, 50, 101, 82],
            &[71, 84, 61, 73, 59],
            &[87, 92, 111, 71, 81],
            &[48, 64, 87, 77, 80],
        ],
        Best::Greatest,
        376,
        Some(&[3, 1, 2, 4]),
    ),
    (
        &[
            &[7, 53, 183, 439, 863],
            &[497, 383, 563, 79, 973],
            &[287, 63, 343, 169, 583],
            &[627, 343, 773, 959, 943],
            &[767, 473, 103, 699, 303],
        ],
        Best::Greatest,
        3315,
        None,
    ),
    (&[], Best::Greatest, 0, Some(&[])),
    (&[], Best::Least, 0, Some(&[])),
    (
        &[
            &[90, 75, 75, 80],
            &[35, 85, 55, 65],
            &[125, 95, 90, 105],
            &[45, 110, 95, 115],
        ],
        Best::Least,
        275,
        None,
    ),
    (&[&[1, 2, 3], &[2, 4, 6], &[3, 6, 9]], Best::Least, 10, None),
    (
        &[&[400, 150, 400], &[400, 450, 600], &[300, 225, 300]],
        Best::Least,
        850,
        None,
    ),
    (
        &[
            &[82, 83, 69, 92],
            &[77, 37, 49, 92],
            &[11, 69, 5, 86],
            &[8, 9, 98, 23],
        ],
        Best::Least,
        140,
        None,
    ),
    (
        &[&[100, 110, 90], &[95, 130, 75], &[95, 140, 65]],
        Best::Least,
        270,
        None,
    ),
];

/// The best total and the columns. The table has to be one that both searches take.
fn assigned<'h>(
    heap: Heap<'h>,
    weights: &Matrix<i32, Heap<'h>>,
    best: &Best,
) -> Result<(i32, Vec<usize, Heap<'h>>), PathError> {
    if weights.rows() > weights.columns() || !weights_fit(weights) {
        return Err(PathError::CostOverflow);
    }
    match best {
        Best::Greatest => kuhn_munkres(heap, weights),
        Best::Least => kuhn_munkres_min(heap, weights),
    }
}

/// Whether a search over a table, which is made of the same memory, answers what it should.
pub(super) fn is_assigned(heap: Heap<'_>, wanted: &Assignment<'_>) -> Result<bool, PathError> {
    let (rows, best, total, chosen) = wanted;
    let table = match from_slices(heap, rows) {
        Ok(table) => table,
        Err(MatrixFormatError::OutOfMemory) => return Err(PathError::OutOfMemory),
        Err(_) => return Ok(false),
    };
    let (found, columns) = assigned(heap, &table, best)?;
    Ok(
        found == *total
            && columns.len() == rows.len()
            && (chosen.is_none() || *chosen == Some(columns.as_slice())),
    )
}

#[test]
fn finds_the_best(rt: HostRuntime) {
    let heap = Refusing::new(rt.alloc());
    for (number, wanted) in ASSIGNMENTS.iter().enumerate() {
        assert!(rt; is_assigned(&heap, wanted) == Ok(true), "row {number}");
    }
}

/// Whether a table of this one weight is searched, and its weight found.
fn is_found_alone(heap: Heap<'_>, table: &Matrix<i8, Heap<'_>>, weight: i8) -> bool {
    if table.rows() > table.columns() || !weights_fit(table) {
        return false;
    }
    let answer = kuhn_munkres(heap, table);
    matches!(
        &answer,
        Ok((total, columns)) if *total == weight && columns.as_slice() == [0].as_slice()
    )
}

#[test]
fn the_test_takes_no_memory(rt: HostRuntime) {
    let heap = Refusing::new(rt.alloc());
    for (weight, fits) in [(21i8, true), (22, false), (-128, false), (-21, true)] {
        let table = Matrix::new(&heap, 1, 1, weight).expect(&rt, "memory");
        heap.refuse(0, u64::MAX);
        assert!(rt;
            weights_fit(&table) == fits && heap.pending() == u64::MAX,
            "{weight}"
        );
        heap.refuse(0, 0);
        assert!(rt; is_found_alone(&heap, &table, weight) == fits, "{weight}");
    }
}

/// A square table of row times column, or of the negations of that. Each read of a weight is counted
/// in a cell that it shares with its negation.
#[derive(Drop)]
struct Products<'c> {
    size: usize,
    negated: bool,
    reads: &'c Cell<u64>,
    ghost small: { size ≤ 1000 },
}

impl Weights<i64> for Products<'_> {
    ghost use Rattle.test_grids_and_trees.specs.AssignmentProducts.{product_table};

    ghost table = { λ p. product_table p.negated p.size };

    fn rows(&self) -> usize {
        self.size
    }

    fn columns(&self) -> usize {
        self.size
    }

    fn at(&self, row: usize, column: usize) -> i64 {
        self.reads.set(self.reads.get().wrapping_add(1));
        let product = (row * column) as i64;
        if self.negated { -product } else { product }
    }

    fn neg(&self) -> Result<Self, PathError> {
        Ok(Products {
            size: self.size,
            negated: !self.negated,
            reads: self.reads,
        })
    }
}

/// Sizes of such a table, with the greatest total, where each row has its own column, and the least
/// one, where it has the column of its number from the last one back.
const PRODUCTS: &[(usize, i64, i64)] = &[(3, 5, 1), (24, 4324, 2024)];

/// Whether an assignment has this total, and each row has its column.
fn is_diagonal(
    answer: Result<(i64, Vec<usize>), PathError>,
    wanted: i64,
    size: usize,
    is_back: bool,
) -> bool {
    let Ok((total, columns)) = &answer else {
        return false;
    };
    for (row, column) in columns.iter().enumerate() {
        let place = if is_back {
            size.saturating_sub(row).saturating_sub(1)
        } else {
            row
        };
        if *column != place {
            return false;
        }
    }
    *total == wanted && columns.len() == size
}

#[test]
fn reads_few_weights(rt: HostRuntime) {
    let alloc = rt.alloc();
    for (size, greatest, least) in PRODUCTS {
        let size = *size;
        assert!(rt; size <= 1000);
        let reads = Cell::new(0u64);
        let products = Products {
            size,
            negated: false,
            reads: &reads,
        };
        assert!(rt; weights_fit(&products));
        let mut tally = Tally::new();
        let found = kuhn_munkres_tallied(alloc, &products, &mut tally);
        assert!(rt; is_diagonal(found, *greatest, size, false));
        let found = kuhn_munkres_min(alloc, &products);
        assert!(rt; is_diagonal(found, *least, size, true));
        assert!(rt; reads.get() <= 20_000, "{}", reads.get());
    }
}
