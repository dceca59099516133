//! Lists of calls beside a plain table of the same sizes.

use pf_grid::Grid;
use std::alloc::Global;
use std::process::Abort;

const WIDTHS: &[usize] = &[0, 1, 63, 64, 65, 130];

const HEIGHT: usize = 5;

/// The next number of a sequence that looks random (G. Marsaglia, "Xorshift RNGs", 2003).
fn next_number(state: u64) -> u64 {
    let a = state ^ (state << 13);
    let b = a ^ (a >> 7);
    b ^ (b << 17)
}

/// What a call makes of the vertex at a position, by what it was.
fn after(call: u64, here: bool, border: bool, was: bool) -> bool {
    match call {
        0..=9 => was || here,
        10..=14 => was && !here,
        15 => !was,
        16 => was || border,
        17 => was && !border,
        18 => true,
        _ => false,
    }
}

/// Makes the call of this number at a position, and answers whether it was refused.
fn is_refused(grid: &mut Grid, call: u64, position: (usize, usize)) -> bool {
    match call {
        0..=9 => return grid.add_vertex(position).is_err(),
        10..=14 => return grid.remove_vertex(position).is_err(),
        15 => grid.invert(),
        16 => return grid.add_borders().is_err(),
        17 => return grid.remove_borders().is_err(),
        18 => {
            grid.fill();
        }
        _ => {
            grid.clear();
        }
    }
    false
}

/// A position, and whether it is a vertex.
type Place = ((usize, usize), bool);

/// All positions by rows, none of which is a vertex.
fn empty_table(rt: &impl Abort, alloc: Global, width: usize) -> Vec<Place> {
    let mut table = Vec::new(alloc);
    for y in 0..HEIGHT {
        for x in 0..width {
            table.push(((x, y), false)).expect(rt, "memory");
        }
    }
    table
}

/// Makes of each place of a table what a call makes of it.
fn change_table(table: &mut [Place], width: usize, call: u64, position: (usize, usize)) {
    let last = width.saturating_sub(1);
    for (at, is_vertex) in table.iter_mut() {
        let border = at.0 == 0 || at.1 == 0 || at.1 == HEIGHT - 1 || at.0 == last;
        *is_vertex = after(call, *at == position, border, *is_vertex);
    }
}

/// Whether a grid has the vertices of this table.
fn is_as_table(grid: &Grid, table: &[Place]) -> bool {
    let mut vertices = grid.iter();
    let mut count = 0usize;
    for (at, is_vertex) in table {
        if *is_vertex {
            if vertices.next() != Some(*at) {
                return false;
            }
            count = count.saturating_add(1);
        }
    }
    vertices.next().is_none()
        && grid.vertices_len() == count
        && grid.is_empty() == (count == 0)
        && grid.is_full() == (count == table.len())
}

#[test]
fn as_a_plain_table(rt: HostRuntime) {
    let alloc = rt.alloc();
    let mut state = 88_172_645_463_325_252u64;
    for width in WIDTHS.iter().copied() {
        let mut grid = Grid::new(alloc, width, HEIGHT).expect(&rt, "memory");
        let mut table = empty_table(&rt, alloc, width);
        for _ in 0..200u64 {
            state = next_number(state);
            let call = state % 20;
            let position = ((state >> 8) as usize % 131, (state >> 32) as usize % 6);
            assert!(rt; !is_refused(&mut grid, call, position));
            change_table(&mut table, width, call, position);
            assert!(rt; is_as_table(&grid, &table));
        }
    }
}
