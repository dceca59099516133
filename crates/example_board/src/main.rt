//! Ways through a maze: one with fewest steps, and one that costs least, found in two ways.
#![tactic(auto)]

use pf_boards::{Board, Steps};
use pf_table_breadth::bfs;
use pf_table_estimates::{BoardEstimates, astar};
use pf_tables::dijkstra;
use std::alloc::Global;

const ROWS: usize = 3;

const COLUMNS: usize = 7;

/// A `#` is blocked, to enter a `.` costs 1, and to enter a digit costs what it says.
const MAZE: [&str; ROWS] = ["..9....", ".#####.", "......."];

/// What it costs to enter a cell, or `None` where the cell is blocked.
fn cost_of(cell: char) -> Option<u32> {
    if cell == '.' {
        Some(1)
    } else {
        cell.to_digit(10)
    }
}

/// The row and the column of each node of a path.
fn positions(
    alloc: Global,
    board: &Board<'_, u32>,
    path: &[usize],
) -> Result<Vec<(usize, usize)>, anyhow::Error> {
    let mut positions = Vec::new(alloc);
    for node in path {
        if let Some(position) = board.position_of(*node) {
            positions.push(position)?;
        }
    }
    Ok(positions)
}

/// The cells of the maze, the first row first.
fn cells(alloc: Global) -> Result<Vec<Option<u32>>, anyhow::Error> {
    let mut cells = Vec::new(alloc);
    for line in MAZE {
        for cell in line.chars() {
            cells.push(cost_of(cell))?;
        }
    }
    Ok(cells)
}

/// Prints a way with fewest steps.
fn print_fewest_steps(
    rt: &HostRuntime,
    board: &Board<'_, u32>,
    from: usize,
    to: usize,
) -> Result<(), anyhow::Error> {
    match bfs(rt.alloc(), board, from, to)? {
        Some(path) => {
            let steps = positions(rt.alloc(), board, &path)?;
            println!(rt; "fewest steps: {steps:?}")?;
        }
        None => rt.println("no way")?,
    }
    Ok(())
}

/// Prints a way that costs least.
fn print_cheapest(
    rt: &HostRuntime,
    board: &Board<'_, u32>,
    from: usize,
    to: usize,
) -> Result<(), anyhow::Error> {
    match dijkstra(rt.alloc(), board, from, to)? {
        Some((path, cost)) => {
            let steps = positions(rt.alloc(), board, &path)?;
            println!(rt; "cost {cost}: {steps:?}")?;
        }
        None => rt.println("no way")?,
    }
    Ok(())
}

/// Prints what a way costs that was found along an estimate of the steps that remain.
fn print_estimated(
    rt: &HostRuntime,
    estimates: &BoardEstimates<'_, '_, u32>,
    from: usize,
) -> Result<(), anyhow::Error> {
    match astar(rt.alloc(), estimates, from)? {
        Some((_, cost)) => println!(rt; "cost along an estimate: {cost}")?,
        None => rt.println("no way")?,
    }
    Ok(())
}

fn main(rt: HostRuntime) -> Result<(), anyhow::Error> {
    let cells = cells(rt.alloc())?;
    let board = Board::new(ROWS, COLUMNS, &cells, Steps::Four)?;
    let from = board.number_of(0, 0);
    let to = board.number_of(0, 6);
    print_fewest_steps(&rt, &board, from, to)?;
    print_cheapest(&rt, &board, from, to)?;
    print_estimated(&rt, &BoardEstimates::new(&board, to), from)
}
