//! A sliding puzzle of eight tiles in three rows: the fewest moves that order it, also led by an estimate.
#![tactic(auto)]

mod slide;

use crate::slide::{Misplaced, Slide, Tiles};
use pf_state_estimates::astar;
use pf_states::bfs;

fn main(rt: HostRuntime) -> Result<(), anyhow::Error> {
    let start = Tiles {
        cells: [2, 5, 3, 1, 0, 6, 4, 7, 8],
        gap: 4,
    };
    let ordered = Tiles {
        cells: [1, 2, 3, 4, 5, 6, 7, 8, 0],
        gap: 8,
    };
    let alloc = rt.alloc();
    match astar(alloc, &Slide, &start, &Misplaced, &ordered)? {
        Some((_, moves)) => println!(rt; "{moves} moves")?,
        None => rt.println("no way")?,
    }
    match bfs(alloc, &Slide, &start, &ordered)? {
        Some(path) => {
            for tiles in &path {
                println!(rt; "{:?}", tiles.cells)?;
            }
        }
        None => rt.println("no way")?,
    }
    Ok(())
}
