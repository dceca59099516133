//! Three discs on three pegs: the fewest moves from the first peg to the last.
#![tactic(auto)]

mod discs;

use crate::discs::{Discs, Misplaced, Peg, Tower};
use pf_state_estimates::astar;
use pf_states::bfs;

fn main(rt: HostRuntime) -> Result<(), anyhow::Error> {
    let alloc = rt.alloc();
    let start = Tower {
        small: 0,
        middle: 0,
        large: 0,
    };
    let goal = Peg(2);
    match astar(alloc, &Discs, &start, &Misplaced, &goal)? {
        Some((path, moves)) => {
            println!(rt; "{moves} moves")?;
            for tower in &path {
                println!(rt; "{} {} {}", tower.small, tower.middle, tower.large)?;
            }
        }
        None => rt.println("no way")?,
    }
    match bfs(alloc, &Discs, &start, &goal)? {
        Some(path) => println!(rt; "{} towers without an estimate", path.len())?,
        None => rt.println("no way")?,
    }
    Ok(())
}
