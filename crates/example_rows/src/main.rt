//! A cheapest path over rows of edges.
#![tactic(auto)]

use pf_tables::{Rows, dijkstra};

fn main(rt: HostRuntime) -> Result<(), anyhow::Error> {
    // Row n has the edges from the node n, each as the node that it leads to and its cost.
    let rows: [&[(usize, u32)]; 5] = [
        &[(1, 4), (2, 2)],
        &[(2, 1), (3, 5)],
        &[(3, 8), (4, 10)],
        &[(4, 2)],
        &[],
    ];
    let graph = Rows::new(&rows)?;
    match dijkstra(rt.alloc(), &graph, 0, 4)? {
        Some((path, cost)) => println!(rt; "{cost}: {path:?}")?,
        None => rt.println("no way")?,
    }
    Ok(())
}
