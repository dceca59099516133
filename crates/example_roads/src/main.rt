//! The three cheapest ways between two named places.
#![tactic(auto)]

use pf_edge_lists::EdgeList;
use pf_name_paths::yen;

/// Roads, each from one place to another, and what it costs to take it.
const ROADS: &[(&str, &str, u32)] = &[
    ("Arden", "Byford", 4),
    ("Arden", "Copley", 2),
    ("Byford", "Copley", 1),
    ("Byford", "Denby", 5),
    ("Copley", "Denby", 8),
    ("Copley", "Elmore", 10),
    ("Denby", "Elmore", 2),
];

/// Prints the `k` cheapest ways from one place to another, each with what it costs and the places on
/// it.
fn print_ways(
    rt: &HostRuntime,
    map: &EdgeList<'_, &str, u32>,
    from: &str,
    to: &str,
    k: usize,
) -> Result<(), anyhow::Error> {
    for (places, cost) in yen(rt.alloc(), map, &from, &to, k)? {
        print!(rt; "{cost}:")?;
        for place in places {
            print!(rt; " {place}")?;
        }
        rt.println("")?;
    }
    Ok(())
}

fn main(rt: HostRuntime) -> Result<(), anyhow::Error> {
    let map = EdgeList::new(rt.alloc(), ROADS)?;
    print_ways(&rt, &map, "Arden", "Elmore", 3)
}
