//! The cheapest way between two named places.
#![tactic(auto)]

use pf_edge_lists::EdgeList;

/// Roads, each from one place to another, and what it costs to take it.
const ROADS: &[(&str, &str, u32)] = &[
    ("Arden", "Byford", 4),
    ("Arden", "Copley", 2),
    ("Byford", "Copley", 1),
    ("Byford", "Denby", 5),
    ("Copley", "Denby", 8),
    ("Copley", "Elmore", 10),
    ("Denby", "Elmore", 2),
];

/// Prints the cheapest way from one place to another: what it costs, and the places on it.
fn print_way(
    rt: &HostRuntime,
    map: &EdgeList<'_, &str, u32>,
    from: &str,
    to: &str,
) -> Result<(), anyhow::Error> {
    let Some((places, cost)) = map.dijkstra(rt.alloc(), &from, &to)? else {
        return Ok(rt.println("no way")?);
    };
    print!(rt; "{cost}:")?;
    for place in places {
        print!(rt; " {place}")?;
    }
    Ok(rt.println("")?)
}

fn main(rt: HostRuntime) -> Result<(), anyhow::Error> {
    let map = EdgeList::new(rt.alloc(), ROADS)?;
    print_way(&rt, &map, "Arden", "Elmore")
}
