//! How much water comes from a well to a town, the pipes that let no more through, and what other
//! pipes change.
#![tactic(auto)]

use pf_flow::edmonds_karp::Edge;
use pf_flow_networks::FlowNetwork;

/// Pipes, each from one place to another, and how much it can carry.
type Pipes<'a> = &'a [Edge<&'static str, i32>];

/// Where pipes begin and end.
const PLACES: &[&str] = &["well", "hill", "lake", "mill", "town"];

/// The pipes that are laid.
const LAID: Pipes<'static> = &[
    (("well", "hill"), 7),
    (("well", "lake"), 4),
    (("hill", "lake"), 2),
    (("hill", "mill"), 3),
    (("lake", "mill"), 3),
    (("lake", "town"), 4),
    (("mill", "town"), 5),
];

/// Pipes that are made wider.
const WIDENED: Pipes<'static> = &[(("well", "lake"), 8), (("lake", "town"), 7)];

/// A pipe that is shut.
const SHUT: Pipes<'static> = &[(("hill", "mill"), 0)];

/// Prints pipes with what they carry.
fn print_pipes(rt: &HostRuntime, head: &str, pipes: Pipes<'_>) -> Result<(), anyhow::Error> {
    println!(rt; "{head}:")?;
    for ((from, to), amount) in pipes {
        println!(rt; "  {from} to {to}: {amount}")?;
    }
    Ok(())
}

/// Changes pipes, and prints what comes to the town then.
fn change(
    rt: &HostRuntime,
    network: &mut FlowNetwork<&'static str, i32>,
    pipes: Pipes<'_>,
) -> Result<(), anyhow::Error> {
    for ((from, to), capacity) in pipes {
        network.set_capacity(rt.alloc(), from, to, *capacity)?;
    }
    let (flows, total, cut) = network.augment(rt.alloc())?;
    println!(rt; "{total} in all")?;
    print_pipes(rt, "flows", &flows)?;
    print_pipes(rt, "narrowest", &cut)
}

fn main(rt: HostRuntime) -> Result<(), anyhow::Error> {
    let mut network = FlowNetwork::new(rt.alloc(), PLACES, &"well", &"town")?;
    change(&rt, &mut network, LAID)?;
    rt.println("")?;
    change(&rt, &mut network, WIDENED)?;
    rt.println("")?;
    change(&rt, &mut network, SHUT)
}
