//! The steps of a build, in rounds of those that can be taken together.
#![tactic(auto)]

use pf_edge_lists::EdgeList;
use pf_name_orders::{
    strongly_connected_component, topological_sort, topological_sort_into_groups,
};

/// All steps. Nothing needs `notes`, and it needs nothing.
const STEPS: &[&str] = &["fetch", "parse", "link", "test", "pack", "notes"];

/// Each step, a step that needs it, and the minutes of the first.
const NEEDS: &[(&str, &str, u32)] = &[
    ("fetch", "parse", 3),
    ("parse", "link", 5),
    ("fetch", "link", 3),
    ("link", "test", 2),
    ("link", "pack", 2),
];

/// The same, where a tool is built by what it builds.
const RING: &[(&str, &str, u32)] = &[
    ("fetch", "parse", 3),
    ("parse", "link", 5),
    ("link", "parse", 2),
    ("link", "pack", 2),
];

/// Prints steps in a line.
fn print_steps(rt: &HostRuntime, head: &str, steps: &[&&str]) -> Result<(), anyhow::Error> {
    print!(rt; "{head}:")?;
    for step in steps {
        print!(rt; " {step}")?;
    }
    Ok(rt.println("")?)
}

/// Prints the rounds of a plan, and behind them the steps that no round has, since a ring leads to
/// them, and those that one ring of steps has.
fn print_plan(rt: &HostRuntime, plan: &EdgeList<'_, &str, u32>) -> Result<(), anyhow::Error> {
    let alloc = rt.alloc();
    let (rounds, ringed) = match topological_sort_into_groups(alloc, plan)? {
        Ok(rounds) => (rounds, Vec::new(alloc)),
        Err(both) => both,
    };
    for round in &rounds {
        print_steps(rt, "round", round)?;
    }
    if !ringed.is_empty() {
        print_steps(rt, "never", &ringed)?;
    }
    if let Err(step) = topological_sort(alloc, plan)? {
        print_steps(
            rt,
            "ring",
            &strongly_connected_component(alloc, plan, step)?,
        )?;
    }
    Ok(())
}

fn main(rt: HostRuntime) -> Result<(), anyhow::Error> {
    let alloc = rt.alloc();
    print_plan(&rt, &EdgeList::with_names(alloc, STEPS, NEEDS)?)?;
    print_plan(&rt, &EdgeList::new(alloc, RING)?)
}
