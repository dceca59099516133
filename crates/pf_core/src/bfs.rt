//! The search for a path with fewest edges, over numbers.

ghost use Rattle.std.specs.Prelude.{◌≡◌, ◌<◌, ◌+◌, ℕ, ℤ, true, Contains, IfOk, IfErr, IfSome, MatchOption, slice_set, Some};
ghost use Rattle.pf_core.specs.declared.labels.Label.{Label};
ghost use Rattle.pf_core.specs.Labels.{HasLabel, Settles};
ghost use Rattle.pf_core.specs.Steps.{IsHop, NoGoal, IsBestNumbered};
ghost use Rattle.pf_core.specs.Numbered.{StandsBelow};

use crate::depth::Depth;
use crate::labels::{fill, path_to};
use crate::numbered::GoalGraph;
use crate::row::NoRow;
use crate::slot::Slot;
use pf_base::{Cost, PathError};
use std::alloc::Allocator;

/// Settles the label of a number, and answers its depth.
pub fn settle<A: Allocator>(labels: &mut Vec<Slot<()>, A>, number: usize) -> Depth
    requires { (l : Label (Unit {0})) × HasLabel labels.old.items number l }
    ensures { (l : Label (Unit {0})) → HasLabel labels.old.items number l → (result ≡ l.depth) × (labels.new.items ≡ slice_set labels.old.items number (Some (record l { settled = true }))) }
{
    let slot = &mut labels[number];
    match slot.label() {
        Some(label) => {
            slot.settle();
            label.depth
        }
        None => unreachable!(),
    }
}

/// The numbers on a path with fewest edges from one of the nodes found before to a goal, where each
/// step costs 1. The answer is `None` exactly where no walk leads to a goal.
pub fn fewest_edges_path<C: Cost, G: GoalGraph<C>, A: Allocator + Copy>(
    alloc: A,
    graph: &mut G,
) -> Result<Option<Vec<usize, A>>, PathError>
    requires graph { (g : G.Graph) × G.explores graph.old g }
    requires begins { (k : ℕ) → k < G.node_count graph.old → (s : G.Node) × G.stands graph.old k s }
    ensures graph { (g : G.Graph) → G.explores graph.old g → G.explores graph.new g }
    ensures inside { IfOk result (λ answer. IfSome answer (λ numbers. (k : ℕ) → Contains numbers.items k → k < G.node_count graph.new)) }
    ensures best { (g : G.Graph) → G.explores graph.old g → IsHop (G.step g)
        → IfOk result (λ answer. MatchOption answer (NoGoal (G.step g) (G.passes g) (StandsBelow (G.node_count graph.old) (G.stands graph.old)))
        (λ numbers. (t : ℤ) × IsBestNumbered (G.step g) (G.passes g) (StandsBelow (G.node_count graph.old) (G.stands graph.old)) (G.stands graph.new) numbers.items t)) }
    ensures errors { IfErr result (λ e. e ≡ PathError.OutOfMemory) }
{
    let mut labels: Vec<Slot<()>, A> = Vec::new(alloc);
    fill(&mut labels, graph.node_count(), Slot::first(()))?;
    let mut node = 0;
    'nodes: while node < labels.len() {
        if graph.is_goal(node) {
            let numbers = path_to(alloc, &labels, node)?;
            return Ok(Some(numbers));
        }
        graph.expand(node, &mut NoRow)?;
        let depth = settle(&mut labels, node);
        fill(
            &mut labels,
            graph.node_count(),
            Slot::behind(node, &depth, ()),
        )?;
        node += 1;
    }
    Ok(None)
}
