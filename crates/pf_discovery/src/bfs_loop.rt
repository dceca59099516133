//! The search for a loop with fewest edges, over numbers.

ghost use Rattle.std.specs.Prelude.{◌≡◌, ◌<◌, ◌≤◌, ℕ, Contains, IfOk, IfErr, IfSome, MatchOption};
ghost use Rattle.pf_core.specs.Steps.{IsHop};
ghost use Rattle.pf_discovery.specs.Loops.{NoLoop, IsBestNumberedLoop};
ghost use Rattle.pf_core.specs.Numbered.{StandsBelow};

use pf_base::{Cost, PathError};
use pf_core::bfs::settle;
use pf_core::labels::{fill, path_to};
use pf_core::numbered::NumberedGraph;
use pf_core::slot::Slot;
use std::alloc::Allocator;

/// The first number in the row that is below the limit.
fn first_below<C: Cost>(row: &[(usize, C)], limit: usize) -> Option<usize>
    ensures { MatchOption result
        ((j : ℕ) (c : C) → Contains row.now (j, c) → limit ≤ j)
        (λ j. (j < limit) × ((c : C) × Contains row.now (j, c))) }
{
    'steps: for (number, _) in row {
        if *number < limit {
            return Some(*number);
        }
    }
    None
}

/// The numbers on a loop with fewest edges from one of the nodes found before to one of them, where
/// each step costs 1. The answer is `None` exactly where there is no loop.
pub fn fewest_edges_loop<C: Cost, G: NumberedGraph<C>, A: Allocator + Copy>(
    alloc: A,
    graph: &mut G,
) -> Result<Option<Vec<usize, A>>, PathError>
    requires graph { (g : G.Graph) × G.explores graph.old g }
    requires begins { (k : ℕ) → k < G.node_count graph.old → (s : G.Node) × G.stands graph.old k s }
    ensures graph { (g : G.Graph) → G.explores graph.old g → G.explores graph.new g }
    ensures inside { IfOk result (λ answer. IfSome answer (λ numbers. (k : ℕ) → Contains numbers.items k → k < G.node_count graph.new)) }
    ensures best { (g : G.Graph) → G.explores graph.old g → IsHop (G.step g)
        → IfOk result (λ answer. MatchOption answer (NoLoop (G.step g) (StandsBelow (G.node_count graph.old) (G.stands graph.old)))
        (λ numbers. IsBestNumberedLoop (G.step g) (StandsBelow (G.node_count graph.old) (G.stands graph.old)) (G.stands graph.new) numbers.items)) }
    ensures errors { IfErr result (λ e. e ≡ PathError.OutOfMemory) }
{
    let starts = graph.node_count();
    let mut labels: Vec<Slot<()>, A> = Vec::new(alloc);
    fill(&mut labels, starts, Slot::first(()))?;
    let mut row: Vec<(usize, C), A> = Vec::new(alloc);
    let mut node = 0;
    'nodes: while node < labels.len() {
        graph.expand(node, &mut row)?;
        if let Some(start) = first_below(&row, starts) {
            let mut numbers = path_to(alloc, &labels, node)?;
            numbers.push(start)?;
            return Ok(Some(numbers));
        }
        let depth = settle(&mut labels, node);
        fill(
            &mut labels,
            graph.node_count(),
            Slot::behind(node, &depth, ()),
        )?;
        node += 1;
    }
    Ok(None)
}
