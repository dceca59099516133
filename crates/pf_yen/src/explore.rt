//! All of a graph that paths to goals can go through, learned once.

ghost use Rattle.std.specs.Prelude.{◌≡◌, ◌<◌, ◌≤◌, ◌+◌, ◌^◌, length, OnOk, IfErr};
ghost use Rattle.pf_core.specs.Numbered.{Grows};
ghost use Rattle.pf_yen.specs.Internal.Learned.{IsLearned};

use crate::adjacency::Adjacency;
use pf_base::{Cost, PathError};
use pf_core::numbered::GoalGraph;
use std::alloc::Allocator;

/// Learns of the next number whether it is a goal, and its steps where it is none. They are written
/// into the row first.
fn explore_next<C: Cost, G: GoalGraph<C>, A: Allocator>(
    graph: &mut G,
    adjacency: &mut Adjacency<C, A>,
    row: &mut Vec<(usize, C), A>,
) -> Result<(), PathError>
    requires inside { length adjacency.old.rows < G.node_count graph.old }
    requires graph { (g : G.Graph) × G.explores graph.old g }
    ensures grows { Grows (G.node_count graph.old) (G.node_count graph.new) (G.stands graph.old) (G.stands graph.new) }
    ensures graph { (g : G.Graph) → G.explores graph.old g → G.explores graph.new g }
    ensures learned { (g : G.Graph) → G.explores graph.old g → IsLearned C.value (G.step g) (G.passes g) (G.stands graph.old) (G.node_count graph.old) adjacency.old
        → IsLearned C.value (G.step g) (G.passes g) (G.stands graph.new) (G.node_count graph.new) adjacency.new }
    ensures more { OnOk result (length adjacency.new.rows ≡ length adjacency.old.rows + 1) }
    ensures refused { IfErr result (λ e. e ≡ PathError.OutOfMemory) }
{
    let number = adjacency.len();
    let goal = graph.is_goal(number);
    row.clear();
    if !goal {
        graph.expand(number, row)?;
    }
    adjacency.add(row, goal)
}

/// Learns of all numbers that are found, and of those that are found by that. Where memory is
/// refused, what was learned stays.
pub fn explore<C: Cost, G: GoalGraph<C>, A: Allocator + Copy>(
    alloc: A,
    graph: &mut G,
    adjacency: &mut Adjacency<C, A>,
) -> Result<(), PathError>
    requires graph { (g : G.Graph) × G.explores graph.old g }
    ensures grows { Grows (G.node_count graph.old) (G.node_count graph.new) (G.stands graph.old) (G.stands graph.new) }
    ensures graph { (g : G.Graph) → G.explores graph.old g → G.explores graph.new g }
    ensures learned { (g : G.Graph) → G.explores graph.old g → IsLearned C.value (G.step g) (G.passes g) (G.stands graph.old) (G.node_count graph.old) adjacency.old
        → IsLearned C.value (G.step g) (G.passes g) (G.stands graph.new) (G.node_count graph.new) adjacency.new }
    ensures all { OnOk result (G.node_count graph.new ≤ length adjacency.new.rows) }
    ensures few { OnOk result (length adjacency.new.rows < 2 ^ 64) }
    ensures refused { IfErr result (λ e. e ≡ PathError.OutOfMemory) }
{
    let mut row = Vec::new(alloc);
    'numbers: while adjacency.len() < graph.node_count() {
        explore_next(graph, adjacency, &mut row)?;
    }
    Ok(())
}
