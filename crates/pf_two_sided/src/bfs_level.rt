//! One side of a search from both ends: nodes by number of edges, a whole level at a time.

ghost use Rattle.std.specs.Prelude.{◌≡◌, ◌<◌, ◌≤◌, ◌+◌, ◌↔◌, ℕ, Bool, OnOk, IfOk, IfErr, MatchOption, length};
ghost use Rattle.pf_core.specs.declared.labels.Label.{Label};
ghost use Rattle.pf_core.specs.Labels.{HasLabel, by_depth};
ghost use Rattle.pf_core.specs.Steps.{IsHop};
ghost use Rattle.pf_core.specs.Search.{IsSearch};
ghost use Rattle.pf_core.specs.Breadth.{IsWave, IsLayered};
ghost use Rattle.pf_two_sided.specs.Internal.Mirrors.{NoneMeets};
ghost use Rattle.pf_core.specs.Numbered.{Grows};
ghost use Rattle.pf_two_sided.specs.Internal.Sides.{opposite};

use crate::sides::{Side, TwoSidedGraph};
use pf_base::{Cost, PathError};
use pf_core::bfs::settle;
use pf_core::labels::fill;
use pf_core::slot::Slot;
use std::alloc::Allocator;

/// The labels of the nodes that were found on one side, of which those before `next` were visited.
#[derive(Drop)]
pub struct Wave<A: Allocator> {
    pub labels: Vec<Slot<()>, A>,
    pub next: usize,
}

/// A node that both sides found: its number on the side that found it last, and that on the other.
#[derive(Clone, Copy)]
pub struct Meeting {
    pub here: usize,
    pub across: usize,
}

/// Visits the next node of a side.
fn visit<C: Cost, G: TwoSidedGraph<C>, A: Allocator + Copy>(
    graph: &mut G,
    side: Side,
    wave: &mut Wave<A>,
) -> Result<(), PathError>
    requires graph { (g : G.Graph) × G.explores graph.old g }
    requires wave { IsWave (G.node_count graph.old side) wave.old.labels.items wave.old.next }
    requires left { wave.old.next < length wave.old.labels.items }
    ensures graph { (g : G.Graph) → G.explores graph.old g → G.explores graph.new g }
    ensures grows { Grows (G.node_count graph.old side) (G.node_count graph.new side) (G.stands graph.old side) (G.stands graph.new side) }
    ensures other { (G.node_count graph.new (opposite side) ≡ G.node_count graph.old (opposite side)) × ((k : ℕ) (x : G.Node) → G.stands graph.new (opposite side) k x ↔ G.stands graph.old (opposite side) k x) }
    ensures wave { OnOk result (IsWave (G.node_count graph.new side) wave.new.labels.items wave.new.next) }
    ensures next { OnOk result (wave.new.next ≡ wave.old.next + 1) }
    ensures layered { OnOk result ((level depth : ℕ) → wave.old.next < level → level ≤ length wave.old.labels.items
        → IsLayered wave.old.labels.items wave.old.next level depth → IsLayered wave.new.labels.items wave.new.next level depth) }
    ensures search { OnOk result ((g : G.Graph) → G.explores graph.old g → IsHop (G.step g side) → (root : ℕ → Bool)
        → IsSearch by_depth (G.step g side) root (G.stands graph.old side) wave.old.labels.items
        → IsSearch by_depth (G.step g side) root (G.stands graph.new side) wave.new.labels.items) }
    ensures errors { IfErr result (λ e. e ≡ PathError.OutOfMemory) }
{
    let node = wave.next;
    graph.expand(side, node)?;
    let depth = settle(&mut wave.labels, node);
    fill(
        &mut wave.labels,
        graph.node_count(side),
        Slot::behind(node, &depth, ()),
    )?;
    wave.next = node + 1;
    Ok(())
}

/// The first number from `first` on whose node the other side found too.
pub fn first_meeting<C: Cost, G: TwoSidedGraph<C>>(
    graph: &G,
    side: Side,
    first: usize,
) -> Option<Meeting>
    ensures met { MatchOption result
        ((j k : ℕ) (x : G.Node) → first ≤ j → G.stands graph.now side j x → ¬ (G.stands graph.now (opposite side) k x))
        (λ m. (m.here < G.node_count graph.now side) × (m.across < G.node_count graph.now (opposite side)) × ((x : G.Node) → G.stands graph.now side m.here x → G.stands graph.now (opposite side) m.across x)) }
{
    'numbers: for number in first..graph.node_count(side) {
        if let Some(across) = graph.number_across(side, number) {
            return Some(Meeting {
                here: number,
                across,
            });
        }
    }
    None
}

/// Visits the nodes of the next level, up to the first that leads to a node that the other side found
/// too.
pub fn advance<C: Cost, G: TwoSidedGraph<C>, A: Allocator + Copy>(
    graph: &mut G,
    side: Side,
    wave: &mut Wave<A>,
) -> Result<Option<Meeting>, PathError>
    requires graph { (g : G.Graph) × G.explores graph.old g }
    requires wave { IsWave (G.node_count graph.old side) wave.old.labels.items wave.old.next }
    ensures graph { (g : G.Graph) → G.explores graph.old g → G.explores graph.new g }
    ensures grows { Grows (G.node_count graph.old side) (G.node_count graph.new side) (G.stands graph.old side) (G.stands graph.new side) }
    ensures other { (G.node_count graph.new (opposite side) ≡ G.node_count graph.old (opposite side)) × ((k : ℕ) (x : G.Node) → G.stands graph.new (opposite side) k x ↔ G.stands graph.old (opposite side) k x) }
    ensures wave { OnOk result (IsWave (G.node_count graph.new side) wave.new.labels.items wave.new.next) }
    ensures search { OnOk result ((g : G.Graph) → G.explores graph.old g → IsHop (G.step g side) → (root : ℕ → Bool)
        → IsSearch by_depth (G.step g side) root (G.stands graph.old side) wave.old.labels.items
        → IsSearch by_depth (G.step g side) root (G.stands graph.new side) wave.new.labels.items) }
    ensures level { IfOk result (λ answer. MatchOption answer
        ((wave.new.next ≡ length wave.old.labels.items)
        × (NoneMeets (G.stands graph.old side) (G.stands graph.old (opposite side)) → NoneMeets (G.stands graph.new side) (G.stands graph.new (opposite side))))
        (λ m. (m.here < G.node_count graph.new side) × (m.across < G.node_count graph.old (opposite side)) × ((x : G.Node) → G.stands graph.new side m.here x → G.stands graph.old (opposite side) m.across x))) }
    ensures layered { OnOk result ((depth : ℕ) → IsLayered wave.old.labels.items wave.old.next (length wave.old.labels.items) depth
        → IsLayered wave.new.labels.items wave.new.next (length wave.old.labels.items) depth) }
    ensures errors { IfErr result (λ e. e ≡ PathError.OutOfMemory) }
{
    let level = wave.labels.len();
    'level: while wave.next < level {
        let first = wave.labels.len();
        visit(graph, side, wave)?;
        if let Some(meeting) = first_meeting(graph, side, first) {
            return Ok(Some(meeting));
        }
    }
    Ok(None)
}
