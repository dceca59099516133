//! The search for a path with fewest edges from both ends, over numbers.

ghost use Rattle.std.specs.Prelude.{◌≡◌, ◌<◌, ◌≤◌, ◌+◌, ◌^◌, ◌⊎◌, ℕ, Bool, Contains, OnOk, IfOk, IfErr, IfSome, MatchOption, length};
ghost use Rattle.pf_core.specs.declared.labels.Label.{Label};
ghost use Rattle.pf_two_sided.specs.declared.sides.Side.{Side};
ghost use Rattle.pf_core.specs.Labels.{HasLabel, IsChain, IsTree, by_depth};
ghost use Rattle.pf_core.specs.Steps.{IsHop};
ghost use Rattle.pf_core.specs.Search.{IsSearch};
ghost use Rattle.pf_core.specs.Breadth.{IsWave, IsLayered, first_labels};
ghost use Rattle.pf_two_sided.specs.Internal.Mirrors.{NoneMeets, IsMirrored, NoWalkBetween, IsBestMeeting};
ghost use Rattle.pf_core.specs.Numbered.{Grows, StandsBelow};

use crate::bfs_level::{Wave, advance, first_meeting};
use crate::sides::{Side, TwoSidedGraph};
use pf_base::{Cost, PathError};
use pf_core::labels::{fill, path_to};
use pf_core::slot::Slot;
use std::alloc::Allocator;

/// The two halves of a path, each as the numbers of its side from its end of the path to the node at
/// which they meet.
#[derive(Drop)]
pub struct Halves<A: Allocator> {
    pub forth: Vec<usize, A>,
    pub back: Vec<usize, A>,
}

/// The labels of a side before its first level.
fn begin<A: Allocator + Copy>(alloc: A, found: usize) -> Result<Wave<A>, PathError>
    ensures begun { IfOk result (λ wave. (wave.next ≡ 0) × (wave.labels.items ≡ first_labels found) × (found ≤ 2 ^ 62)) }
    ensures refused { IfErr result (λ e. e ≡ PathError.OutOfMemory) }
{
    let mut labels = Vec::new(alloc);
    fill(&mut labels, found, Slot::first(()))?;
    Ok(Wave { labels, next: 0 })
}

/// Visits the nodes of a level on the side that has fewer of them, up to the first that leads to a node
/// that the other side found too. Answers its numbers on the way forth and on the way back.
fn advance_smaller<C: Cost, G: TwoSidedGraph<C>, A: Allocator + Copy>(
    graph: &mut G,
    forth: &mut Wave<A>,
    back: &mut Wave<A>,
) -> Result<Option<(usize, usize)>, PathError>
    requires graph { (g : G.Graph) × G.explores graph.old g }
    requires forth { IsWave (G.node_count graph.old Side.Forth) forth.old.labels.items forth.old.next }
    requires back { IsWave (G.node_count graph.old Side.Back) back.old.labels.items back.old.next }
    requires left { (forth.old.next < length forth.old.labels.items) × (back.old.next < length back.old.labels.items) }
    ensures graph { (g : G.Graph) → G.explores graph.old g → G.explores graph.new g }
    ensures grows_forth { Grows (G.node_count graph.old Side.Forth) (G.node_count graph.new Side.Forth) (G.stands graph.old Side.Forth) (G.stands graph.new Side.Forth) }
    ensures grows_back { Grows (G.node_count graph.old Side.Back) (G.node_count graph.new Side.Back) (G.stands graph.old Side.Back) (G.stands graph.new Side.Back) }
    ensures forth { OnOk result (IsWave (G.node_count graph.new Side.Forth) forth.new.labels.items forth.new.next) }
    ensures back { OnOk result (IsWave (G.node_count graph.new Side.Back) back.new.labels.items back.new.next) }
    ensures search_forth { OnOk result ((g : G.Graph) → G.explores graph.old g → IsHop (G.step g Side.Forth) → (root : ℕ → Bool)
        → IsSearch by_depth (G.step g Side.Forth) root (G.stands graph.old Side.Forth) forth.old.labels.items
        → IsSearch by_depth (G.step g Side.Forth) root (G.stands graph.new Side.Forth) forth.new.labels.items) }
    ensures search_back { OnOk result ((g : G.Graph) → G.explores graph.old g → IsHop (G.step g Side.Back) → (root : ℕ → Bool)
        → IsSearch by_depth (G.step g Side.Back) root (G.stands graph.old Side.Back) back.old.labels.items
        → IsSearch by_depth (G.step g Side.Back) root (G.stands graph.new Side.Back) back.new.labels.items) }
    ensures apart { IfOk result (λ answer. MatchOption answer
        ((NoneMeets (G.stands graph.old Side.Forth) (G.stands graph.old Side.Back) → NoneMeets (G.stands graph.new Side.Forth) (G.stands graph.new Side.Back))
        × (forth.old.next + back.old.next < forth.new.next + back.new.next))
        (λ m. (m.0 < length forth.new.labels.items) × (m.1 < length back.new.labels.items)
        × (((x : G.Node) → G.stands graph.new Side.Forth m.0 x → G.stands graph.new Side.Back m.1 x) ⊎ ((x : G.Node) → G.stands graph.new Side.Back m.1 x → G.stands graph.new Side.Forth m.0 x)))) }
    ensures layers { IfOk result (λ answer. (a b : ℕ)
        → IsLayered forth.old.labels.items forth.old.next (length forth.old.labels.items) a
        → IsLayered back.old.labels.items back.old.next (length back.old.labels.items) b
        → MatchOption answer
        (((d : ℕ) × IsLayered forth.new.labels.items forth.new.next (length forth.new.labels.items) d) × ((d : ℕ) × IsLayered back.new.labels.items back.new.next (length back.new.labels.items) d))
        (λ m. (l n : Label (Unit {0})) → HasLabel forth.new.labels.items m.0 l → HasLabel back.new.labels.items m.1 n → l.depth + n.depth ≤ a + b + 1)) }
    ensures errors { IfErr result (λ e. e ≡ PathError.OutOfMemory) }
{
    if forth.labels.len() - forth.next <= back.labels.len() - back.next {
        let met = advance(graph, Side::Forth, forth)?;
        match met {
            Some(meeting) => Ok(Some((meeting.here, meeting.across))),
            None => Ok(None),
        }
    } else {
        let met = advance(graph, Side::Back, back)?;
        match met {
            Some(meeting) => Ok(Some((meeting.across, meeting.here))),
            None => Ok(None),
        }
    }
}

/// The numbers on the two halves of the path on which two numbers meet.
fn halves_to<A: Allocator + Copy>(
    alloc: A,
    forth: &Wave<A>,
    back: &Wave<A>,
    number: usize,
    across: usize,
) -> Result<Halves<A>, PathError>
    requires trees { IsTree forth.now.labels.items × IsTree back.now.labels.items }
    requires labelled { ((l : Label (Unit {0})) × HasLabel forth.now.labels.items number l) × ((l : Label (Unit {0})) × HasLabel back.now.labels.items across l) }
    ensures chains { IfOk result (λ halves. IsChain forth.now.labels.items number halves.forth.items × IsChain back.now.labels.items across halves.back.items) }
    ensures inside { IfOk result (λ halves. ((k : ℕ) → Contains halves.forth.items k → k < length forth.now.labels.items) × ((k : ℕ) → Contains halves.back.items k → k < length back.now.labels.items)) }
    ensures refused { IfErr result (λ e. e ≡ PathError.OutOfMemory) }
{
    let forth = path_to(alloc, &forth.labels, number)?;
    let back = path_to(alloc, &back.labels, across)?;
    Ok(Halves { forth, back })
}

/// The numbers on the two halves of a path with fewest edges from one of the nodes found before on the
/// way forth to one of those found before on the way back, where each step costs 1 and each way
/// mirrors the other. The answer is `None` exactly where no walk leads from one to the other.
pub fn fewest_edges_between<C: Cost, G: TwoSidedGraph<C>, A: Allocator + Copy>(
    alloc: A,
    graph: &mut G,
) -> Result<Option<Halves<A>>, PathError>
    requires graph { (g : G.Graph) × G.explores graph.old g }
    requires begins { (side : Side) (k : ℕ) → k < G.node_count graph.old side → (s : G.Node) × G.stands graph.old side k s }
    ensures graph { (g : G.Graph) → G.explores graph.old g → G.explores graph.new g }
    ensures inside { IfOk result (λ answer. IfSome answer (λ halves. ((k : ℕ) → Contains halves.forth.items k → k < G.node_count graph.new Side.Forth) × ((k : ℕ) → Contains halves.back.items k → k < G.node_count graph.new Side.Back))) }
    ensures best { (g : G.Graph) → G.explores graph.old g → IsHop (G.step g Side.Forth) → IsHop (G.step g Side.Back)
        → IsMirrored (G.step g Side.Forth) (G.step g Side.Back) (StandsBelow (G.node_count graph.old Side.Forth) (G.stands graph.old Side.Forth)) (StandsBelow (G.node_count graph.old Side.Back) (G.stands graph.old Side.Back))
        → IfOk result (λ answer. MatchOption answer
        (NoWalkBetween (G.step g Side.Forth) (G.step g Side.Back) (StandsBelow (G.node_count graph.old Side.Forth) (G.stands graph.old Side.Forth)) (StandsBelow (G.node_count graph.old Side.Back) (G.stands graph.old Side.Back)))
        (λ halves. IsBestMeeting (G.step g Side.Forth) (G.step g Side.Back) (StandsBelow (G.node_count graph.old Side.Forth) (G.stands graph.old Side.Forth)) (StandsBelow (G.node_count graph.old Side.Back) (G.stands graph.old Side.Back)) (G.stands graph.new Side.Forth) (G.stands graph.new Side.Back) halves.forth.items halves.back.items)) }
    ensures errors { IfErr result (λ e. e ≡ PathError.OutOfMemory) }
{
    let mut forth = begin(alloc, graph.node_count(Side::Forth))?;
    let mut back = begin(alloc, graph.node_count(Side::Back))?;
    if let Some(meeting) = first_meeting(graph, Side::Forth, 0) {
        let halves = halves_to(alloc, &forth, &back, meeting.here, meeting.across)?;
        return Ok(Some(halves));
    }
    'levels: while forth.next < forth.labels.len() && back.next < back.labels.len() {
        let met = advance_smaller(graph, &mut forth, &mut back)?;
        if let Some(numbers) = met {
            let halves = halves_to(alloc, &forth, &back, numbers.0, numbers.1)?;
            return Ok(Some(halves));
        }
    }
    Ok(None)
}
