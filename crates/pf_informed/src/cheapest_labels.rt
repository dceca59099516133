//! A search by cost and estimate that goes on until all cheapest ways have labels.

ghost use Rattle.std.specs.Prelude.{◌≡◌, ◌⊎◌, ◌<◌, ◌≤◌, ◌<ℤ◌, ◌+ℤ◌, ◌+◌, ℕ, ℤ, Bool, [], ◌∷◌, Some, None, Err, ⊤, true, false, IfOk, IfErr, MatchBool, MatchOption, length};
ghost use Rattle.pf_base.specs.Walks.{HasNoGoalWalk};
ghost use Rattle.pf_base.specs.Edges.{IsSuccessor};
ghost use Rattle.pf_core.specs.declared.labels.Label.{Label};
ghost use Rattle.pf_core.specs.Labels.{HasLabel};
ghost use Rattle.pf_core.specs.Nodes.{NodeGraph};
ghost use Rattle.pf_core.specs.Numbered.{Grows};
ghost use Rattle.pf_informed.specs.Estimates.{MayOverflow};
ghost use Rattle.pf_informed.specs.Internal.Labelled.{IsPastBest, IsLabelled};
ghost use Rattle.pf_informed.specs.Internal.Led.{IsLed, IsNew, OfLedSearch};
ghost use Rattle.pf_informed.specs.Internal.Waiting.{IsWaiting, IsQueue, IsTaken, SumsFit};

use crate::functions::EstimateFunction;
use crate::queue::{Queue, Taken, take_least};
use crate::search::Search;
use crate::turns::{begin, turn};
use pf_base::{Cost, NodeTest, PathError};
use pf_core::numbered::GoalGraph;
use pf_core::slot::Slot;
use pf_discovery::numbering::Numbering;
use pf_discovery::source::EdgeSource;
use pf_discovery::tested::TestedBy;
use std::alloc::Allocator;

/// Is the least cost known, and less than this cost and estimate together?
fn is_past<C: Cost>(best: Option<C>, cost: C, estimate: C) -> bool
    ensures { MatchBool result ((b : C) × (best ≡ Some b) × (C.value b <ℤ (C.value cost +ℤ C.value estimate))) ⊤ }
{
    let Some(best) = best else {
        return false;
    };
    let Some(sum) = cost.checked_add(&estimate) else {
        return false;
    };
    best < sum
}

/// Takes out the number whose label and estimate cost least together, unless that is more than the
/// least cost of a walk to a goal.
fn take_within<C: Cost, A: Allocator>(
    labels: &Vec<Slot<C>, A>,
    estimates: &Vec<C, A>,
    queue: &mut Queue<C, A>,
    best: Option<C>,
) -> Option<Taken<C>>
    requires queue { IsQueue C.value labels.now.items estimates.now.items queue.old.entries }
    requires sums { SumsFit C.value C.fits labels.now.items estimates.now.items }
    ensures queue { IsQueue C.value labels.now.items estimates.now.items queue.new.entries }
    ensures taken { MatchOption result ((k : ℕ) (l : Label C) → HasLabel labels.now.items k l → IsWaiting C.value estimates.now.items queue.old.entries k l → IsPastBest C.value estimates.now.items best k l)
        (λ r. IsTaken C.value labels.now.items estimates.now.items r.number r.cost queue.old.entries queue.new.entries) }
    ensures fewer { MatchOption result (length queue.new.entries ≤ length queue.old.entries) (λ r. length queue.new.entries + 1 ≤ length queue.old.entries) }
{
    let Some(taken) = take_least(labels, estimates, queue) else {
        return None;
    };
    if is_past(best, taken.cost, estimates[taken.number]) {
        return None;
    }
    Some(taken)
}

/// The least cost of a walk to a goal, if it is known once this number was taken out.
fn best_with<C: Cost, G: GoalGraph<C>>(
    graph: &mut G,
    number: usize,
    cost: C,
    best: Option<C>,
) -> Option<C>
    requires inside { number < G.node_count graph.old }
    requires graph { (g : G.Graph) × G.explores graph.old g }
    ensures grows { Grows (G.node_count graph.old) (G.node_count graph.new) (G.stands graph.old) (G.stands graph.new) }
    ensures same { G.node_count graph.new ≡ G.node_count graph.old }
    ensures graph { (g : G.Graph) → G.explores graph.old g → G.explores graph.new g }
    ensures open { result ≡ None → (best ≡ None) × ((g : G.Graph) (x : G.Node) → G.explores graph.old g → G.stands graph.old number x → G.passes g x ≡ false) }
    ensures found { (b : C) → result ≡ Some b → (best ≡ Some b) ⊎ ((best ≡ None) × (b ≡ cost) × C.fits (C.value b)
        × ((g : G.Graph) (x : G.Node) → G.explores graph.old g → G.stands graph.old number x → G.passes g x ≡ true)) }
{
    if best.is_some() {
        return best;
    }
    if graph.is_goal(number) {
        cost.known();
        return Some(cost);
    }
    None
}

/// Searches from the only node that was found, with nothing known of it yet, until each number that
/// waits is past the least cost of a walk to a goal. Goals are opened as other nodes are, so that each
/// label is the cost of a cheapest walk. Answers the least cost, or `None` where no walk leads to a goal.
pub(crate) fn label_cheapest<N, M, C, S, T, H, A>(
    graph: &mut TestedBy<M, S, T>,
    estimate: &mut H,
    search: &mut Search<C, A>,
) -> Result<Option<C>, PathError>
where
    N: Eq + Drop,
    M: Numbering<Node = N>,
    C: Cost,
    S: EdgeSource<N, C>,
    T: NodeTest<N>,
    H: EstimateFunction<N, C>,
    A: Allocator + Copy,
    requires one { length (M.keys graph.old.discovery.nodes) ≡ 1 }
    requires new { IsNew search.old }
    requires graph { (g : NodeGraph N) × (test : N → Bool) × (least : N → ℤ)
        × IsLed M.keys N.eq C.value S.answers T.answers H.answers g test least graph.old estimate.old search.old.estimates.items }
    ensures wide { IfOk result (λ answer. MatchOption answer ⊤ (λ _. (length search.new.labels.items ≡ length (M.keys graph.new.discovery.nodes)) × (0 < length search.new.labels.items))) }
    ensures labelled { OfLedSearch M.keys N.eq C.value S.answers T.answers H.answers graph.old estimate.old search.old.estimates.items (λ start edges test least.
        IfOk result (λ answer. MatchOption answer
        (HasNoGoalWalk N.eq (IsSuccessor N.eq edges) (start ∷ []) test)
        (λ best. IsLed M.keys N.eq C.value S.answers T.answers H.answers (record { starts = start ∷ []; edges = edges }) test least graph.new estimate.new search.new.estimates.items
        × IsLabelled N.eq C.value edges start test (M.keys graph.new.discovery.nodes) search.new.labels.items (C.value best)))) }
    ensures overflow { OfLedSearch M.keys N.eq C.value S.answers T.answers H.answers graph.old estimate.old search.old.estimates.items (λ start edges test least.
        result ≡ Err PathError.CostOverflow → MayOverflow N.eq edges (start ∷ []) test least C.fits) }
    ensures errors { IfErr result (λ e. (e ≡ PathError.OutOfMemory) ⊎ (e ≡ PathError.CostOverflow)) }
{
    begin(graph, estimate, search)?;
    let mut best = None;
    'turns: while let Some(taken) = take_within(
        &search.labels,
        &search.estimates,
        &mut search.queue,
        best,
    ) {
        best = best_with(graph, taken.number, taken.cost, best);
        turn(graph, estimate, search, taken.number)?;
    }
    if let Some(best) = best {
        return Ok(Some(best));
    }
    search.no_path()
}
