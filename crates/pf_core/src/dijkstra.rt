//! The search for a cheapest path, over numbers.

ghost use Rattle.std.specs.Prelude.{◌≡◌, ◌<◌, ◌≤◌, ◌+◌, ◌⊎◌, ℕ, Err, Contains, IfOk, IfErr, IfSome, MatchOption, length};
ghost use Rattle.pf_core.specs.declared.labels.Label.{Label};
ghost use Rattle.pf_core.specs.Labels.{by_cost, AllSettled, IsTree};
ghost use Rattle.pf_core.specs.Numbered.{Grows};
ghost use Rattle.pf_core.specs.Search.{IsLeast};
ghost use Rattle.pf_core.specs.Searched.{HasSearched};
ghost use Rattle.pf_core.specs.Steps.{IsNonNegative, NoGoal, IsBestNumbered, NumberedOverflows};

use crate::labels::{label_of, path_to};
use crate::numbered::GoalGraph;
use crate::search::Search;
use crate::slot::Slot;
use pf_base::{Cost, PathError, Tally};
use std::alloc::Allocator;

/// What a search by rising cost from the number `start` finds: the labels, once the first goal is the
/// least that is open, and the number of that goal, or `None` where no goal is in reach. Each node
/// that is expanded is one tick.
pub fn search_to_goal<C: Cost, G: GoalGraph<C>, A: Allocator + Copy>(
    alloc: A,
    graph: &mut G,
    start: usize,
    tally: &mut Tally,
) -> Result<(Vec<Slot<C>, A>, Option<usize>), PathError>
    requires inside { start < G.node_count graph.old }
    requires begins { (s : G.Node) × G.stands graph.old start s }
    requires graph { (g : G.Graph) × G.explores graph.old g }
    ensures graph { (g : G.Graph) → G.explores graph.old g → G.explores graph.new g }
    ensures grows { Grows (G.node_count graph.old) (G.node_count graph.new) (G.stands graph.old) (G.stands graph.new) }
    ensures wide { IfOk result (λ r. length r.0.items ≡ G.node_count graph.new) }
    ensures tree { IfOk result (λ r. IsTree r.0.items) }
    ensures least { IfOk result (λ r. MatchOption r.1 (AllSettled r.0.items) (λ k. (l : Label C) × IsLeast (by_cost C.value) r.0.items k l)) }
    ensures searched { (g : G.Graph) → G.explores graph.old g → IsNonNegative (G.step g)
        → IfOk result (λ r. HasSearched C.value (G.step g) (G.passes g) (G.stands graph.new) r.0.items start r.1) }
    ensures overflow { (g : G.Graph) → G.explores graph.old g → IsNonNegative (G.step g)
        → result ≡ Err PathError.CostOverflow → NumberedOverflows (G.step g) (G.passes g) (G.stands graph.old start) (G.stands graph.new) C.fits }
    ensures ticked { tally.old ≤ tally.new }
    ensures asked { tally.new ≤ tally.old + G.node_count graph.new }
    ensures errors { IfErr result (λ e. (e ≡ PathError.OutOfMemory) ⊎ (e ≡ PathError.CostOverflow)) }
{
    let mut search = Search::begin(alloc, graph.node_count(), start)?;
    'turns: while let Some(number) = search.least() {
        if graph.is_goal(number) {
            return Ok((search.labels, Some(number)));
        }
        tally.tick();
        search.turn(graph, number)?;
    }
    Ok((search.labels, None))
}

/// The numbers on a cheapest path from the node of the number `start` to a goal, and its cost. The
/// answer is `None` exactly where no walk leads to a goal. Each node that is expanded is one tick.
pub fn cheapest_path<C: Cost, G: GoalGraph<C>, A: Allocator + Copy>(
    alloc: A,
    graph: &mut G,
    start: usize,
    tally: &mut Tally,
) -> Result<Option<(Vec<usize, A>, C)>, PathError>
    requires inside { start < G.node_count graph.old }
    requires begins { (s : G.Node) × G.stands graph.old start s }
    requires graph { (g : G.Graph) × G.explores graph.old g }
    ensures graph { (g : G.Graph) → G.explores graph.old g → G.explores graph.new g }
    ensures inside { IfOk result (λ answer. IfSome answer (λ r. (k : ℕ) → Contains r.0.items k → k < G.node_count graph.new)) }
    ensures best { (g : G.Graph) → G.explores graph.old g → IsNonNegative (G.step g)
        → IfOk result (λ answer. MatchOption answer (NoGoal (G.step g) (G.passes g) (G.stands graph.old start))
        (λ r. IsBestNumbered (G.step g) (G.passes g) (G.stands graph.old start) (G.stands graph.new) r.0.items (C.value r.1))) }
    ensures overflow { (g : G.Graph) → G.explores graph.old g → IsNonNegative (G.step g)
        → result ≡ Err PathError.CostOverflow → NumberedOverflows (G.step g) (G.passes g) (G.stands graph.old start) (G.stands graph.new) C.fits }
    ensures ticked { tally.old ≤ tally.new }
    ensures asked { tally.new ≤ tally.old + G.node_count graph.new }
    ensures errors { IfErr result (λ e. (e ≡ PathError.OutOfMemory) ⊎ (e ≡ PathError.CostOverflow)) }
{
    let (labels, goal) = search_to_goal(alloc, graph, start, tally)?;
    match goal {
        None => Ok(None),
        Some(number) => {
            let numbers = path_to(alloc, &labels, number)?;
            let label = label_of(&labels, number);
            Ok(Some((numbers, label.cost)))
        }
    }
}
