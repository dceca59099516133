//! The turns of a search by cost and estimate, over a graph that functions answer.

ghost use Rattle.std.specs.List.{AllZip};
ghost use Rattle.std.specs.Prelude.{◌≡◌, ◌≤◌, ◌++◌, ℕ, ℤ, Bool, false, List, OnOk, IfOk, IfErr, MatchOption, length};
ghost use Rattle.pf_base.specs.Answers.{IsLawfulClone};
ghost use Rattle.pf_core.specs.declared.labels.Label.{Label};
ghost use Rattle.pf_core.specs.Labels.{HasLabel, IsChain};
ghost use Rattle.pf_core.specs.Nodes.{NodeGraph, StandsFor};
ghost use Rattle.pf_informed.specs.Internal.Forest.{IsForest, nat_of};
ghost use Rattle.pf_informed.specs.Internal.Informed.{work_left};
ghost use Rattle.pf_informed.specs.Internal.Led.{IsLed, IsNew, IsReady, FindsMore, IsInformedOn, OthersWait};
ghost use Rattle.pf_informed.specs.Internal.Waiting.{Entry, IsQueue};

use crate::estimates::ask;
use crate::functions::EstimateFunction;
use crate::search::Search;
use pf_base::{Cost, NodeTest, PathError};
use pf_core::labels::path_to;
use pf_core::numbered::NumberedGraph;
use pf_discovery::numbering::Numbering;
use pf_discovery::source::EdgeSource;
use pf_discovery::tested::TestedBy;
use std::alloc::Allocator;

/// Begins a search at the only node that was found.
pub(crate) fn begin<N, M, C, S, T, H, A>(
    graph: &TestedBy<M, S, T>,
    estimate: &mut H,
    search: &mut Search<C, A>,
) -> Result<(), PathError>
where
    N: Eq + Drop,
    M: Numbering<Node = N>,
    C: Cost,
    S: EdgeSource<N, C>,
    T: NodeTest<N>,
    H: EstimateFunction<N, C>,
    A: Allocator + Copy,
    requires one { length (M.keys graph.now.discovery.nodes) ≡ 1 }
    requires new { IsNew search.old }
    requires graph { (g : NodeGraph N) × (test : N → Bool) × (least : N → ℤ)
        × IsLed M.keys N.eq C.value S.answers T.answers H.answers g test least graph.now estimate.old search.old.estimates.items }
    ensures ready { OnOk result (IsReady C.value C.fits (length (M.keys graph.now.discovery.nodes)) search.new) }
    ensures graph { OnOk result ((g : NodeGraph N) (test : N → Bool) (least : N → ℤ)
        → IsLed M.keys N.eq C.value S.answers T.answers H.answers g test least graph.now estimate.old search.old.estimates.items
        → IsLed M.keys N.eq C.value S.answers T.answers H.answers g test least graph.now estimate.new search.new.estimates.items
        × ((passes : N → Bool) → IsInformedOn M.keys N.eq C.value C.fits g passes graph.now search.new search.new.queue.entries)) }
    ensures refused { IfErr result (λ e. e ≡ PathError.OutOfMemory) }
{
    ask(&graph.discovery.nodes, estimate, &mut search.estimates)?;
    search.begin()
}

/// Opens a number that was taken out: finds what its node leads to, asks for the estimates of what is
/// new, and takes the steps.
pub(crate) fn turn<N, M, C, S, T, H, A>(
    graph: &mut TestedBy<M, S, T>,
    estimate: &mut H,
    search: &mut Search<C, A>,
    number: usize,
) -> Result<(), PathError>
where
    N: Eq + Drop,
    M: Numbering<Node = N>,
    C: Cost,
    S: EdgeSource<N, C>,
    T: NodeTest<N>,
    H: EstimateFunction<N, C>,
    A: Allocator + Copy,
    requires labelled { (l : Label C) × HasLabel search.old.labels.items number l }
    requires ready { IsReady C.value C.fits (length (M.keys graph.old.discovery.nodes)) search.old }
    requires graph { (g : NodeGraph N) × (test : N → Bool) × (least : N → ℤ)
        × IsLed M.keys N.eq C.value S.answers T.answers H.answers g test least graph.old estimate.old search.old.estimates.items }
    ensures ready { OnOk result (IsReady C.value C.fits (length (M.keys graph.new.discovery.nodes)) search.new) }
    ensures grows { FindsMore M.keys N.eq graph.old graph.new }
    ensures queue { OnOk result ((rest : List (Entry C)) → IsQueue C.value search.old.labels.items search.old.estimates.items (search.old.queue.entries ++ rest)
        → IsQueue C.value search.new.labels.items search.new.estimates.items (search.new.queue.entries ++ rest)) }
    ensures less { OnOk result (work_left C.value (nat_of (C.value C.greatest)) search.new.labels.items (length search.new.queue.entries)
        ≤ work_left C.value (nat_of (C.value C.greatest)) search.old.labels.items (length search.old.queue.entries)) }
    ensures graph { OnOk result ((g : NodeGraph N) (test : N → Bool) (least : N → ℤ)
        → IsLed M.keys N.eq C.value S.answers T.answers H.answers g test least graph.old estimate.old search.old.estimates.items
        → IsLed M.keys N.eq C.value S.answers T.answers H.answers g test least graph.new estimate.new search.new.estimates.items
        × ((passes : N → Bool) (before rest : List (Entry C)) → ((x : N) → StandsFor N.eq (M.keys graph.old.discovery.nodes) number x → passes x ≡ false)
        → OthersWait C.value search.old.labels.items search.old.estimates.items number before (search.old.queue.entries ++ rest)
        → IsInformedOn M.keys N.eq C.value C.fits g passes graph.old search.old before
        → IsInformedOn M.keys N.eq C.value C.fits g passes graph.new search.new (search.new.queue.entries ++ rest))) }
    ensures refused { IfErr result (λ e. e ≡ PathError.OutOfMemory) }
{
    graph.expand(number, &mut search.row)?;
    ask(&graph.discovery.nodes, estimate, &mut search.estimates)?;
    search.follow(number)
}

/// The path to a number, as clones of its nodes, with the cost that was taken out for it.
pub(crate) fn path_found<N, M, C, S, T, A>(
    alloc: A,
    graph: &TestedBy<M, S, T>,
    search: &Search<C, A>,
    number: usize,
    cost: C,
) -> Result<Option<(Vec<N, A>, C)>, PathError>
where
    N: Eq + Clone + Drop,
    M: Numbering<Node = N>,
    C: Cost,
    A: Allocator + Copy,
    requires clones { IsLawfulClone N.eq N.is_clone }
    requires wide { length search.now.labels.items ≡ length (M.keys graph.now.discovery.nodes) }
    requires forest { IsForest C.value search.now.labels.items }
    requires labelled { (l : Label C) × HasLabel search.now.labels.items number l }
    ensures found { IfOk result (λ answer. MatchOption answer ⊥ (λ found. (found.1 ≡ cost)
        × ((numbers : List ℕ) × IsChain search.now.labels.items number numbers × AllZip (StandsFor N.eq (M.keys graph.now.discovery.nodes)) numbers found.0.items))) }
    ensures fits { C.fits (C.value cost) }
    ensures refused { IfErr result (λ e. e ≡ PathError.OutOfMemory) }
{
    cost.known();
    let numbers = path_to(alloc, &search.labels, number)?;
    let nodes = graph.nodes_at(alloc, &numbers)?;
    Ok(Some((nodes, cost)))
}
