//! Cheapest paths, searched from both ends.

ghost use Rattle.std.specs.List.{AllZip};
ghost use Rattle.std.specs.Prelude.{◌≡◌, ◌<◌, ◌≤ℤ◌, ◌<ℤ◌, ◌+ℤ◌, ◌⊎◌, ◌++◌, ℕ, pos, List, [], ◌∷◌, Err, Some, None, IfOk, IfErr, IfSome, OnOk, MatchBool, MatchOption, Contains, length, drop, reverse};
ghost use Rattle.pf_base.specs.Edges.{IsCheapestOrNone, CostOverflows};
ghost use Rattle.pf_base.specs.Answers.{IsLawfulClone};
ghost use Rattle.pf_core.specs.declared.labels.Label.{Label};
ghost use Rattle.pf_core.specs.Labels.{HasLabel, IsTree};
ghost use Rattle.pf_core.specs.Nodes.{StandsFor};
ghost use Rattle.pf_both_ends.specs.BothEnds.{AnswersWeightedSearchFromBothEnds, OfWeightedSearchFromBothEnds};
ghost use Rattle.pf_both_ends.specs.Internal.BothEnds.{AreNumberedOnce, bound, TellsAtMost, IsMeetingOn, NoneBelowOn, NoMeetingAmong, IsFirstMeeting, AreSoundOn, AreHalvesOn, IsPairOn, AnswersPair, OfPair, NoWalkAcross, NoWalkAcrossBelow};

use crate::discovered::cheapest_path;
use pf_base::{Cost, EdgeFunction, PathError};
use pf_core::labels::{label_of, path_to};
use pf_core::search::Search;
use pf_discovery::discovery::{Discovery, clone_of};
use pf_discovery::numbering::Numbering;
use pf_discovery::source::{EdgeSource, Weighted};
use pf_two_sided::bidirectional::Halves;
use pf_two_sided::two_sided::TwoSided;
use std::alloc::Allocator;
use std::hash::Hash;

/// A node that both searches found: its number on the one side and on the other, and what the path
/// through it costs.
#[derive(Clone, Copy)]
struct Meeting<C> {
    here: usize,
    across: usize,
    cost: C,
}

/// The meeting at a node of one side, if the other side has a label for it and the two costs have a
/// sum.
fn meeting_at<N, M, C, A>(
    nodes: &M,
    search: &Search<C, A>,
    other_nodes: &M,
    other_search: &Search<C, A>,
    number: usize,
) -> Option<Meeting<C>>
where
    N: Eq,
    M: Numbering<Node = N>,
    C: Cost,
    A: Allocator,
    requires inside { number < length (M.keys nodes.now) }
    requires labelled { (l : Label C) × HasLabel search.now.labels.items number l }
    requires wide { length other_search.now.labels.items ≡ length (M.keys other_nodes.now) }
    requires one { AreNumberedOnce N.eq (M.keys other_nodes.now) }
    ensures meets { IfSome result (λ m. (m.here ≡ number) × IsMeetingOn N.eq C.value (M.keys nodes.now) (M.keys other_nodes.now) search.now other_search.now m) }
    ensures low { NoneBelowOn N.eq C.value (M.keys nodes.now) (M.keys other_nodes.now) search.now other_search.now (bound C.value (C.value C.greatest) result) number }
{
    let found = nodes.as_slice();
    let Some(across) = other_nodes.get_number_of(&found[number]) else {
        return None;
    };
    let Some(there) = other_search.labels[across].label() else {
        return None;
    };
    let here = label_of(&search.labels, number);
    here.cost.known();
    let Some(cost) = here.cost.checked_add(&there.cost) else {
        return None;
    };
    Some(Meeting {
        here: number,
        across,
        cost,
    })
}

/// The same meeting, as the other side sees it.
fn turned_about<C: Cost>(meeting: Option<Meeting<C>>) -> Option<Meeting<C>>
    ensures { MatchOption meeting (result ≡ None) (λ m. result ≡ Some (record { here = m.across; across = m.here; cost = m.cost })) }
{
    match meeting {
        Some(found) => Some(Meeting {
            here: found.across,
            across: found.here,
            cost: found.cost,
        }),
        None => None,
    }
}

/// The cheaper of two meetings, the first where they cost the same.
fn cheaper<C: Cost>(best: Option<Meeting<C>>, other: Option<Meeting<C>>) -> Option<Meeting<C>>
    ensures one { (result ≡ best) ⊎ (result ≡ other) }
    ensures best { bound C.value (C.value C.greatest) result ≤ℤ bound C.value (C.value C.greatest) best }
    ensures other { bound C.value (C.value C.greatest) result ≤ℤ bound C.value (C.value C.greatest) other }
{
    match (best, other) {
        (None, None) => None,
        (Some(first), None) => {
            first.cost.known();
            Some(first)
        }
        (None, Some(second)) => {
            second.cost.known();
            Some(second)
        }
        (Some(first), Some(second)) => Some(if second.cost < first.cost {
            second
        } else {
            first
        }),
    }
}

/// Is the first cost no more than the second?
fn is_at_most<C: Cost>(cost: C, limit: C) -> bool
    ensures { MatchBool result (C.value cost ≤ℤ C.value limit) (C.value limit <ℤ C.value cost) }
{
    cost <= limit
}

/// Does no path cost less than the best meeting, where the least open labels of both sides have these
/// costs?
fn is_best<C: Cost>(best: Option<Meeting<C>>, forth: C, back: C) -> bool
    ensures decided { pos 0 ≤ℤ C.value back → TellsAtMost C.value best (C.value forth +ℤ C.value back) result }
    ensures fit { C.fits (C.value forth) × C.fits (C.value back) }
{
    forth.known();
    back.known();
    let Some(meeting) = best else {
        return false;
    };
    meeting.cost.known();
    match forth.checked_add(&back) {
        Some(sum) => is_at_most(meeting.cost, sum),
        None => true,
    }
}

/// The cost in the label of a number that has one.
fn cost_at<C: Cost, A: Allocator>(search: &Search<C, A>, number: usize) -> C
    requires { (l : Label C) × HasLabel search.now.labels.items number l }
    ensures { (l : Label C) → HasLabel search.now.labels.items number l → result ≡ l.cost }
{
    label_of(&search.labels, number).cost
}

/// Do no more nodes wait in the first search than in the second?
fn waits_for_no_more<C: Cost, A: Allocator>(search: &Search<C, A>, other: &Search<C, A>) -> bool {
    search.queue.len() <= other.queue.len()
}

/// The best meeting of two searches, `forth` from the start and `back` from the end: the cost of a
/// cheapest path. The answer is `None` exactly where no walk leads from one to the other.
///
/// Where the way back finds a sum that does not fit, it goes no further: the walk that costs too much
/// ends at the end, but it need not begin at the start. The way forth goes on alone.
fn best_meeting<N, M, C, S, P, A>(
    graph: &mut TwoSided<M, S, P>,
    forth: &mut Search<C, A>,
    back: &mut Search<C, A>,
) -> Result<Option<Meeting<C>>, PathError>
where
    N: Eq + Drop,
    M: Numbering<Node = N>,
    C: Cost,
    S: EdgeSource<N, C>,
    P: EdgeSource<N, C>,
    A: Allocator + Copy,
    requires sound { AreSoundOn M.keys C.value graph.old forth.old back.old }
    requires pair { AnswersPair N.eq M.keys S.answers P.answers graph.old C.value C.fits forth.old back.old (C.value C.greatest +ℤ pos 1) }
    ensures sound { OnOk result (AreSoundOn M.keys C.value graph.new forth.new back.new) }
    ensures best { OfPair N.eq M.keys S.answers P.answers graph.old C.value C.fits forth.old back.old (C.value C.greatest +ℤ pos 1) (λ edges previous start end.
        IfOk result (λ answer. IsPairOn M.keys N.eq C.value C.fits edges previous start end graph.new forth.new back.new (bound C.value (C.value C.greatest) answer)
        × IfSome answer (IsMeetingOn N.eq C.value (M.keys graph.new.forth.nodes) (M.keys graph.new.back.nodes) forth.new back.new)
        × MatchOption answer (NoWalkAcross N.eq C.value edges start end) (λ m. NoWalkAcrossBelow N.eq C.value edges start end (C.value m.cost)))
        × (result ≡ Err PathError.CostOverflow → CostOverflows N.eq edges (start ∷ []) (N.eq end) C.fits)) }
    ensures errors { IfErr result (λ e. (e ≡ PathError.OutOfMemory) ⊎ (e ≡ PathError.CostOverflow)) }
{
    let mut best: Option<Meeting<C>> = None;
    let mut back_is_over = false;
    'turns: while let Some(number) = forth.least() {
        let Some(across) = back.least() else {
            return Ok(best);
        };
        let cost = cost_at(forth, number);
        let cost_back = cost_at(back, across);
        if is_best(best, cost, cost_back) {
            return Ok(best);
        }
        if back_is_over || waits_for_no_more(forth, back) {
            forth.turn(&mut graph.forth, number)?;
            let found = meeting_at(&graph.forth.nodes, forth, &graph.back.nodes, back, number);
            best = cheaper(best, found);
        } else {
            match back.turn(&mut graph.back, across) {
                Ok(()) => {
                    let found = meeting_at(
                        &graph.back.nodes,
                        back,
                        &graph.forth.nodes,
                        forth,
                        across,
                    );
                    best = cheaper(best, turned_about(found));
                }
                Err(PathError::CostOverflow) => back_is_over = true,
                Err(refusal) => return Err(refusal),
            }
        }
    }
    Ok(best)
}

/// The first node of the half on the way forth at which both sides meet at no more than this cost, with
/// its place in the half.
fn first_on<N, M, C, A>(
    nodes: &M,
    search: &Search<C, A>,
    other_nodes: &M,
    other_search: &Search<C, A>,
    numbers: &[usize],
    cost: C,
) -> Option<(usize, Meeting<C>)>
where
    N: Eq,
    M: Numbering<Node = N>,
    C: Cost,
    A: Allocator,
    requires inside { (k : ℕ) → Contains numbers.now k → k < length (M.keys nodes.now) }
    requires labelled { (k : ℕ) → Contains numbers.now k → (l : Label C) × HasLabel search.now.labels.items k l }
    requires wide { length other_search.now.labels.items ≡ length (M.keys other_nodes.now) }
    requires one { AreNumberedOnce N.eq (M.keys other_nodes.now) }
    ensures first { MatchOption result (NoMeetingAmong N.eq C.value (M.keys nodes.now) (M.keys other_nodes.now) search.now other_search.now (C.value cost) numbers.now)
        (IsFirstMeeting N.eq C.value (M.keys nodes.now) (M.keys other_nodes.now) search.now other_search.now (C.value cost) numbers.now) }
{
    cost.known();
    'numbers: for (place, number) in numbers.iter().enumerate() {
        if let Some(meeting) = meeting_at(nodes, search, other_nodes, other_search, *number) {
            if is_at_most(meeting.cost, cost) {
                return Some((place, meeting));
            }
        }
    }
    None
}

/// The nodes of a path that costs no more than this meeting. Its two halves meet at the first node on
/// the way forth at which they can, since that node alone is on both: where edges cost nothing, the
/// halves that meet at another node may have several nodes in common.
fn path_through<N, M, C, S, P, A>(
    alloc: A,
    graph: &TwoSided<M, S, P>,
    forth: &Search<C, A>,
    back: &Search<C, A>,
    best: Meeting<C>,
) -> Result<Vec<N, A>, PathError>
where
    N: Eq + Clone + Drop,
    M: Numbering<Node = N>,
    C: Cost,
    A: Allocator + Copy,
    requires clones { IsLawfulClone N.eq N.is_clone }
    requires trees { IsTree forth.now.labels.items × IsTree back.now.labels.items }
    requires wide_forth { length forth.now.labels.items ≡ length (M.keys graph.now.forth.nodes) }
    requires wide_back { length back.now.labels.items ≡ length (M.keys graph.now.back.nodes) }
    requires one { AreNumberedOnce N.eq (M.keys graph.now.back.nodes) }
    requires costs { (k : ℕ) (l : Label C) → HasLabel forth.now.labels.items k l ⊎ HasLabel back.now.labels.items k l → pos 0 ≤ℤ C.value l.cost }
    requires meets { IsMeetingOn N.eq C.value (M.keys graph.now.forth.nodes) (M.keys graph.now.back.nodes) forth.now back.now best }
    ensures path { IfOk result (λ path. (numbers back_numbers : List ℕ) × (p q : List N)
        × AreHalvesOn M.keys N.eq C.value graph.now forth.now back.now (C.value best.cost) numbers back_numbers
        × AllZip (StandsFor N.eq (M.keys graph.now.forth.nodes)) numbers p
        × AllZip (StandsFor N.eq (M.keys graph.now.back.nodes)) back_numbers q
        × (path.items ≡ p ++ drop 1 (reverse q))) }
    ensures refused { IfErr result (λ e. e ≡ PathError.OutOfMemory) }
{
    let mut numbers = path_to(alloc, &forth.labels, best.here)?;
    let first = first_on(
        &graph.forth.nodes,
        forth,
        &graph.back.nodes,
        back,
        &numbers,
        best.cost,
    );
    let Some((place, meeting)) = first else {
        unreachable!();
    };
    numbers.truncate(place + 1);
    let back_numbers = path_to(alloc, &back.labels, meeting.across)?;
    let halves = Halves {
        forth: numbers,
        back: back_numbers,
    };
    graph.nodes_along(alloc, &halves)
}

/// The path through the best meeting of two searches, `forth` from the start and `back` from the end,
/// with its cost.
pub fn path_across<N, M, C, S, P, A>(
    alloc: A,
    graph: &mut TwoSided<M, S, P>,
    forth: &mut Search<C, A>,
    back: &mut Search<C, A>,
) -> Result<Option<(Vec<N, A>, C)>, PathError>
where
    N: Eq + Clone + Drop,
    M: Numbering<Node = N>,
    C: Cost,
    S: EdgeSource<N, C>,
    P: EdgeSource<N, C>,
    A: Allocator + Copy,
    requires clones { IsLawfulClone N.eq N.is_clone }
    requires sound { AreSoundOn M.keys C.value graph.old forth.old back.old }
    requires pair { AnswersPair N.eq M.keys S.answers P.answers graph.old C.value C.fits forth.old back.old (C.value C.greatest +ℤ pos 1) }
    ensures best { OfPair N.eq M.keys S.answers P.answers graph.old C.value C.fits forth.old back.old (C.value C.greatest +ℤ pos 1) (λ edges previous start end.
        IfOk result (IsCheapestOrNone N.eq edges (start ∷ []) (N.eq end) C.value)
        × (result ≡ Err PathError.CostOverflow → CostOverflows N.eq edges (start ∷ []) (N.eq end) C.fits)) }
    ensures errors { IfErr result (λ e. (e ≡ PathError.OutOfMemory) ⊎ (e ≡ PathError.CostOverflow)) }
{
    match best_meeting(graph, forth, back)? {
        None => Ok(None),
        Some(meeting) => {
            let path = path_through(alloc, graph, forth, back, meeting)?;
            Ok(Some((path, meeting.cost)))
        }
    }
}

/// A cheapest path from `start` to `end`, with its cost, or `None` exactly where no walk leads from
/// one to the other.
///
/// `successors` lists the edges from a node, each as the node that it leads to and its cost,
/// `predecessors` those that lead to it, each as the node that it comes from and its cost. Each must
/// mirror the other: b with a cost is among the successors of a exactly where a with that cost is
/// among the predecessors of b. Where several edges lead from one node to another, a step costs what
/// the cheapest of them costs. Both must answer alike for equal nodes at every call, and no cost may
/// be negative; `successors` is asked of nodes in reach of `start` alone, `predecessors` of nodes from
/// which `end` is in reach by its own answers. The path is a list of clones of nodes, from `start` on,
/// and contains no node twice, also where edges or cycles cost nothing; where `end` equals `start`, it
/// is that node alone, at cost 0. Which of several cheapest paths is answered is open.
///
/// `pf_search/CALLING.md` has the lemmas by which a caller proves the clause `graph`.
///
/// # Errors
///
/// - `CostOverflow`: only where a cheapest path from `start` to some node and one step more, by the
///   cheapest of the parallel edges, cost more than `C` can hold, and `end` is no cheaper than that
///   node.
/// - `OutOfMemory`: a request for memory was refused.
///
/// The algorithm is Dijkstra's from both ends (T. A. J. Nicholson, "Finding the shortest route between
/// two points in a network", 1966; I. Pohl, "Bi-directional search", 1971), which goes on with the side
/// on which fewer nodes wait. It mostly asks for fewer nodes than `dijkstra` does.
pub fn dijkstra_bidirectional<N, C, IN, FN, IM, FM, A>(
    alloc: A,
    start: &N,
    end: &N,
    successors: FN,
    predecessors: FM,
) -> Result<Option<(Vec<N, A>, C)>, PathError>
where
    N: Eq + Hash + Clone + Drop,
    C: Cost,
    IN: IntoIterator<Item = (N, C)>,
    FN: FnMut(&N) -> IN,
    IM: IntoIterator<Item = (N, C)>,
    FM: FnMut(&N) -> IM,
    A: Allocator + Copy,
    requires clones { IsLawfulClone N.eq N.is_clone }
    requires graph { AnswersWeightedSearchFromBothEnds N.eq start.now end.now (⟦<FN as EdgeFunction<N, C>>⟧.answers successors) (⟦<FM as EdgeFunction<N, C>>⟧.answers predecessors) }

    ensures best { OfWeightedSearchFromBothEnds N.eq start.now end.now (⟦<FN as EdgeFunction<N, C>>⟧.answers successors) (⟦<FM as EdgeFunction<N, C>>⟧.answers predecessors) (λ edges previous.
        IfOk result (IsCheapestOrNone N.eq edges (start.now ∷ []) (N.eq end.now) C.value)) }

    ensures overflow { OfWeightedSearchFromBothEnds N.eq start.now end.now (⟦<FN as EdgeFunction<N, C>>⟧.answers successors) (⟦<FM as EdgeFunction<N, C>>⟧.answers predecessors) (λ edges previous.
        result ≡ Err PathError.CostOverflow → CostOverflows N.eq edges (start.now ∷ []) (N.eq end.now) C.fits) }

    ensures errors { IfErr result (λ e. (e ≡ PathError.OutOfMemory) ⊎ (e ≡ PathError.CostOverflow)) }
{
    let forth = Discovery {
        nodes: clone_of(alloc, start)?,
        source: Weighted {
            function: successors,
        },
    };
    let back = Discovery {
        nodes: clone_of(alloc, end)?,
        source: Weighted {
            function: predecessors,
        },
    };
    cheapest_path(alloc, &mut TwoSided { forth, back })
}
