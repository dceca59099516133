//! One round of a search to a limit, depth first.

ghost use Rattle.std.specs.Prelude.{◌≡◌, ◌<◌, ◌≤ℤ◌, ◌++◌, ◌∷◌, [], ℤ, Bool, Some, OnOk, IfOk, IfErr, MatchOption, ⊤, map};
ghost use Rattle.pf_core.specs.Nodes.{NodeGraph, StandsFor};
ghost use Rattle.pf_deepening.specs.declared.way.Frame.{Frame};
ghost use Rattle.pf_informed.specs.Internal.Rows.{found_in, IsWhole, KeepsNone, KnowsMore, KnowsStart, IsKnown};
ghost use Rattle.pf_informed.specs.Internal.Deepening.{turns_on, IsRound, LeavesNone, Looked, IsStacked, IsUnderWay, IsMarkedOn};

use crate::directed::idastar::known::Known;
use crate::functions::EstimateFunction;
use pf_base::{Cost, NodeTest, PathError};
use pf_deepening::cut_off::admit;
use pf_deepening::marks::is_marked;
use pf_deepening::way::{Frame, Way};
use pf_discovery::numbering::Numbering;
use pf_discovery::source::EdgeSource;
use std::alloc::Allocator;

/// What a round found.
#[derive(Drop)]
pub(crate) enum Round<C, A: Allocator> {
    /// A way to a node that passes, and its cost.
    Found { numbers: Vec<usize, A>, cost: C },
    /// No such way within the limit, and what was cut off.
    Missed { least: Option<C>, past: bool },
}

/// The numbers of frames, and two more.
fn numbers_to<C: Copy, A: Allocator>(
    alloc: A,
    trail: &[Frame<C>],
    here: usize,
    last: usize,
) -> Result<Vec<usize, A>, PathError>
    ensures numbers { IfOk result (λ numbers. numbers.items ≡ (map (λ (f : Frame C). f.number) trail.now ++ here ∷ []) ++ last ∷ []) }
    ensures refused { IfErr result (λ e. e ≡ PathError.OutOfMemory) }
{
    let mut numbers = Vec::with_capacity(alloc, trail.len())?;
    'frames: for frame in trail {
        numbers.push(frame.number)?;
    }
    numbers.push(here)?;
    numbers.push(last)?;
    Ok(numbers)
}

/// Takes the next step of the last frame, which has one.
fn go_on<N, M, C, S, T, H, A>(
    alloc: A,
    known: &mut Known<M, C, S, T, H, A>,
    limit: C,
    way: &mut Way<C, A>,
) -> Result<Option<Round<C, A>>, PathError>
where
    N: Eq + Drop,
    M: Numbering<Node = N>,
    C: Cost,
    S: EdgeSource<N, C>,
    T: NodeTest<N>,
    H: EstimateFunction<N, C>,
    A: Allocator + Copy,
    requires left { way.old.frame.at < way.old.frame.end }
    requires whole { IsWhole M.keys known.old }
    requires marked { IsMarkedOn way.old C.value limit (found_in M.keys known.old) }
    requires stack { IsStacked way.old M.keys known.old }
    requires graph { (g : NodeGraph N) × (test : N → Bool) × (least : N → ℤ) × (first : N)
        × IsKnown M.keys N.eq C.value S.answers T.answers H.answers g test least known.old
        × IsUnderWay way.old M.keys N.eq C.value C.fits g test least first known.old }
    ensures more { OnOk result (KnowsMore M.keys N.eq known.old known.new) }
    ensures marked { IfOk result (λ r. MatchOption r (IsMarkedOn way.new C.value limit (found_in M.keys known.new)) (IsRound C.value limit (found_in M.keys known.new))) }
    ensures stack { IfOk result (λ r. MatchOption r (IsStacked way.new M.keys known.new) (LeavesNone known.new.rows.spans.items)) }
    ensures less { IfOk result (λ r. MatchOption r (turns_on way.new < turns_on way.old) (λ _. ⊤)) }
    ensures graph { (g : NodeGraph N) (test : N → Bool) (least : N → ℤ) (first : N)
        → IsKnown M.keys N.eq C.value S.answers T.answers H.answers g test least known.old
        → IsUnderWay way.old M.keys N.eq C.value C.fits g test least first known.old
        → IfOk result (λ r. IsKnown M.keys N.eq C.value S.answers T.answers H.answers g test least known.new
        × MatchOption r (IsUnderWay way.new M.keys N.eq C.value C.fits g test least first known.new)
        (λ round. Looked N.eq C.value C.fits g test least (StandsFor N.eq (M.keys known.new.graph.discovery.nodes)) first limit round)) }
    ensures refused { IfErr result (λ e. e ≡ PathError.OutOfMemory) }
{
    let step = known.rows.steps[way.frame.at];
    if is_marked(&way.marks, step.0) {
        way.frame.at += 1;
        return Ok(None);
    }
    let Some(cost) = admit(
        limit,
        &known.estimates,
        way.frame.cost,
        step,
        &mut way.cut_off,
    ) else {
        way.frame.at += 1;
        return Ok(None);
    };
    match known.span_of(step.0)? {
        Some(span) => {
            way.enter(step.0, cost, span)?;
            Ok(None)
        }
        None => {
            let numbers = numbers_to(alloc, &way.trail, way.frame.number, step.0)?;
            Ok(Some(Round::Found { numbers, cost }))
        }
    }
}

/// Takes the next step of the last frame, or goes back where none is left, and forgets what was found
/// from there on.
fn turn<N, M, C, S, T, H, A>(
    alloc: A,
    known: &mut Known<M, C, S, T, H, A>,
    limit: C,
    way: &mut Way<C, A>,
) -> Result<Option<Round<C, A>>, PathError>
where
    N: Eq + Drop,
    M: Numbering<Node = N>,
    C: Cost,
    S: EdgeSource<N, C>,
    T: NodeTest<N>,
    H: EstimateFunction<N, C>,
    A: Allocator + Copy,
    requires whole { IsWhole M.keys known.old }
    requires marked { IsMarkedOn way.old C.value limit (found_in M.keys known.old) }
    requires stack { IsStacked way.old M.keys known.old }
    requires graph { (g : NodeGraph N) × (test : N → Bool) × (least : N → ℤ) × (first : N)
        × IsKnown M.keys N.eq C.value S.answers T.answers H.answers g test least known.old
        × IsUnderWay way.old M.keys N.eq C.value C.fits g test least first known.old }
    ensures start { OnOk result (KnowsStart M.keys N.eq known.old known.new) }
    ensures marked { IfOk result (λ r. MatchOption r (IsMarkedOn way.new C.value limit (found_in M.keys known.new)) (IsRound C.value limit (found_in M.keys known.new))) }
    ensures stack { IfOk result (λ r. MatchOption r (IsStacked way.new M.keys known.new) (LeavesNone known.new.rows.spans.items)) }
    ensures less { IfOk result (λ r. MatchOption r (turns_on way.new < turns_on way.old) (λ _. ⊤)) }
    ensures graph { (g : NodeGraph N) (test : N → Bool) (least : N → ℤ) (first : N)
        → IsKnown M.keys N.eq C.value S.answers T.answers H.answers g test least known.old
        → IsUnderWay way.old M.keys N.eq C.value C.fits g test least first known.old
        → IfOk result (λ r. IsKnown M.keys N.eq C.value S.answers T.answers H.answers g test least known.new
        × MatchOption r (IsUnderWay way.new M.keys N.eq C.value C.fits g test least first known.new)
        (λ round. Looked N.eq C.value C.fits g test least (StandsFor N.eq (M.keys known.new.graph.discovery.nodes)) first limit round)) }
    ensures refused { IfErr result (λ e. e ≡ PathError.OutOfMemory) }
{
    if way.frame.at < way.frame.end {
        return go_on(alloc, known, limit, way);
    }
    known.forget(way.frame.number);
    if way.leave() {
        Ok(None)
    } else {
        Ok(Some(Round::Missed {
            least: way.cut_off.least,
            past: way.cut_off.past,
        }))
    }
}

/// The number 0 alone.
fn first_alone<A: Allocator>(alloc: A) -> Result<Vec<usize, A>, PathError>
    ensures numbers { IfOk result (λ numbers. numbers.items ≡ 0 ∷ []) }
    ensures refused { IfErr result (λ e. e ≡ PathError.OutOfMemory) }
{
    let mut numbers = Vec::new(alloc);
    numbers.push(0)?;
    Ok(numbers)
}

/// Looks through the ways from the number 0 whose costs and estimates stay within the limit together.
/// What was found is forgotten again, but for a way to a node that passes.
pub(crate) fn look_through<N, M, C, S, T, H, A>(
    alloc: A,
    known: &mut Known<M, C, S, T, H, A>,
    limit: C,
) -> Result<Round<C, A>, PathError>
where
    N: Eq + Drop,
    M: Numbering<Node = N>,
    C: Cost,
    S: EdgeSource<N, C>,
    T: NodeTest<N>,
    H: EstimateFunction<N, C>,
    A: Allocator + Copy,
    requires begun { 0 < found_in M.keys known.old }
    requires whole { IsWhole M.keys known.old }
    requires unopened { KeepsNone known.old.rows.spans.items }
    requires graph { (g : NodeGraph N) × (test : N → Bool) × (least : N → ℤ) × (first : N)
        × IsKnown M.keys N.eq C.value S.answers T.answers H.answers g test least known.old
        × StandsFor N.eq (M.keys known.old.graph.discovery.nodes) 0 first × (least first ≤ℤ C.value limit) }
    ensures start { OnOk result (KnowsStart M.keys N.eq known.old known.new) }
    ensures unopened { IfOk result (LeavesNone known.new.rows.spans.items) }
    ensures round { IfOk result (IsRound C.value limit (found_in M.keys known.new)) }
    ensures graph { (g : NodeGraph N) (test : N → Bool) (least : N → ℤ) (first : N)
        → IsKnown M.keys N.eq C.value S.answers T.answers H.answers g test least known.old
        → StandsFor N.eq (M.keys known.old.graph.discovery.nodes) 0 first → least first ≤ℤ C.value limit
        → IfOk result (λ r. IsKnown M.keys N.eq C.value S.answers T.answers H.answers g test least known.new
        × Looked N.eq C.value C.fits g test least (StandsFor N.eq (M.keys known.new.graph.discovery.nodes)) first limit r) }
    ensures refused { IfErr result (λ e. e ≡ PathError.OutOfMemory) }
{
    let nothing = C::zero();
    let Some(span) = known.span_of(0)? else {
        let numbers = first_alone(alloc)?;
        return Ok(Round::Found {
            numbers,
            cost: nothing,
        });
    };
    let mut way = Way::begin(alloc, nothing, span)?;
    'turns: loop {
        if let Some(round) = turn(alloc, known, limit, &mut way)? {
            return Ok(round);
        }
    }
}
