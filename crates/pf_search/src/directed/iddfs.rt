//! Paths with fewest edges by depth limits that grow (iterative deepening).

ghost use Rattle.std.specs.Prelude.{◌≡◌, ◌+◌, List, Bool, true, false, [], ◌∷◌, IfOk, IfErr, MatchBool, length};
ghost use Rattle.std.specs.Iterator.{IsFiniteIterable, Drains};
ghost use Rattle.pf_base.specs.Walks.{IsReachable, IsGoalPath};
ghost use Rattle.pf_base.specs.Successors.{HasSuccessor, IsUnweightedSearch, AnswersUnweightedSearch, OfUnweightedSearch, IsFewestEdgesOrNone};
ghost use Rattle.pf_search.specs.Internal.Deepening.{IsPathFrom, FollowsEnd, NoGoalBeyond, Deepens};

use pf_base::{NodeTest, PathError, SuccessorFunction};
use std::alloc::Allocator;

/// What a search down to a depth found.
#[derive(Drop)]
pub(crate) enum Deepened {
    /// The path leads to a node that passes.
    Found,
    /// No path that was looked through leads to a node that passes; whether some path was cut off.
    Missed { cut: bool },
}

/// All that an iterator gives, in order. They are put in one by one, as `Vec::from_iter` passes over a
/// refusal of the room that it asks for first.
fn collected<N, IN, A>(alloc: A, items: IN) -> Result<Vec<N, A>, PathError>
where
    N: Drop,
    IN: IntoIterator<Item = N>,
    A: Allocator + Copy,
    requires ends { IsFiniteIterable IN.into_iter_gives IN.IntoIter.can_next IN.IntoIter.remaining items }
    ensures all { IfOk result (λ answer. (it : IN.IntoIter) × IN.into_iter_gives items it × Drains IN.IntoIter.next_gives it answer.items) }
    ensures refused { IfErr result (λ e. e ≡ PathError.OutOfMemory) }
{
    let mut answer = Vec::new(alloc);
    'items: for item in items {
        answer.push(item)?;
    }
    Ok(answer)
}

/// Does the node at the end of a path pass?
fn end_passes<N, T, A>(path: &Vec<N, A>, success: &mut T) -> bool
where
    N: Eq,
    T: NodeTest<N>,
    A: Allocator,
    requires { (next : N → List N) × (starts : List N) × (test : N → Bool)
        × T.answers success.old (IsReachable N.eq (HasSuccessor N.eq next) starts) test
        × IsPathFrom N.eq next starts path.now.items }
    ensures { (next : N → List N) (starts : List N) (test : N → Bool)
        → T.answers success.old (IsReachable N.eq (HasSuccessor N.eq next) starts) test
        → IsPathFrom N.eq next starts path.now.items
        → T.answers success.new (IsReachable N.eq (HasSuccessor N.eq next) starts) test
        × MatchBool result (IsGoalPath N.eq (HasSuccessor N.eq next) starts test path.now.items) (NoGoalBeyond N.eq next starts test true 0 path.now.items) }
{
    let here = path.len() - 1;
    success.passes(&path[here])
}

/// The successors of the node at the end of a path, the last one first.
fn answer_of<N, F, A>(
    alloc: A,
    path: &Vec<N, A>,
    successors: &mut F,
) -> Result<Vec<N, A>, PathError>
where
    N: Eq + Drop,
    F: SuccessorFunction<N>,
    A: Allocator + Copy,
    requires graph { (next : N → List N) × (starts : List N)
        × F.answers successors.old (IsReachable N.eq (HasSuccessor N.eq next) starts) next
        × IsPathFrom N.eq next starts path.now.items }
    ensures graph { (next : N → List N) (starts : List N)
        → F.answers successors.old (IsReachable N.eq (HasSuccessor N.eq next) starts) next
        → IsPathFrom N.eq next starts path.now.items
        → F.answers successors.new (IsReachable N.eq (HasSuccessor N.eq next) starts) next
        × IfOk result (λ answer. FollowsEnd N.eq next path.now.items answer.items) }
    ensures refused { IfErr result (λ e. e ≡ PathError.OutOfMemory) }
{
    let here = path.len() - 1;
    let items = successors.successors(&path[here]);
    let mut answer = collected(alloc, items)?;
    answer.reverse();
    Ok(answer)
}

/// Looks for a path to a node that passes among those that go on from `path` by at most `steps`
/// edges, and leaves it in `path`.
fn deepen<N, F, T, A>(
    alloc: A,
    path: &mut Vec<N, A>,
    steps: usize,
    successors: &mut F,
    success: &mut T,
) -> Result<Deepened, PathError>
where
    N: Eq + Drop,
    F: SuccessorFunction<N>,
    T: NodeTest<N>,
    A: Allocator + Copy,
    requires graph { (next : N → List N) × (starts : List N) × (test : N → Bool)
        × IsUnweightedSearch N.eq next starts (F.answers successors.old) (T.answers success.old) test
        × IsPathFrom N.eq next starts path.old.items }
    ensures graph { (next : N → List N) (starts : List N) (test : N → Bool)
        → IsUnweightedSearch N.eq next starts (F.answers successors.old) (T.answers success.old) test
        → IsPathFrom N.eq next starts path.old.items
        → IfOk result (λ found. IsUnweightedSearch N.eq next starts (F.answers successors.new) (T.answers success.new) test
        × Deepens N.eq next starts test steps found path.old.items path.new.items) }
    ensures refused { IfErr result (λ e. e ≡ PathError.OutOfMemory) }
{
    if end_passes(path, success) {
        return Ok(Deepened::Found);
    }
    if steps == 0 {
        return Ok(Deepened::Missed { cut: true });
    }
    let mut answer = answer_of(alloc, path, successors)?;
    let length = path.len();
    let mut cut = false;
    'answer: while let Some(next) = answer.pop() {
        if !path.contains(&next) {
            path.push(next)?;
            match deepen(alloc, path, steps - 1, successors, success)? {
                Deepened::Found => return Ok(Deepened::Found),
                Deepened::Missed { cut: deeper } => cut |= deeper,
            }
            path.truncate(length);
        }
    }
    Ok(Deepened::Missed { cut })
}

/// A path with fewest edges from `start` to a node that passes `success`, or `None` exactly where no
/// walk leads from `start` to such a node.
///
/// Nodes need equality alone: they are neither hashed nor cloned. `successors` lists the nodes that
/// follow a node. It must answer alike for equal nodes at every call, and `success` must answer alike
/// too; both are asked of nodes in reach of `start` alone, and of a node as often as paths lead to it.
/// The path begins with `start` itself and contains no node twice. Which of several such paths is
/// answered is open. Where the nodes in reach have no end and none of them passes, the call goes on
/// until memory is refused.
///
/// `pf_search/CALLING.md` has the lemmas by which a caller proves the clause `graph`.
///
/// # Errors
///
/// `OutOfMemory`: a request for memory was refused.
///
/// The algorithm is depth-first iterative deepening (R. E. Korf, "Depth-first iterative-deepening: an
/// optimal admissible tree search", 1985): the paths from `start` are looked through up to a number of
/// edges that grows by one, so that little memory is taken, and its time is of the order of the number
/// of these paths. The depth of calls in the machine is the number of edges of the path.
pub fn iddfs<N, IN, FN, FS, A>(
    alloc: A,
    start: N,
    mut successors: FN,
    mut success: FS,
) -> Result<Option<Vec<N, A>>, PathError>
where
    N: Eq + Drop,
    IN: IntoIterator<Item = N>,
    FN: FnMut(&N) -> IN,
    FS: FnMut(&N) -> bool,
    A: Allocator + Copy,
    requires graph { AnswersUnweightedSearch N.eq (start ∷ []) (⟦<FN as SuccessorFunction<N>>⟧.answers successors) (⟦<FS as NodeTest<N>>⟧.answers success) }

    ensures best { OfUnweightedSearch N.eq (start ∷ []) (⟦<FN as SuccessorFunction<N>>⟧.answers successors) (⟦<FS as NodeTest<N>>⟧.answers success) (λ next test.
        IfOk result (IsFewestEdgesOrNone N.eq next (start ∷ []) test)) }

    ensures errors { IfErr result (λ e. e ≡ PathError.OutOfMemory) }
{
    let mut path = Vec::new(alloc);
    path.push(start)?;
    'limits: for steps in 0..usize::MAX {
        match deepen(alloc, &mut path, steps, &mut successors, &mut success)? {
            Deepened::Found => return Ok(Some(path)),
            Deepened::Missed { cut: false } => return Ok(None),
            Deepened::Missed { cut: true } => {}
        }
    }
    // A path of so many edges has no room.
    Err(PathError::OutOfMemory)
}
