//! Loops with fewest edges.

ghost use Rattle.std.specs.Prelude.{◌≡◌, IfOk, IfErr};
ghost use Rattle.pf_base.specs.Successors.{AnswersUnweightedGraph, OfUnweightedGraph};
ghost use Rattle.pf_base.specs.Loops.{IsBestLoopOrNone};
ghost use Rattle.pf_base.specs.Answers.{IsLawfulClone};

use crate::discovered::loop_from;
use pf_base::{PathError, SuccessorFunction};
use pf_discovery::discovery::{Discovery, clones_of};
use pf_discovery::source::Unweighted;
use pf_node_refs::NodeRefs;
use std::alloc::Allocator;
use std::hash::Hash;

/// A walk of at least one step, with fewest edges, from one of the `starts` to one of them, or `None`
/// exactly where there is no such walk.
///
/// `successors` lists the nodes that follow a node. It must answer alike for equal nodes at every
/// call, and is asked of nodes in reach of the starts alone. The loop is a list of clones of nodes,
/// its first and its last node included. With several starts the two may differ; no node stands
/// twice, save that these two may be the same node. A start that follows itself is a loop of one
/// step. Which of several such loops is answered is open. With no starts the answer is `None`.
///
/// `pf_search/CALLING.md` has the lemmas by which a caller proves the clause `graph`.
///
/// # Errors
///
/// `OutOfMemory`: a request for memory was refused.
///
/// The algorithm is breadth-first search (E. F. Moore, "The shortest path through a maze", 1959) from
/// all starts at once: the first node in its order that a start follows closes a loop with fewest
/// edges.
pub fn bfs_loop<N, IN, FN, A, B>(
    alloc: A,
    starts: &NodeRefs<'_, N, B>,
    successors: FN,
) -> Result<Option<Vec<N, A>>, PathError>
where
    N: Eq + Hash + Clone + Drop,
    IN: IntoIterator<Item = N>,
    FN: FnMut(&N) -> IN,
    A: Allocator + Copy,
    B: Allocator,
    requires clones { IsLawfulClone N.eq N.is_clone }
    requires graph { AnswersUnweightedGraph N.eq starts.now (⟦<FN as SuccessorFunction<N>>⟧.answers successors) }

    ensures best { OfUnweightedGraph N.eq starts.now (⟦<FN as SuccessorFunction<N>>⟧.answers successors) (λ next.
        IfOk result (IsBestLoopOrNone N.eq next starts.now)) }

    ensures errors { IfErr result (λ e. e ≡ PathError.OutOfMemory) }
{
    let mut graph = Discovery {
        nodes: clones_of(alloc, starts.as_slice())?,
        source: Unweighted {
            function: successors,
        },
    };
    loop_from(alloc, &mut graph)
}
