//! Paths with fewest edges, searched from both ends.

ghost use Rattle.std.specs.Prelude.{◌≡◌, IfOk, IfErr};
ghost use Rattle.pf_base.specs.Successors.{IsFewestEdgesOrNone};
ghost use Rattle.pf_base.specs.Mirrors.{is_among, AnswersSearchFromBothEnds, OfSearchFromBothEnds};
ghost use Rattle.pf_base.specs.Answers.{IsLawfulClone};

use crate::discovered::fewest_edges_path;
use pf_base::{PathError, SuccessorFunction};
use pf_discovery::discovery::{Discovery, clones_of};
use pf_discovery::source::Unweighted;
use pf_node_refs::NodeRefs;
use pf_two_sided::two_sided::TwoSided;
use std::alloc::Allocator;
use std::hash::Hash;

/// A path with fewest edges from one of the `starts` to one of the `ends`, or `None` exactly where no
/// walk leads from a start to an end.
///
/// `successors` lists the nodes that follow a node, `predecessors` those that precede it, and each
/// must mirror the other: b is among the successors of a exactly where a is among the predecessors of
/// b. Both must answer alike for equal nodes at every call; `successors` is asked of nodes in reach of
/// the starts alone, `predecessors` of nodes from which an end is in reach by its own answers. The
/// path is a list of clones of nodes, from a start to an end, and contains no node twice; a start that
/// is an end is a path alone. Which of several such paths is answered is open. With no starts or no
/// ends the answer is `None`.
///
/// `pf_search/CALLING.md` has the lemmas by which a caller proves the clause `graph`.
///
/// # Errors
///
/// `OutOfMemory`: a request for memory was refused.
///
/// The algorithm is breadth-first search from both ends (I. Pohl, "Bi-directional search", 1971),
/// which visits a whole level at a time of the side that found fewer nodes last. On a graph that fans
/// out it asks for far fewer nodes than a search from one end.
pub fn bfs_bidirectional<N, IN, FN, IM, FM, A, B, E>(
    alloc: A,
    starts: &NodeRefs<'_, N, B>,
    ends: &NodeRefs<'_, N, E>,
    successors: FN,
    predecessors: FM,
) -> Result<Option<Vec<N, A>>, PathError>
where
    N: Eq + Hash + Clone + Drop,
    IN: IntoIterator<Item = N>,
    FN: FnMut(&N) -> IN,
    IM: IntoIterator<Item = N>,
    FM: FnMut(&N) -> IM,
    A: Allocator + Copy,
    B: Allocator,
    E: Allocator,
    requires clones { IsLawfulClone N.eq N.is_clone }
    requires graph { AnswersSearchFromBothEnds N.eq starts.now ends.now (⟦<FN as SuccessorFunction<N>>⟧.answers successors) (⟦<FM as SuccessorFunction<N>>⟧.answers predecessors) }

    ensures best { OfSearchFromBothEnds N.eq starts.now ends.now (⟦<FN as SuccessorFunction<N>>⟧.answers successors) (⟦<FM as SuccessorFunction<N>>⟧.answers predecessors) (λ next previous.
        IfOk result (IsFewestEdgesOrNone N.eq next starts.now (is_among N.eq ends.now))) }

    ensures errors { IfErr result (λ e. e ≡ PathError.OutOfMemory) }
{
    let forth = Discovery {
        nodes: clones_of(alloc, starts.as_slice())?,
        source: Unweighted {
            function: successors,
        },
    };
    let back = Discovery {
        nodes: clones_of(alloc, ends.as_slice())?,
        source: Unweighted {
            function: predecessors,
        },
    };
    fewest_edges_path(alloc, &mut TwoSided { forth, back })
}
