//! Paths with fewest edges (breadth-first search).

ghost use Rattle.std.specs.Prelude.{◌≡◌, List, Bool, IfOk, IfErr};
ghost use Rattle.pf_base.specs.Successors.{AnswersUnweightedSearch, OfUnweightedSearch, IsFewestEdgesOrNone};
ghost use Rattle.pf_base.specs.Answers.{IsLawfulClone};
ghost use Rattle.pf_base.specs.Edges.{InReach};
ghost use Rattle.pf_base.specs.NodeRefs.{HasSameNodes};
ghost use Rattle.pf_core.specs.Hops.{unit_edges};
ghost use Rattle.pf_discovery.specs.ExploredHops.{ExploresHops};

mod loops;

pub use crate::directed::bfs_reach::{BfsReachable, BfsReachableBy, bfs_reach};
pub use loops::bfs_loop;
use pf_base::{NodeTest, PathError, SuccessorFunction};
use pf_core::bfs::fewest_edges_path;
use pf_discovery::discovery::{Discovery, clones_of};
use pf_discovery::source::{EdgeSource, Unweighted};
use pf_discovery::tested::Tested;
use pf_node_refs::NodeRefs;
use std::alloc::Allocator;
use std::hash::Hash;

/// A path with fewest edges from a node that was found before to one that passes.
fn path_from<N, S, T, A>(
    alloc: A,
    graph: &mut Tested<N, S, T, A>,
) -> Result<Option<Vec<N, A>>, PathError>
where
    N: Eq + Hash + Clone + Drop,
    S: EdgeSource<N, u8>,
    T: NodeTest<N>,
    A: Allocator + Copy,
    requires clones { IsLawfulClone N.eq N.is_clone }
    requires graph { (next : N → List N) × (starts : List N) × (test : N → Bool)
        × ExploresHops N.eq S.answers starts next graph.old.discovery
        × T.answers graph.old.success (InReach N.eq (unit_edges next) starts) test }

    ensures best { (next : N → List N) (starts : List N) (test : N → Bool)
        → ExploresHops N.eq S.answers starts next graph.old.discovery
        → T.answers graph.old.success (InReach N.eq (unit_edges next) starts) test
        → HasSameNodes N.eq graph.old.discovery.nodes.keys starts → IfOk result (IsFewestEdgesOrNone N.eq next starts test) }

    ensures errors { IfErr result (λ e. e ≡ PathError.OutOfMemory) }
{
    match fewest_edges_path::<u8, _, _>(alloc, graph)? {
        None => Ok(None),
        Some(numbers) => graph.nodes_at(alloc, &numbers).map(Some),
    }
}

/// A path with fewest edges from one of the `starts` to a node that passes `success`, or `None`
/// exactly where no walk leads from a start to such a node.
///
/// `successors` lists the nodes that follow a node. It must answer alike for equal nodes at every
/// call, and `success` must answer alike too; both are asked of nodes in reach of the starts alone.
/// The path is a list of clones of nodes, from a start on, and contains no node twice; a start that
/// passes is a path alone. Which of several such paths is answered is open. With no starts the answer
/// is `None`.
///
/// `pf_search/CALLING.md` has the lemmas by which a caller proves the clause `graph`.
///
/// # Errors
///
/// `OutOfMemory`: a request for memory was refused.
///
/// The algorithm is breadth-first search (E. F. Moore, "The shortest path through a maze", 1959): its
/// time is of the order of the number of nodes and edges in reach.
pub fn bfs<N, IN, FN, FS, A, B>(
    alloc: A,
    starts: &NodeRefs<'_, N, B>,
    successors: FN,
    success: FS,
) -> Result<Option<Vec<N, A>>, PathError>
where
    N: Eq + Hash + Clone + Drop,
    IN: IntoIterator<Item = N>,
    FN: FnMut(&N) -> IN,
    FS: FnMut(&N) -> bool,
    A: Allocator + Copy,
    B: Allocator,
    requires clones { IsLawfulClone N.eq N.is_clone }
    requires graph { AnswersUnweightedSearch N.eq starts.now (⟦<FN as SuccessorFunction<N>>⟧.answers successors) (⟦<FS as NodeTest<N>>⟧.answers success) }

    ensures best { OfUnweightedSearch N.eq starts.now (⟦<FN as SuccessorFunction<N>>⟧.answers successors) (⟦<FS as NodeTest<N>>⟧.answers success) (λ next test.
        IfOk result (IsFewestEdgesOrNone N.eq next starts.now test)) }

    ensures errors { IfErr result (λ e. e ≡ PathError.OutOfMemory) }
{
    let discovery = Discovery {
        nodes: clones_of(alloc, starts.as_slice())?,
        source: Unweighted {
            function: successors,
        },
    };
    path_from(alloc, &mut Tested { discovery, success })
}
