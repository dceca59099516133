//! Paths found in preorder (depth-first search).

ghost use Rattle.std.specs.Prelude.{◌≡◌, ◌∷◌, [], List, Bool, IfOk, IfErr};
ghost use Rattle.pf_base.specs.Answers.{IsLawfulClone};
ghost use Rattle.pf_base.specs.Successors.{AnswersUnweightedSearch, OfUnweightedSearch};
ghost use Rattle.pf_search.specs.Preorder.{IsFirstTreePathOrNone};
ghost use Rattle.pf_search.specs.Internal.Descents.{IsBegunSearch};

use crate::directed::dfs::descent::Descent;
use crate::directed::dfs_reach::clones_along;
pub use crate::directed::dfs_reach::{DfsReachable, DfsReachableBy, dfs_reach};
use indexmap::IndexSet;
use pf_base::{NodeTest, PathError, SuccessorFunction};
use pf_discovery::numbering::Numbering;
use std::alloc::Allocator;
use std::hash::Hash;

mod descent;

/// The tree path to the first node that passes, where nothing was visited and the start waits.
fn path_to_first<N, M, F, T, A>(
    alloc: A,
    descent: &mut Descent<M, A>,
    successors: &mut F,
    success: &mut T,
) -> Result<Option<Vec<N, A>>, PathError>
where
    N: Eq + Clone + Drop,
    M: Numbering<Node = N>,
    F: SuccessorFunction<N>,
    T: NodeTest<N>,
    A: Allocator + Copy,
    requires clones { IsLawfulClone N.eq N.is_clone }
    requires graph { (next : N → List N) × (start : N) × (test : N → Bool)
        × IsBegunSearch N.eq F.answers T.answers next start test (M.keys descent.old.visited) descent.old.path.items descent.old.waiting.items successors.old success.old }

    ensures first { (next : N → List N) (start : N) (test : N → Bool)
        → IsBegunSearch N.eq F.answers T.answers next start test (M.keys descent.old.visited) descent.old.path.items descent.old.waiting.items successors.old success.old
        → IfOk result (IsFirstTreePathOrNone N.eq next start test) }

    ensures errors { IfErr result (λ e. e ≡ PathError.OutOfMemory) }
{
    'nodes: for _ in 0..usize::MAX {
        let Some(number) = descent.enter()? else {
            return Ok(None);
        };
        if success.passes(&descent.visited.as_slice()[number]) {
            let path = clones_along(alloc, descent.visited.as_slice(), &descent.path)?;
            return Ok(Some(path));
        }
        let depth = descent.depth()?;
        let items = successors.successors(&descent.visited.as_slice()[number]);
        descent.put(items, depth)?;
    }
    // So many nodes have no room.
    Err(PathError::OutOfMemory)
}

/// The path as `dfs` answers it, over any function and any test of the traits, whose nodes are numbered
/// by any numbering that has none yet.
///
/// # Errors
///
/// `OutOfMemory`: a request for memory was refused.
pub fn dfs_over<N, M, F, T, A>(
    alloc: A,
    nodes: M,
    start: N,
    mut successors: F,
    mut success: T,
) -> Result<Option<Vec<N, A>>, PathError>
where
    N: Eq + Clone + Drop,
    M: Numbering<Node = N> + Drop,
    F: SuccessorFunction<N>,
    T: NodeTest<N>,
    A: Allocator + Copy,
    requires clones { IsLawfulClone N.eq N.is_clone }
    requires empty { M.keys nodes ≡ [] }
    requires graph { AnswersUnweightedSearch N.eq (start ∷ []) (F.answers successors) (T.answers success) }

    ensures first { OfUnweightedSearch N.eq (start ∷ []) (F.answers successors) (T.answers success) (λ next test.
        IfOk result (IsFirstTreePathOrNone N.eq next start test)) }

    ensures errors { IfErr result (λ e. e ≡ PathError.OutOfMemory) }
{
    let mut descent = Descent::new(alloc, nodes);
    descent.begin(start)?;
    path_to_first(alloc, &mut descent, &mut successors, &mut success)
}

/// The tree path of a depth-first search from the start to the first node that passes `success`, or
/// `None` exactly where no walk leads from the start to such a node.
///
/// The nodes are tested in the order of `dfs_reach` (preorder). The path is a list of clones of nodes,
/// and contains no node twice; it need not have fewest edges. `successors` and `success` must answer
/// alike for equal nodes at every call, and are asked of nodes in reach of the start alone.
///
/// `pf_search/CALLING.md` has the lemmas by which a caller proves the clause `graph`.
///
/// # Errors
///
/// `OutOfMemory`: a request for memory was refused.
///
/// The algorithm is depth-first search (R. Tarjan, "Depth-first search and linear graph algorithms",
/// 1972): its time is of the order of the number of nodes and edges in reach.
pub fn dfs<N, IN, FN, FS, A>(
    alloc: A,
    start: N,
    successors: FN,
    success: FS,
) -> Result<Option<Vec<N, A>>, PathError>
where
    N: Eq + Hash + Clone + Drop,
    IN: IntoIterator<Item = N>,
    FN: FnMut(&N) -> IN,
    FS: FnMut(&N) -> bool,
    A: Allocator + Copy,
    requires clones { IsLawfulClone N.eq N.is_clone }
    requires graph { AnswersUnweightedSearch N.eq (start ∷ []) (⟦<FN as SuccessorFunction<N>>⟧.answers successors) (⟦<FS as NodeTest<N>>⟧.answers success) }

    ensures first { OfUnweightedSearch N.eq (start ∷ []) (⟦<FN as SuccessorFunction<N>>⟧.answers successors) (⟦<FS as NodeTest<N>>⟧.answers success) (λ next test.
        IfOk result (IsFirstTreePathOrNone N.eq next start test)) }

    ensures errors { IfErr result (λ e. e ≡ PathError.OutOfMemory) }
{
    dfs_over(alloc, IndexSet::new(alloc), start, successors, success)
}
