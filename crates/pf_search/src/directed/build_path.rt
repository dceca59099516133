//! Maps of parents, and the paths that they hold.

ghost use Rattle.std.specs.Prelude.{◌≡◌, ◌∷◌, ◌++◌, [], None, Some, length, IfOk, IfErr, OnOk, MatchOption};
ghost use Rattle.std.specs.HashMap.{get};
ghost use Rattle.pf_base.specs.Answers.{IsLawfulClone};
ghost use Rattle.pf_search.specs.Parents.{IsChainOfParents, MeetsNoneTwice};

use pf_base::PathError;
use std::alloc::Allocator;
use std::collections::HashMap;
use std::hash::{BuildHasher, BuildHasherDefault, FoldHasher, Hash};

/// For a node its parent, which is the node before it on a path, and what that path costs.
pub type Parents<N, C, A> = HashMap<N, (N, C), BuildHasherDefault<FoldHasher>, A>;

/// The parent of a node, or `None` where it has no entry.
fn parent_in<'a, N, C, S, B>(parents: &'a HashMap<N, (N, C), S, B>, node: &N) -> Option<&'a N>
where
    N: Eq + Hash,
    S: BuildHasher,
    B: Allocator,
    ensures { MatchOption result (get N.eq parents.now node.now ≡ None) (λ parent. (cost : C) × (get N.eq parents.now node.now ≡ Some (parent.now, cost))) }
{
    match parents.get(node) {
        Some(entry) => Some(&entry.0),
        None => None,
    }
}

/// Adds a clone of the node at the end of the path.
fn push_clone<N, A>(path: &mut Vec<N, A>, node: &N) -> Result<(), PathError>
where
    N: Eq + Clone + Drop,
    A: Allocator,
    ensures pushed { OnOk result ((x : N) × N.is_clone node.now x × (path.new.items ≡ path.old.items ++ x ∷ [])) }
    ensures refused { IfErr result (λ e. e ≡ PathError.OutOfMemory) }
{
    let end = node.clone()?;
    path.push(end)?;
    Ok(())
}

/// The chain of parents of `target`: clones of the nodes from the first one that has no entry to the
/// target, each the parent of the next. A target without an entry gives a clone of it alone.
///
/// The map may be that of `dijkstra_all` or `dijkstra_partial`, or any other in which parents that are
/// followed from the target meet no node twice. What it says of costs is not read. The only error is
/// `OutOfMemory`.
pub fn build_path<N, C, S, A, B>(
    alloc: A,
    target: &N,
    parents: &HashMap<N, (N, C), S, B>,
) -> Result<Vec<N, A>, PathError>
where
    N: Eq + Hash + Clone + Drop,
    S: BuildHasher,
    A: Allocator + Copy,
    B: Allocator,
    requires clones { IsLawfulClone N.eq N.is_clone }
    requires no_ring { MeetsNoneTwice N.eq (get N.eq parents.now) target.now }
    ensures chain { IfOk result (λ path. IsChainOfParents N.eq (get N.eq parents.now) target.now path.items) }
    ensures alone { IfOk result (λ path. get N.eq parents.now target.now ≡ None → length path.items ≡ 1) }
    ensures refused { IfErr result (λ e. e ≡ PathError.OutOfMemory) }
{
    let mut path = Vec::new(alloc);
    push_clone(&mut path, target)?;
    let mut at = target;
    'climb: while let Some(parent) = parent_in(parents, at) {
        push_clone(&mut path, parent)?;
        at = parent;
    }
    path.reverse();
    Ok(path)
}
