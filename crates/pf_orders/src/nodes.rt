//! The nodes that a call is given, each once.

ghost use Rattle.std.specs.Prelude.{◌≡◌, ◌<◌, ℕ, Some, Vec, IfOk, IfErr, Contains, length, slice_get};
ghost use Rattle.std.specs.List.{IsDistinct, AllZip};
ghost use Rattle.pf_base.specs.NodeRefs.{HasSameNodes};
ghost use Rattle.pf_base.specs.Answers.{IsLawfulClone};
ghost use Rattle.pf_orders.specs.Internal.Rounds.{AreNodesAt};

use indexmap::IndexSet;
use pf_base::PathError;
use pf_core::clones::clones_at;
use pf_discovery::discovery::Nodes;
use std::alloc::Allocator;
use std::hash::Hash;

/// The set of clones of these nodes.
pub fn nodes_of<N, A>(alloc: A, nodes: &[N]) -> Result<Nodes<N, A>, PathError>
where
    N: Eq + Hash + Clone + Drop,
    A: Allocator + Copy,
    requires clones { IsLawfulClone N.eq N.is_clone }
    ensures same { IfOk result (λ set. HasSameNodes N.eq set.keys nodes.now) }
    ensures distinct { IfOk result (λ set. IsDistinct N.eq set.keys) }
    ensures refused { IfErr result (λ e. e ≡ PathError.OutOfMemory) }
{
    let mut set = IndexSet::with_capacity(alloc, nodes.len())?;
    'nodes: for node in nodes {
        let clone = node.clone()?;
        set.insert(clone)?;
    }
    Ok(set)
}

/// Clones of the nodes that the numbers of each group stand for.
pub fn groups_at<N, A>(
    alloc: A,
    nodes: &[N],
    groups: &[Vec<usize, A>],
) -> Result<Vec<Vec<N, A>, A>, PathError>
where
    N: Eq + Clone + Drop,
    A: Allocator + Copy,
    requires inside { (i k : ℕ) (group : Vec ℕ A) → slice_get groups.now i ≡ Some group → Contains group.items k → k < length nodes.now }
    requires clones { IsLawfulClone N.eq N.is_clone }
    ensures nodes { IfOk result (λ answer. AllZip (AreNodesAt N.eq nodes.now) groups.now answer.items) }
    ensures refused { IfErr result (λ e. e ≡ PathError.OutOfMemory) }
{
    let mut answer = Vec::with_capacity(alloc, groups.len())?;
    'groups: for group in groups {
        let members = clones_at(alloc, nodes, group)?;
        answer.push(members)?;
    }
    Ok(answer)
}
