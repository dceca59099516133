//! Sets of nodes that others own, as the starts of a search.

ghost use Rattle.std.specs.Prelude.{◌≡◌, ◌↔◌, ◌<◌, ◌^◌, [], ◌∷◌, length, IsTrue, IfOk, IfErr};
ghost use Rattle.std.specs.Cmp.{partial_equiv_from_equiv};
ghost use Rattle.std.specs.Iterator.{IsFiniteIterable, YieldsFirstRef, item_count};
ghost use Rattle.pf_base.specs.Walks.{HasNode, NoRepeats};
ghost use Rattle.pf_base.specs.NodeRefs.{HasNodesGivenBy, HasSameNodes, has_same_nodes, nodes_of};
ghost use Rattle.pf_node_refs.specs.Internal.NodeRefsLaws.{same_nodes_equiv};
ghost use Rattle.pf_base.specs.declared.error.PathError.TheVariants.{OutOfMemory};

use indexmap::{IndexSet, set};
use pf_base::PathError;
use std::alloc::{AllocError, Allocator, Global};
use std::hash::{BuildHasherDefault, FoldHasher, Hash};
use std::marker::Model;
use std::{fmt, slice};

/// A finite set of node references, in which each node stands once.
///
/// Equal nodes are one node, also where they lie at two places; which of the references to them is
/// kept is open, and so is the order. A contract sees the list of the nodes. Only the makers and
/// `clone` take memory, and out of memory is their only error.
pub struct NodeRefs<'a, N: Eq + Hash, A: Allocator = Global> {
    nodes: IndexSet<&'a N, BuildHasherDefault<FoldHasher>, A>,
}

impl<'a, N: Eq + Hash, A: Allocator> Model for NodeRefs<'a, N, A> {
    ghost use Rattle.std.specs.Prelude.{List};
    ghost use Rattle.pf_base.specs.NodeRefs.{nodes_of};
    ghost use Rattle.pf_base.specs.Walks.{NoRepeats};

    ghost Value = { List N };

    ghost view = { λ s. nodes_of s.nodes.keys };

    ghost invariant = { λ s. NoRepeats N.eq (nodes_of s.nodes.keys) };
}

impl<'a, N: Eq + Hash, A: Allocator> Drop for NodeRefs<'a, N, A> {
    fn drop(self) {
        let NodeRefs { nodes: _ } = self;
    }
}

impl<'a, N: Eq + Hash, A: Allocator + Copy> NodeRefs<'a, N, A> {
    /// The set of one node. The only error is out of memory.
    pub fn from_one(alloc: A, node: &'a N) -> Result<Self, PathError>
        ensures one { IfOk result (λ s. s ≡ node.now ∷ []) }
        ensures refused { IfErr result (λ e. e ≡ OutOfMemory) }
    {
        let mut nodes = IndexSet::new(alloc);
        nodes.insert(node)?;
        Ok(NodeRefs { nodes })
    }

    /// The set of the nodes that `nodes` gives, each once: a slice of nodes, or any other iterable
    /// of references that ends. The only error is out of memory.
    pub fn from_nodes<I: IntoIterator<Item = &'a N>>(alloc: A, nodes: I) -> Result<Self, PathError>
        requires ends { IsFiniteIterable I.into_iter_gives I.IntoIter.can_next I.IntoIter.remaining nodes }
        ensures given { IfOk result (HasNodesGivenBy N.eq I.into_iter_gives I.IntoIter.next_gives nodes) }
        ensures once { IfOk result (NoRepeats N.eq) }
        ensures refused { IfErr result (λ e. e ≡ OutOfMemory) }
    {
        // `IndexSet::from_iter` passes over the refusal of the room that it asks for first.
        let mut kept = IndexSet::new(alloc);
        for node in nodes {
            kept.insert(node)?;
        }
        Ok(NodeRefs { nodes: kept })
    }
}

impl<'a, N: Eq + Hash, A: Allocator> NodeRefs<'a, N, A> {
    /// Whether a node that is equal to `node` is in the set.
    pub fn contains(&self, node: &N) -> bool
        ensures { IsTrue result ↔ HasNode N.eq self.now node.now }
    {
        self.nodes.contains(&node)
    }

    /// The number of nodes.
    pub fn len(&self) -> usize
        ensures len { result ≡ length self.now }
        ensures once { NoRepeats N.eq self.now }
    {
        self.nodes.len()
    }

    /// Whether there are no nodes.
    pub fn is_empty(&self) -> bool
        ensures { IsTrue result ↔ (self.now ≡ []) }
    {
        self.nodes.is_empty()
    }

    /// References to the nodes, each once.
    pub fn as_slice(&self) -> &[&'a N]
        ensures nodes { nodes_of result.now ≡ self.now }
        ensures once { NoRepeats N.eq self.now }
    {
        self.nodes.as_slice()
    }

    /// The nodes, each once.
    pub fn iter(&self) -> NodeRefsIter<'_, 'a, N>
        ensures nodes { result ≡ self.now }
        ensures once { NoRepeats N.eq self.now }
        ensures fits { length self.now < 2 ^ 64 }
    {
        NodeRefsIter {
            left: self.nodes.as_slice().iter(),
        }
    }
}

impl<'s, 'a, N: Eq + Hash, A: Allocator> IntoIterator for &'s NodeRefs<'a, N, A> {
    type Item = &'a N;

    type IntoIter = NodeRefsIter<'s, 'a, N>;

    ghost into_iter_gives = { λ s r. (r ≡ s.now) × NoRepeats N.eq s.now × (length s.now < 2 ^ 64) };

    fn into_iter(self) -> NodeRefsIter<'s, 'a, N> {
        self.iter()
    }
}

impl<'a, N: Eq + Hash, A: Allocator> IntoIterator for NodeRefs<'a, N, A> {
    type Item = &'a N;

    type IntoIter = NodeRefsIntoIter<'a, N, A>;

    ghost into_iter_gives = { λ s r. (r ≡ s) × NoRepeats N.eq s × (length s < 2 ^ 64) };

    fn into_iter(self) -> NodeRefsIntoIter<'a, N, A> {
        let NodeRefs { nodes } = self;
        NodeRefsIntoIter {
            left: nodes.into_iter(),
        }
    }
}

/// A clone has the same nodes in the same order.
impl<'a, N: Eq + Hash, A: Allocator + Clone> Clone for NodeRefs<'a, N, A> {
    ghost is_clone = { λ s t. t ≡ s };

    fn clone(&self) -> Result<Self, AllocError> {
        let nodes = self.nodes.clone()?;
        Ok(NodeRefs { nodes })
    }
}

impl<'a, N: Eq + Hash + fmt::Debug, A: Allocator> fmt::Debug for NodeRefs<'a, N, A> {
    fn fmt<W: fmt::Write>(&self, f: &mut fmt::Formatter<W>) -> fmt::Result {
        f.debug_set().entries(self.iter()).finish()
    }
}

/// Two sets are equal where each node of one is in the other.
impl<'a, N: Eq + Hash, A: Allocator> PartialEq for NodeRefs<'a, N, A> {
    ghost eq = { has_same_nodes N.eq };

    ghost laws = { partial_equiv_from_equiv (same_nodes_equiv N.Eq.laws) };

    fn eq(&self, other: &Self) -> bool
        ensures value { result ≡ has_same_nodes N.eq self.now other.now }
        ensures same { IsTrue result ↔ HasSameNodes N.eq self.now other.now }
    {
        self.nodes == other.nodes
    }
}

impl<'a, N: Eq + Hash, A: Allocator> Eq for NodeRefs<'a, N, A> {
    ghost laws = { same_nodes_equiv N.Eq.laws };
}

/// The nodes of a `NodeRefs` that is lent.
#[derive(Drop)]
pub struct NodeRefsIter<'s, 'a, N> {
    left: slice::Iter<'s, &'a N>,
}

impl<'s, 'a, N> Model for NodeRefsIter<'s, 'a, N> {
    ghost use Rattle.std.specs.Prelude.{List};
    ghost use Rattle.std.specs.Slice.Iter.{iter_rest};
    ghost use Rattle.pf_base.specs.NodeRefs.{nodes_of};

    ghost Value = { List N };

    ghost view = { λ s. nodes_of (iter_rest s.left) };
}

impl<'s, 'a, N> Iterator for NodeRefsIter<'s, 'a, N> {
    type Item = &'a N;

    ghost next_gives = { YieldsFirstRef (λ s. s) };

    ghost remaining = { item_count (λ s. s) };

    fn next(&mut self) -> Option<&'a N> {
        let node = self.left.next()?;
        Some(*node)
    }
}

/// The nodes of a `NodeRefs` that is used up.
#[derive(Drop)]
pub struct NodeRefsIntoIter<'a, N, A: Allocator = Global> {
    left: set::IntoIter<&'a N, A>,
}

impl<'a, N, A: Allocator> Model for NodeRefsIntoIter<'a, N, A> {
    ghost use Rattle.std.specs.Prelude.{List};
    ghost use Rattle.pf_base.specs.NodeRefs.{nodes_of};

    ghost Value = { List N };

    ghost view = { λ s. nodes_of s.left };
}

impl<'a, N, A: Allocator> Iterator for NodeRefsIntoIter<'a, N, A> {
    type Item = &'a N;

    ghost next_gives = { YieldsFirstRef (λ s. s) };

    ghost remaining = { item_count (λ s. s) };

    fn next(&mut self) -> Option<&'a N> {
        self.left.next()
    }
}
