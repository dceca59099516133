//! Nodes that are numbered in the order in which they are put in.

ghost use Rattle.std.specs.Prelude.{◌≡◌, ◌<◌, ◌^◌, ℕ, List, IfOk, IfErr, MatchOption, OnErr, length, take};
ghost use Rattle.std.specs.List.{AllZip, IsDistinct};
ghost use Rattle.pf_core.specs.Nodes.{AddsNode, StandsFor};

use indexmap::IndexSet;
use std::alloc::{AllocFailed, Allocator};
use std::hash::{BuildHasherDefault, FoldHasher, Hash};

/// Nodes in the order in which they were found, each once; the place of a node is its number.
pub trait Numbering {
    /// What is numbered.
    type Node: Eq;

    // The nodes that have numbers, in the order of these.
    ghost keys: { Self → List Self.Node };

    /// How many nodes have numbers.
    fn len(&self) -> usize
        ensures len { result ≡ length (keys self.now) }
        ensures small { result < 2 ^ 63 };

    /// The nodes that have numbers, in the order of these.
    fn as_slice(&self) -> &[Self::Node]
        ensures keys { result.now ≡ keys self.now }
        ensures unique { IsDistinct Self.Node.eq (keys self.now) };

    /// The number of a node, if it has one.
    fn get_number_of(&self, node: &Self::Node) -> Option<usize>
        ensures { MatchOption result
            ((k : ℕ) → ¬ (StandsFor Self.Node.eq (keys self.now) k node.now))
            (λ k. StandsFor Self.Node.eq (keys self.now) k node.now) };

    /// The number of a node, which is given one if it has none. Where memory is refused, all stays, and
    /// the node is handed back.
    fn number_of(&mut self, node: Self::Node) -> Result<usize, AllocFailed<Self::Node>>
        ensures added { AddsNode Self.Node.eq node (keys self.old) (keys self.new) }
        ensures numbered { IfOk result (λ k. StandsFor Self.Node.eq (keys self.new) k node) }
        ensures stays { OnErr result (keys self.new ≡ keys self.old) }
        ensures returned { IfErr result (λ refusal. refusal.value ≡ node) };

    /// Keeps the numbers below `len` alone.
    fn truncate(&mut self, len: usize)
        ensures keys { keys self.new ≡ take len (keys self.old) }
        ensures unique { IsDistinct Self.Node.eq (keys self.new) };
}

/// Nodes that are numbered by their hashes.
pub type Nodes<N, A> = IndexSet<N, BuildHasherDefault<FoldHasher>, A>;

impl<N: Eq + Hash + Drop, A: Allocator> Numbering for Nodes<N, A> {
    type Node = N;

    ghost keys = { λ s. s.keys };

    fn len(&self) -> usize {
        self.len()
    }

    fn as_slice(&self) -> &[N] {
        self.as_slice()
    }

    fn get_number_of(&self, node: &N) -> Option<usize> {
        self.get_index_of(node)
    }

    fn number_of(&mut self, node: N) -> Result<usize, AllocFailed<N>> {
        match self.insert_full(node) {
            Ok((number, _)) => Ok(number),
            Err(refusal) => Err(refusal),
        }
    }

    fn truncate(&mut self, len: usize) {
        self.truncate(len);
    }
}

/// A numbering whose clones number clones of the nodes.
pub trait CloneNumbering<N: Eq + Clone>: Numbering<Node = N> + Clone {
    // The nodes of a clone are clones of the nodes, in the same order.
    ghost clone_law: { (x y : Self) → Self.is_clone x y → AllZip N.is_clone (Self.keys x) (Self.keys y) };
}

impl<N: Eq + Hash + Clone + Drop, A: Allocator + Copy> CloneNumbering<N> for Nodes<N, A> {
    ghost clone_law = { λ x y h. h };
}
