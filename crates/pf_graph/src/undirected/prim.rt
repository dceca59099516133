//! Minimum spanning trees around a node, which grow by an edge at a time (Jarník 1930, Prim 1957).

ghost use Rattle.std.specs.Prelude.{◌≡◌, ◌<◌, ℕ, true, List, [], IfOk, IfErr, map, length};
ghost use Rattle.std.specs.Borrow.{Bor};
ghost use Rattle.pf_base.specs.Answers.{IsLawfulClone};
ghost use Rattle.pf_base.specs.declared.error.PathError.TheVariants.{OutOfMemory};
ghost use Rattle.pf_graph.specs.Internal.Spanning.Frontier.{AreChained, IsMarked, RunsAsWritten};
ghost use Rattle.pf_graph.specs.EdgesByReference.{shown};
ghost use Rattle.pf_union_find.specs.Nodes.{StandsFor};
ghost use Rattle.pf_graph.specs.GrownTree.{StartsAt, GrowsByLeast, IsLeastAround, AreChosenEitherWay};
ghost use Rattle.pf_graph.specs.Spanning.{IsForest};

use crate::undirected::chains::{Chains, chains_of};
use crate::undirected::frontier::{cover, next_leaving};
use crate::undirected::numbered::number_edges;
use pf_base::PathError;
use pf_base::filled::filled;
use std::alloc::Allocator;
use std::collections::BinaryHeap;
use std::hash::Hash;

/// Grows a tree from the number `start` by the least step that leaves it, until none does. No number
/// is covered before.
fn grow<'a, N, C, A>(
    alloc: A,
    chains: &Chains<'a, N, C, A>,
    covered: &mut [bool],
    start: usize,
) -> Result<Vec<(&'a N, &'a N, C), A>, PathError>
where
    N: Ord,
    C: Clone + Ord,
    A: Allocator + Copy,
    requires clones { IsLawfulClone C.eq C.is_clone }
    requires chained { AreChained chains.now }
    requires inside { start < length chains.now.lasts.items }
    requires len { length covered.old ≡ length chains.now.lasts.items }
    requires none { (k : ℕ) → ¬ (IsMarked true covered.old k) }
    ensures grown { IfOk result (λ tree. (nodes : List (Bor N)) (edges : List (N × N × C)) (x : N) → RunsAsWritten N.eq nodes edges chains.now → StandsFor N.eq nodes start x
        → GrowsByLeast N.eq N.cmp C.cmp edges x (map shown tree.items) × AreChosenEitherWay C.is_clone edges (map shown tree.items)) }
    ensures refused { IfErr result (λ e. e ≡ OutOfMemory) }
{
    let mut queue = BinaryHeap::new(alloc);
    let mut tree = Vec::new(alloc);
    cover(covered, &mut queue, chains, start)?;
    'turns: while let Some(step) = next_leaving(covered, &mut queue) {
        let edge = step.taken();
        tree.push((edge.covered, edge.new, edge.weight.clone()?))?;
        cover(covered, &mut queue, chains, step.number as usize)?;
    }
    Ok(tree)
}

/// A minimum spanning tree of the nodes that edges join to the first node of the first edge (Jarník
/// 1930, Prim 1957).
///
/// An edge is its two ends and its weight, and may be taken in both directions; edges may be
/// parallel, and both ends may be one node. Equal nodes are one node. The tree grows from the first
/// node of the first edge: each new edge is the least of those that lead from a node that the tree
/// covers to one that it does not, by weight, then by the covered node, then by the new node. The
/// answer has the edges in the order in which they are chosen, each as (covered node, new node,
/// weight), with references to the nodes and a clone of the weight. They hold no cycle, and under
/// every weight bound they join those of the tree's nodes that all edges within that bound join.
/// Edges that are not joined to the first node are left out, and no edges give an empty tree.
/// Weights need an order alone; where they are costs, the law `least_tree_weight` gives that no forest
/// of the edges that joins the same nodes has a lower total weight.
///
/// The only error is `OutOfMemory`, with which 2^32 edges and more are refused too.
pub fn prim<'a, N, C, A>(
    alloc: A,
    edges: &'a [(N, N, C)],
) -> Result<Vec<(&'a N, &'a N, C), A>, PathError>
where
    N: Eq + Hash + Ord,
    C: Clone + Ord,
    A: Allocator + Copy,
    requires clones { IsLawfulClone C.eq C.is_clone }
    ensures none { edges.now ≡ [] → IfOk result (λ tree. tree.items ≡ []) }
    ensures grown { IfOk result (λ tree. (start : N) → StartsAt edges.now start → GrowsByLeast N.eq N.cmp C.cmp edges.now start (map shown tree.items)) }
    ensures forest { IfOk result (λ tree. IsForest N.eq (map shown tree.items)) }
    ensures least { IfOk result (λ tree. (start : N) → StartsAt edges.now start → IsLeastAround N.eq C.cmp edges.now start (map shown tree.items)) }
    ensures as_written { IfOk result (λ tree. AreChosenEitherWay C.is_clone edges.now (map shown tree.items)) }
    ensures refused { IfErr result (λ e. e ≡ OutOfMemory) }
{
    // Steps refer to the weights where they stand, so none is kept beside the numbers.
    let numbered = number_edges(alloc, edges, &|_| Ok(()))?;
    let Some(first) = numbered.edges.first() else {
        return Ok(Vec::new(alloc));
    };
    let start = first.0 as usize;
    let count = numbered.count;
    let chains = chains_of(alloc, edges, count, numbered.edges)?;
    let mut covered = filled(alloc, count, false)?;
    grow(alloc, &chains, &mut covered, start)
}
