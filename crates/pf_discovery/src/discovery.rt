//! The nodes that were found, numbered in the order in which they are found.

ghost use Rattle.std.specs.Prelude.{◌≡◌, ◌↔◌, ◌≤◌, ◌<◌, ℕ, true, [], ◌∷◌, ◌++◌, List, false, Contains, IfOk, IfErr, OnOk, OnErr, map, take, length};
ghost use Rattle.std.specs.Iterator.{IsFiniteIterable, Drains};
ghost use Rattle.std.specs.List.{IsDistinct, AllZip};
ghost use Rattle.pf_base.specs.NodeRefs.{HasSameNodes, nodes_of};
ghost use Rattle.pf_base.specs.Answers.{IsLawfulClone};
ghost use Rattle.pf_base.specs.Edges.{targets};
ghost use Rattle.pf_core.specs.Nodes.{NodeGraph, IsStep, StandsFor, AddsNode, NumbersItems, AddedFrom, Explores};
ghost use Rattle.pf_core.specs.Numbered.{NumbersInOrder};
ghost use Rattle.pf_core.specs.NodeLaws.{Explores-one, StandsFor-inside};

pub use crate::numbering::Nodes;
use crate::numbering::Numbering;
use crate::source::EdgeSource;
use indexmap::IndexSet;
use pf_base::{Cost, PathError};
use pf_core::numbered::NumberedGraph;
use pf_core::row::Row;
use std::alloc::Allocator;
use std::hash::Hash;

/// The nodes found so far, with numbers by `M`, and what is asked for their edges.
#[derive(Drop)]
pub struct DiscoveryBy<M, S> {
    pub nodes: M,
    pub source: S,
}

/// A discovery of nodes that are numbered by their hashes.
pub type Discovery<N, S, A> = DiscoveryBy<Nodes<N, A>, S>;

impl<N, M, C, S> NumberedGraph<C> for DiscoveryBy<M, S>
where
    N: Eq + Drop,
    M: Numbering<Node = N>,
    C: Cost,
    S: EdgeSource<N, C>,
{
    ghost Node = { N };

    ghost Graph = { NodeGraph N };

    ghost step = { IsStep N.eq };

    ghost successors = { λ g. targets g.edges };

    ghost passes = { λ _ _. false };

    ghost node_count = { λ s. length (M.keys s.nodes) };

    ghost stands = { λ s. StandsFor N.eq (M.keys s.nodes) };

    ghost explores = { λ s g. Explores N.eq S.answers g (M.keys s.nodes) s.source };

    ghost can_forget = { λ s k. k ≤ length (M.keys s.nodes) };

    fn node_count(&self) -> usize {
        self.nodes.len()
    }

    fn expand<R: Row<C>>(&mut self, node: usize, row: &mut R) -> Result<(), PathError> {
        row.reset();
        let items = self.source.items(&self.nodes.as_slice()[node]);
        number_all::<N, M, C, S, R>(&mut self.nodes, items, row)
    }

    fn forget(&mut self, first: usize) {
        self.nodes.truncate(first);
    }

    ghost inside_law = { λ s k x h. StandsFor-inside N.eq (M.keys s.nodes) k x h };

    ghost one_law = { λ s g e i j x. Explores-one N.Eq.laws e i j x };
}

/// Numbers the node of an edge, and puts the edge at the end of the row.
fn number_edge<N, M, C, R>(nodes: &mut M, row: &mut R, edge: (N, C)) -> Result<(), PathError>
where
    N: Eq + Drop,
    M: Numbering<Node = N>,
    C: Cost,
    R: Row<C>,
    ensures added { AddsNode N.eq edge.0 (M.keys nodes.old) (M.keys nodes.new) }
    ensures numbered { OnOk result ((k : ℕ) × StandsFor N.eq (M.keys nodes.new) k edge.0
        × ((steps : List (ℕ × C)) → R.holds row.old steps → R.holds row.new (steps ++ (k, edge.1) ∷ []))) }
    ensures refused { IfErr result (λ e. e ≡ PathError.OutOfMemory) }
{
    let number = nodes.number_of(edge.0)?;
    row.add(number, edge.1)
}

/// Numbers the nodes of an answer. Where memory is refused, the nodes stay as they were.
fn number_all<N, M, C, S, R>(nodes: &mut M, items: S::Items, row: &mut R) -> Result<(), PathError>
where
    N: Eq + Drop,
    M: Numbering<Node = N>,
    C: Cost,
    S: EdgeSource<N, C>,
    R: Row<C>,
    requires ends { IsFiniteIterable S.Items.into_iter_gives S.Items.IntoIter.can_next S.Items.IntoIter.remaining items }
    requires empty { R.holds row.old [] }
    requires distinct { IsDistinct N.eq (M.keys nodes.old) }
    ensures numbered { OnOk result ((it : S.Items.IntoIter) × (xs : List S.Item) × S.Items.into_iter_gives items it × Drains S.Items.IntoIter.next_gives it xs
        × ((steps : List (ℕ × C)) × R.holds row.new steps × NumbersItems N.eq (M.keys nodes.new) steps (map S.edge xs)) × AddedFrom N.eq (map S.edge xs) (M.keys nodes.old) (M.keys nodes.new)
        × NumbersInOrder (StandsFor N.eq (M.keys nodes.new)) (length (M.keys nodes.old)) (map (λ (x : N × C). x.0) (map S.edge xs)) (length (M.keys nodes.new))) }
    ensures distinct { IsDistinct N.eq (M.keys nodes.new) }
    ensures longer { length (M.keys nodes.old) ≤ length (M.keys nodes.new) }
    ensures kept { take (length (M.keys nodes.old)) (M.keys nodes.new) ≡ (M.keys nodes.old) }
    ensures stays { OnErr result ((M.keys nodes.new) ≡ (M.keys nodes.old)) }
    ensures refused { IfErr result (λ e. e ≡ PathError.OutOfMemory) }
{
    let len = nodes.len();
    'items: for item in items {
        let edge = S::edge_of(item);
        if let Err(refusal) = number_edge(nodes, row, edge) {
            nodes.truncate(len);
            return Err(refusal);
        }
    }
    Ok(())
}

/// The set of a clone of one node.
pub fn clone_of<N, A>(alloc: A, start: &N) -> Result<Nodes<N, A>, PathError>
where
    N: Eq + Hash + Clone + Drop,
    A: Allocator + Copy,
    requires clones { IsLawfulClone N.eq N.is_clone }
    ensures one { IfOk result (λ nodes. length nodes.keys ≡ 1) }
    ensures begins { IfOk result (λ nodes. (x : N) → StandsFor N.eq nodes.keys 0 x ↔ (N.eq start.now x ≡ true)) }
    ensures same { IfOk result (λ nodes. HasSameNodes N.eq nodes.keys (start.now ∷ [])) }
    ensures distinct { IfOk result (λ nodes. IsDistinct N.eq nodes.keys) }
    ensures refused { IfErr result (λ e. e ≡ PathError.OutOfMemory) }
{
    let mut nodes = IndexSet::new(alloc);
    let first = start.clone()?;
    nodes.insert(first)?;
    Ok(nodes)
}

/// The set of clones of these nodes.
pub fn clones_of<N, A>(alloc: A, starts: &[&N]) -> Result<Nodes<N, A>, PathError>
where
    N: Eq + Hash + Clone + Drop,
    A: Allocator + Copy,
    requires clones { IsLawfulClone N.eq N.is_clone }
    ensures same { IfOk result (λ nodes. HasSameNodes N.eq nodes.keys (nodes_of starts.now)) }
    ensures distinct { IfOk result (λ nodes. IsDistinct N.eq nodes.keys) }
    ensures refused { IfErr result (λ e. e ≡ PathError.OutOfMemory) }
{
    let mut nodes = IndexSet::new(alloc);
    'starts: for start in starts.iter().copied() {
        let node = start.clone()?;
        nodes.insert(node)?;
    }
    Ok(nodes)
}
