//! Discoveries from both ends: each side numbers the nodes that it finds.

ghost use Rattle.std.specs.Prelude.{◌≡◌, ◌<◌, ◌++◌, ℕ, List, IfOk, IfErr, Contains, length, drop, reverse};
ghost use Rattle.std.specs.List.{AllZip};
ghost use Rattle.pf_base.specs.Answers.{IsLawfulClone};
ghost use Rattle.pf_core.specs.Nodes.{NodeGraph, IsStep, StandsFor, Explores};
ghost use Rattle.pf_core.specs.NodeLaws.{StandsFor-inside};
ghost use Rattle.pf_two_sided.specs.Internal.Sides.{by_side};

use crate::bidirectional::Halves;
use crate::sides::{Side, TwoSidedGraph};
use pf_base::{Cost, PathError};
use pf_core::clones::clones_at;
use pf_core::numbered::NumberedGraph;
use pf_core::row::NoRow;
use pf_discovery::discovery::DiscoveryBy;
use pf_discovery::numbering::Numbering;
use pf_discovery::source::EdgeSource;
use std::alloc::Allocator;

/// The nodes found on the way forth with what lists successors, and those found on the way back with
/// what lists predecessors, each with numbers of their own by `M`.
#[derive(Drop)]
pub struct TwoSided<M, S, P> {
    pub forth: DiscoveryBy<M, S>,
    pub back: DiscoveryBy<M, P>,
}

impl<N, M, C, S, P> TwoSidedGraph<C> for TwoSided<M, S, P>
where
    N: Eq + Drop,
    M: Numbering<Node = N>,
    C: Cost,
    S: EdgeSource<N, C>,
    P: EdgeSource<N, C>,
{
    ghost Node = { N };

    ghost Graph = { NodeGraph N × NodeGraph N };

    ghost step = { λ g side. IsStep N.eq (by_side side g.0 g.1) };

    ghost node_count = { λ s side. length (by_side side (M.keys s.forth.nodes) (M.keys s.back.nodes)) };

    ghost stands = { λ s side. StandsFor N.eq (by_side side (M.keys s.forth.nodes) (M.keys s.back.nodes)) };

    ghost explores = { λ s g. Explores N.eq S.answers g.0 (M.keys s.forth.nodes) s.forth.source × Explores N.eq P.answers g.1 (M.keys s.back.nodes) s.back.source };

    fn node_count(&self, side: Side) -> usize {
        match side {
            Side::Forth => self.forth.nodes.len(),
            Side::Back => self.back.nodes.len(),
        }
    }

    fn expand(&mut self, side: Side, node: usize) -> Result<(), PathError> {
        match side {
            Side::Forth => self.forth.expand(node, &mut NoRow),
            Side::Back => self.back.expand(node, &mut NoRow),
        }
    }

    fn number_across(&self, side: Side, number: usize) -> Option<usize> {
        match side {
            Side::Forth => self
                .back
                .nodes
                .get_number_of(&self.forth.nodes.as_slice()[number]),
            Side::Back => self
                .forth
                .nodes
                .get_number_of(&self.back.nodes.as_slice()[number]),
        }
    }

    ghost inside_law = { λ s side k x h. StandsFor-inside N.eq (by_side side (M.keys s.forth.nodes) (M.keys s.back.nodes)) k x h };
}

impl<N, M, S, P> TwoSided<M, S, P>
where
    N: Eq + Clone + Drop,
    M: Numbering<Node = N>,
{
    /// Clones of the nodes on the way forth, and then of those on the way back from behind the node at
    /// which they meet.
    pub fn nodes_along<A: Allocator + Copy>(
        &self,
        alloc: A,
        halves: &Halves<A>,
    ) -> Result<Vec<N, A>, PathError>
        requires forth { (k : ℕ) → Contains halves.now.forth.items k → k < length (M.keys self.now.forth.nodes) }
        requires back { (k : ℕ) → Contains halves.now.back.items k → k < length (M.keys self.now.back.nodes) }
        requires clones { IsLawfulClone N.eq N.is_clone }
        ensures nodes { IfOk result (λ path. (p q : List N) × AllZip (StandsFor N.eq (M.keys self.now.forth.nodes)) halves.now.forth.items p
            × AllZip (StandsFor N.eq (M.keys self.now.back.nodes)) halves.now.back.items q × (path.items ≡ p ++ drop 1 (reverse q))) }
        ensures refused { IfErr result (λ e. e ≡ PathError.OutOfMemory) }
    {
        let mut path = clones_at(alloc, self.forth.nodes.as_slice(), &halves.forth)?;
        let mut rest = clones_at(alloc, self.back.nodes.as_slice(), &halves.back)?;
        rest.pop();
        rest.reverse();
        path.append(&mut rest)?;
        Ok(path)
    }
}
