//! A discovery with a test that says which nodes are goals.

ghost use Rattle.std.specs.Prelude.{◌≡◌, ◌<◌, ◌≤◌, ℕ, Contains, IfOk, IfErr, length};
ghost use Rattle.std.specs.List.{AllZip};
ghost use Rattle.pf_base.specs.Answers.{IsLawfulClone};
ghost use Rattle.pf_base.specs.Edges.{InReach, targets};
ghost use Rattle.pf_core.specs.Nodes.{TestedGraph, IsStep, StandsFor, Explores};
ghost use Rattle.pf_core.specs.NodeLaws.{Explores-one, StandsFor-inside};

use crate::discovery::{DiscoveryBy, Nodes};
use crate::numbering::Numbering;
use crate::source::EdgeSource;
use pf_base::{Cost, NodeTest, PathError};
use pf_core::clones::clones_at;
use pf_core::numbered::{GoalGraph, NumberedGraph};
use pf_core::row::Row;
use std::alloc::Allocator;

/// The nodes found so far, what is asked for their edges, and what tests them.
#[derive(Drop)]
pub struct TestedBy<M, S, T> {
    pub discovery: DiscoveryBy<M, S>,
    pub success: T,
}

/// A discovery with a test, of nodes that are numbered by their hashes.
pub type Tested<N, S, T, A> = TestedBy<Nodes<N, A>, S, T>;

impl<N, M, C, S, T> NumberedGraph<C> for TestedBy<M, S, T>
where
    N: Eq + Drop,
    M: Numbering<Node = N>,
    C: Cost,
    S: EdgeSource<N, C>,
    T: NodeTest<N>,
{
    ghost Node = { N };

    ghost Graph = { TestedGraph N };

    ghost step = { λ g. IsStep N.eq g.graph };

    ghost successors = { λ g. targets g.graph.edges };

    ghost passes = { λ g x. g.test x };

    ghost node_count = { λ s. length (M.keys s.discovery.nodes) };

    ghost stands = { λ s. StandsFor N.eq (M.keys s.discovery.nodes) };

    ghost explores = { λ s g. Explores N.eq S.answers g.graph (M.keys s.discovery.nodes) s.discovery.source
        × T.answers s.success (InReach N.eq g.graph.edges g.graph.starts) g.test };

    ghost can_forget = { λ s k. k ≤ length (M.keys s.discovery.nodes) };

    fn node_count(&self) -> usize {
        self.discovery.nodes.len()
    }

    fn expand<R: Row<C>>(&mut self, node: usize, row: &mut R) -> Result<(), PathError> {
        self.discovery.expand(node, row)
    }

    fn forget(&mut self, first: usize) {
        self.discovery.forget(first);
    }

    ghost inside_law = { λ s k x h. StandsFor-inside N.eq (M.keys s.discovery.nodes) k x h };

    ghost one_law = { λ s g e i j x. Explores-one N.Eq.laws e.0 i j x };
}

impl<N, M, C, S, T> GoalGraph<C> for TestedBy<M, S, T>
where
    N: Eq + Drop,
    M: Numbering<Node = N>,
    C: Cost,
    S: EdgeSource<N, C>,
    T: NodeTest<N>,
{
    fn is_goal(&mut self, node: usize) -> bool {
        self.success.passes(&self.discovery.nodes.as_slice()[node])
    }
}

impl<N, M, S, T> TestedBy<M, S, T>
where
    N: Eq + Clone + Drop,
    M: Numbering<Node = N>,
{
    /// Clones of the nodes that the numbers stand for.
    pub fn nodes_at<A>(&self, alloc: A, numbers: &[usize]) -> Result<Vec<N, A>, PathError>
    where
        A: Allocator + Copy,
        requires inside { (k : ℕ) → Contains numbers.now k → k < length (M.keys self.now.discovery.nodes) }
        requires clones { IsLawfulClone N.eq N.is_clone }
        ensures nodes { IfOk result (λ nodes. AllZip (StandsFor N.eq (M.keys self.now.discovery.nodes)) numbers.now nodes.items) }
        ensures refused { IfErr result (λ e. e ≡ PathError.OutOfMemory) }
    {
        clones_at(alloc, self.discovery.nodes.as_slice(), numbers)
    }
}
