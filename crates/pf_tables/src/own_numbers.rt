//! A graph in a table as a search sees it that gives out no numbers: each node is its own.

ghost use Rattle.std.specs.Prelude.{◌≡◌, ◌<◌, ℕ, [], OnOk, IfErr, nat_eq};
ghost use Rattle.pf_base.specs.Edges.{HasEdge, targets};
ghost use Rattle.pf_core.specs.Nodes.{TestedGraph};
ghost use Rattle.pf_tables.specs.Internal.OwnLaws.{own_one};
ghost use Rattle.pf_tables.specs.Internal.OwnNumbers.{IsOwn, IsTable};
ghost use Rattle.pf_tables.specs.Graphs.{present};

use crate::goals::Goals;
use crate::graph::Graph;
use pf_base::{Cost, PathError};
use pf_core::numbered::{GoalGraph, NumberedGraph};
use pf_core::row::Row;

/// A table and its goals. All nodes have numbers from the beginning.
#[derive(Drop)]
pub struct OwnNumbers<'g, G, T> {
    pub graph: &'g G,
    pub goals: T,
}

/// Puts what stands at the places of a node into the row.
fn list_places<C, G, R>(graph: &G, node: usize, row: &mut R) -> Result<(), PathError>
where
    C: Cost,
    G: Graph<C>,
    R: Row<C>,
    requires inside { node < G.size graph.now }
    requires empty { R.holds row.old [] }
    ensures listed { OnOk result (R.holds row.new (present (G.places graph.now node))) }
    ensures refused { IfErr result (λ e. e ≡ PathError.OutOfMemory) }
{
    for place in 0..graph.places(node) {
        if let Some(edge) = graph.edge(node, place) {
            row.add(edge.0, edge.1)?;
        }
    }
    Ok(())
}

impl<'g, C, G, T> NumberedGraph<C> for OwnNumbers<'g, G, T>
where
    C: Cost,
    G: Graph<C>,
    T: Goals,
{
    ghost Node = { ℕ };

    ghost Graph = { TestedGraph ℕ };

    ghost step = { λ g a z b. HasEdge nat_eq (g.graph.edges a) b z };

    ghost successors = { λ g. targets g.graph.edges };

    ghost passes = { λ g x. g.test x };

    ghost node_count = { λ s. G.size s.graph.now };

    ghost stands = { λ s. IsOwn (G.size s.graph.now) };

    ghost explores = { λ s g. IsTable C.value (G.size s.graph.now) (G.places s.graph.now) (T.passes s.goals) g };

    ghost can_forget = { λ s k. k ≡ G.size s.graph.now };

    fn node_count(&self) -> usize {
        self.graph.len()
    }

    fn expand<R: Row<C>>(&mut self, node: usize, row: &mut R) -> Result<(), PathError> {
        row.reset();
        self.graph.known();
        list_places(self.graph, node, row)
    }

    fn forget(&mut self, _first: usize) {}

    ghost inside_law = { λ s k x h. h.0 };

    ghost one_law = { λ s g e i j x. own_one (G.size s.graph.now) i j x };
}

impl<'g, C, G, T> GoalGraph<C> for OwnNumbers<'g, G, T>
where
    C: Cost,
    G: Graph<C>,
    T: Goals,
{
    fn is_goal(&mut self, node: usize) -> bool {
        self.goals.is_goal(node)
    }
}
