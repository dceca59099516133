//! Estimates of the cost that remains from each node of a graph in a table to a goal.

ghost use Rattle.std.specs.Prelude.{◌≡◌, ℕ, IfOk, IfErr};
ghost use Rattle.pf_estimated_graphs.specs.EstimatesInTables.{AreConsistent, IsFirstEstimateFault, estimate_at};

use crate::checks::{check_edges, check_nodes};
use crate::error::EstimateError;
use crate::estimated_graph::EstimatedGraph;
use pf_base::Cost;
use pf_tables::{Goals, Graph};
use std::marker::Model;

/// An estimate of the cost that remains from each node of a table to a goal, which was tested: it is
/// never above what remains.
///
/// A contract sees the table, the goals and the list of the estimates.
#[derive(Drop)]
pub struct Estimates<'a, C: Cost, G: Graph<C>, T: Goals + Copy> {
    graph: &'a G,
    goals: T,
    estimates: &'a [C],
}

impl<'a, C: Cost, G: Graph<C>, T: Goals + Copy> Model for Estimates<'a, C, G, T> {
    ghost use Rattle.std.specs.Prelude.{◌≡◌};
    ghost use Rattle.pf_estimated_graphs.specs.EstimatesInTables.{AreConsistent, TableEstimates};

    ghost Value = { TableEstimates C G T };

    ghost view = { λ s. record { table = s.graph.now; goals = s.goals; estimates = s.estimates.now } };

    ghost invariant = { λ s. AreConsistent C.value (G.size s.graph.now) (G.places s.graph.now) (T.passes s.goals) s.estimates.now };
}

impl<'a, C: Cost, G: Graph<C>, T: Goals + Copy> Estimates<'a, C, G, T> {
    /// The estimates of the nodes of a table, the first one that of node 0, each of the cost that
    /// remains from the node to a goal.
    ///
    /// They are tested in one pass over the nodes and one over the edges: there is one for each node,
    /// none is less than 0, that of a goal is 0, and none is above what an edge of its node costs and
    /// the estimate of the node that the edge leads to. So none is above what a way to a goal costs.
    ///
    /// # Errors
    ///
    /// The first fault: `WrongNumberOfEstimates`; else `NegativeEstimate` or `EstimateAtGoal` at the
    /// first such node; else `EstimateAboveEdge` at the first such place of the first such node.
    pub fn new(graph: &'a G, goals: T, estimates: &'a [C]) -> Result<Self, EstimateError>
        ensures made { IfOk result (λ made. made ≡ record { table = graph.now; goals = goals; estimates = estimates.now }) }
        ensures consistent { IfOk result (λ made. AreConsistent C.value (G.size graph.now) (G.places graph.now) (T.passes goals) estimates.now) }
        ensures fault { IfErr result (IsFirstEstimateFault C.value (G.size graph.now) (G.places graph.now) (T.passes goals) estimates.now) }
    {
        if estimates.len() != graph.len() {
            return Err(EstimateError::WrongNumberOfEstimates);
        }
        check_nodes(&goals, estimates)?;
        check_edges(graph, estimates)?;
        Ok(Estimates {
            graph,
            goals,
            estimates,
        })
    }

    /// The same, where the estimates are known to be consistent: nothing is tested.
    pub fn from_consistent(graph: &'a G, goals: T, estimates: &'a [C]) -> Self
        requires { AreConsistent C.value (G.size graph.now) (G.places graph.now) (T.passes goals) estimates.now }
        ensures { result ≡ record { table = graph.now; goals = goals; estimates = estimates.now } }
    {
        Estimates {
            graph,
            goals,
            estimates,
        }
    }

    /// The estimate of a node. That of a number that is no node is 0.
    pub fn estimate(&self, node: usize) -> C
        ensures { C.value result ≡ estimate_at C.value self.now.estimates node }
    {
        match self.estimates.get(node) {
            Some(estimate) => *estimate,
            None => C::zero(),
        }
    }

    /// Says that the estimates are consistent. The body is empty.
    pub fn known(&self)
        ensures { AreConsistent C.value (G.size self.now.table) (G.places self.now.table) (T.passes self.now.goals) self.now.estimates }
    {
        let _estimates = &self.estimates;
    }
}

impl<'a, C: Cost, G: Graph<C>, T: Goals + Copy> Graph<C> for Estimates<'a, C, G, T> {
    ghost size = { λ estimates. G.size estimates.table };

    ghost places = { λ estimates. G.places estimates.table };

    fn len(&self) -> usize {
        self.graph.len()
    }

    fn places(&self, node: usize) -> usize {
        self.graph.places(node)
    }

    fn edge(&self, node: usize, place: usize) -> Option<(usize, C)> {
        self.graph.edge(node, place)
    }

    fn known(&self) {
        self.graph.known();
    }
}

impl<'a, C: Cost, G: Graph<C>, T: Goals + Copy> Goals for Estimates<'a, C, G, T> {
    ghost passes = { λ estimates. T.passes estimates.goals };

    fn is_goal(&self, node: usize) -> bool {
        self.goals.is_goal(node)
    }
}

impl<'a, C: Cost, G: Graph<C>, T: Goals + Copy> EstimatedGraph<C> for Estimates<'a, C, G, T> {
    ghost estimates = { λ estimates. estimate_at C.value estimates.estimates };

    fn estimate(&self, node: usize) -> C {
        self.estimate(node)
    }

    fn consistent(&self) {
        self.known();
    }
}
