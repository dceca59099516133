//! An estimated graph as the functions that a search asks, and the search that begins in it.

ghost use Rattle.std.specs.Prelude.{◌≡◌, [], ◌∷◌, IfOk, IfErr, nat_eq};
ghost use Rattle.pf_base.proofs.Callers.{nat_same};
ghost use Rattle.pf_discovery.specs.Sources.{AnswersEdges};
ghost use Rattle.pf_informed.specs.Internal.Led.{IsLed};
ghost use Rattle.pf_table_estimates.specs.Guides.{EstimatesOf};
ghost use Rattle.pf_table_functions.specs.TableFunctions.{GoalsTest, TableListsEdges};
ghost use Rattle.pf_tables.specs.Graphs.{graph_of};

use pf_base::{Cost, NodeTest, PathError};
use pf_discovery::source::Weighted;
use pf_discovery::tested::TestedBy;
use pf_estimated_graphs::EstimatedGraph;
use pf_informed::EstimateFunction;
use pf_table_functions::discovery::edge_discovery;
use pf_table_functions::neighbours::Neighbours;
use pf_table_functions::table_nodes::TableNodes;
use pf_tables::{Goals, Graph};
use std::alloc::Allocator;
use std::marker::{Model, PhantomData};

/// An estimated graph that is asked whether a node is a goal, or what remains from it at least. A
/// contract sees the graph.
#[derive(Drop)]
pub(crate) struct Guide<'a, C: Cost, E: EstimatedGraph<C>> {
    estimates: &'a E,
    cost: PhantomData<C>,
}

impl<'a, C: Cost, E: EstimatedGraph<C>> Model for Guide<'a, C, E> {
    ghost Value = { E };

    ghost view = { λ s. s.estimates.now };
}

impl<'a, C: Cost, E: EstimatedGraph<C>> Guide<'a, C, E> {
    /// The goals and the estimates of a graph.
    pub fn new(estimates: &'a E) -> Self
        ensures { result ≡ estimates.now }
    {
        Guide {
            estimates,
            cost: PhantomData,
        }
    }
}

impl<'a, C: Cost, E: EstimatedGraph<C>> NodeTest<usize> for Guide<'a, C, E> {
    ghost answers = { GoalsTest E.passes };

    fn passes(&mut self, node: &usize) -> bool {
        self.estimates.is_goal(*node)
    }

    ghost alike_law = { λ f region test a x y w e. nat_same test x y e };
}

impl<'a, C: Cost, E: EstimatedGraph<C>> EstimateFunction<usize, C> for Guide<'a, C, E> {
    ghost answers = { EstimatesOf E.estimates };

    fn estimate(&mut self, node: &usize) -> C {
        self.estimates.estimate(*node)
    }

    ghost alike_law = { λ f starts edges estimate a x y w e. nat_same estimate x y e };
}

/// What a search of an estimated graph knows of it.
pub(crate) type Begun<'a, C, E, A> = TestedBy<
    TableNodes<A>,
    Weighted<Neighbours<'a, C, E>>,
    Guide<'a, C, E>,
>;

/// A search of an estimated graph that found the node `from` alone.
pub(crate) fn begin<C, E, A>(
    alloc: A,
    estimates: &E,
    from: usize,
) -> Result<Begun<'_, C, E, A>, PathError>
where
    C: Cost,
    E: EstimatedGraph<C>,
    A: Allocator + Copy,
    ensures nodes { IfOk result (λ graph. graph.discovery.nodes ≡ from ∷ []) }
    ensures led { IfOk result (λ graph. IsLed (λ nodes. nodes) nat_eq C.value (AnswersEdges nat_eq (TableListsEdges C.value E.size E.places)) (GoalsTest E.passes) (EstimatesOf E.estimates)
        (record { starts = from ∷ []; edges = graph_of C.value (E.size estimates.now) (E.places estimates.now) }) (E.passes estimates.now) (E.estimates estimates.now) graph estimates.now []) }
    ensures refused { IfErr result (λ e. e ≡ PathError.OutOfMemory) }
{
    estimates.consistent();
    estimates.known();
    let nodes = TableNodes::begin(alloc, estimates.len(), from)?;
    Ok(TestedBy {
        discovery: edge_discovery(estimates, nodes),
        success: Guide::new(estimates),
    })
}
