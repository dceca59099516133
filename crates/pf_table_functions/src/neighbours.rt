//! A table as a function that lists what leads from a number.

ghost use Rattle.std.proofs.Common.{subst};
ghost use Rattle.std.specs.Prelude.{◌≡◌, ℤ, nat_eq};
ghost use Rattle.pf_base.specs.Answers.{ListsEdges, SameNodes};
ghost use Rattle.pf_base.proofs.Callers.{ListsEdges-refl, SameNodes-refl, nat_refl, nat_same};
ghost use Rattle.pf_table_functions.specs.TableFunctions.{TableListsSuccessors, TableListsEdges};

use crate::edges::{Edges, Ends, edges_of, ends_of};
use pf_base::{Cost, EdgeFunction, SuccessorFunction};
use pf_tables::Graph;
use std::marker::{Model, PhantomData};

/// A table that is asked for the edges of a number, or for its successors. A contract sees the table.
#[derive(Drop)]
pub struct Neighbours<'a, C: Cost, G: Graph<C>> {
    graph: &'a G,
    cost: PhantomData<C>,
}

impl<'a, C: Cost, G: Graph<C>> Model for Neighbours<'a, C, G> {
    ghost Value = { G };

    ghost view = { λ s. s.graph.now };
}

impl<'a, C: Cost, G: Graph<C>> Neighbours<'a, C, G> {
    /// What leads from the numbers of a table.
    pub fn new(graph: &'a G) -> Self
        ensures { result ≡ graph.now }
    {
        Neighbours {
            graph,
            cost: PhantomData,
        }
    }
}

impl<'a, C: Cost, G: Graph<C>> SuccessorFunction<usize> for Neighbours<'a, C, G> {
    type Successors = Ends<'a, C, G>;

    ghost answers = { TableListsSuccessors C.value G.size G.places };

    fn successors(&mut self, node: &usize) -> Ends<'a, C, G> {
        ends_of(self.graph, *node)
    }

    ghost alike_law = { λ f starts next a x y w e. subst (λ zs. SameNodes nat_eq (next x) zs) (nat_same next x y e) (SameNodes-refl nat_eq nat_refl (next x)) };
}

impl<'a, C: Cost, G: Graph<C>> EdgeFunction<usize, C> for Neighbours<'a, C, G> {
    type Edges = Edges<'a, C, G>;

    ghost answers = { TableListsEdges C.value G.size G.places };

    fn edges(&mut self, node: &usize) -> Edges<'a, C, G> {
        edges_of(self.graph, *node)
    }

    ghost alike_law = { λ f starts edges a x y w e. subst (λ zs. ListsEdges nat_eq (λ (z : ℤ). z) (edges x) zs) (nat_same edges x y e) (ListsEdges-refl nat_eq nat_refl (edges x)) };
}
