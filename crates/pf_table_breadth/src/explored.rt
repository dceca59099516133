//! A graph in a table as a search by fewest edges sees it: its nodes are numbered as they are found,
//! and each edge costs 1.

ghost use Rattle.std.specs.Prelude.{◌≡◌, ◌<◌, ◌≤◌, ℕ, List, [], ◌∷◌, ◌++◌, OnOk, OnErr, IfErr, length, take, map, nat_eq};
ghost use Rattle.std.specs.List.{IsDistinct};
ghost use Rattle.pf_base.specs.Edges.{targets};
ghost use Rattle.pf_core.specs.Nodes.{TestedGraph, IsStep, StandsFor, AddsNode, NumbersItems, AddedFrom};
ghost use Rattle.pf_core.specs.Numbered.{NumbersInOrder};
ghost use Rattle.pf_core.specs.NodeLaws.{StandsFor-one, StandsFor-inside};
ghost use Rattle.pf_table_breadth.specs.Internal.Numbering.{IsIndex, IsExplored, steps_at};
ghost use Rattle.std.proofs.lemmas.Cmp.{nat_eq_equiv};

use crate::numbering::Numbering;
use pf_base::{Cost, PathError};
use pf_core::numbered::{GoalGraph, NumberedGraph};
use pf_core::row::Row;
use pf_tables::{Goals, Graph};
use std::alloc::Allocator;
use std::marker::PhantomData;

/// A table, its goals, and which of its nodes were found.
#[derive(Drop)]
pub struct Explored<'g, C, G, T, A: Allocator> {
    pub graph: &'g G,
    pub goals: T,
    pub numbering: Numbering<A>,
    pub cost: PhantomData<C>,
}

/// Numbers what stands at the places of a node, and puts it into the row. Where memory is refused,
/// the numbering stays as it was.
fn number_places<C, G, A, R>(
    graph: &G,
    numbering: &mut Numbering<A>,
    node: usize,
    row: &mut R,
) -> Result<(), PathError>
where
    C: Cost,
    G: Graph<C>,
    A: Allocator + Copy,
    R: Row<u8>,
    requires inside { node < G.size graph.now }
    requires empty { R.holds row.old [] }
    requires numbering { IsIndex numbering.old.order.items numbering.old.numbers.items × (length numbering.old.numbers.items ≡ G.size graph.now) }
    ensures numbered { OnOk result ((steps : List (ℕ × ℕ)) × R.holds row.new steps
        × NumbersItems nat_eq numbering.new.order.items steps (steps_at (G.places graph.now node))
        × AddedFrom nat_eq (steps_at (G.places graph.now node)) numbering.old.order.items numbering.new.order.items
        × NumbersInOrder (StandsFor nat_eq numbering.new.order.items) (length numbering.old.order.items) (map (λ (x : ℕ × ℕ). x.0) (steps_at (G.places graph.now node))) (length numbering.new.order.items)) }
    ensures numbering { IsIndex numbering.new.order.items numbering.new.numbers.items × (length numbering.new.numbers.items ≡ G.size graph.now) }
    ensures distinct { IsDistinct nat_eq numbering.old.order.items → IsDistinct nat_eq numbering.new.order.items }
    ensures kept { take (length numbering.old.order.items) numbering.new.order.items ≡ numbering.old.order.items }
    ensures stays { OnErr result (numbering.new.order.items ≡ numbering.old.order.items) }
    ensures refused { IfErr result (λ e. e ≡ PathError.OutOfMemory) }
{
    graph.known();
    let before = numbering.order.len();
    for place in 0..graph.places(node) {
        if let Some(edge) = graph.edge(node, place) {
            if let Err(refusal) = number_edge(numbering, edge.0, row) {
                numbering.forget(before);
                return Err(refusal);
            }
        }
    }
    Ok(())
}

/// Numbers the node that an edge leads to, and puts the edge at the end of the row.
fn number_edge<A, R>(
    numbering: &mut Numbering<A>,
    target: usize,
    row: &mut R,
) -> Result<(), PathError>
where
    A: Allocator + Copy,
    R: Row<u8>,
    requires index { IsIndex numbering.old.order.items numbering.old.numbers.items }
    requires inside { target < length numbering.old.numbers.items }
    ensures index { IsIndex numbering.new.order.items numbering.new.numbers.items }
    ensures wide { length numbering.new.numbers.items ≡ length numbering.old.numbers.items }
    ensures added { AddsNode nat_eq target numbering.old.order.items numbering.new.order.items }
    ensures numbered { OnOk result ((k : ℕ) × StandsFor nat_eq numbering.new.order.items k target
        × ((steps : List (ℕ × ℕ)) → R.holds row.old steps → R.holds row.new (steps ++ (k, 1) ∷ []))) }
    ensures refused { IfErr result (λ e. e ≡ PathError.OutOfMemory) }
{
    let number = numbering.number_of(target)?;
    row.add(number, 1)
}

impl<'g, C, G, T, A> NumberedGraph<u8> for Explored<'g, C, G, T, A>
where
    C: Cost,
    G: Graph<C>,
    T: Goals,
    A: Allocator + Copy,
{
    ghost Node = { ℕ };

    ghost Graph = { TestedGraph ℕ };

    ghost step = { λ g. IsStep nat_eq g.graph };

    ghost successors = { λ g. targets g.graph.edges };

    ghost passes = { λ g x. g.test x };

    ghost node_count = { λ s. length s.numbering.order.items };

    ghost stands = { λ s. StandsFor nat_eq s.numbering.order.items };

    ghost explores = { λ s g. IsExplored (G.size s.graph.now) (G.places s.graph.now) (T.passes s.goals) g s.numbering.order.items s.numbering.numbers.items
        × IsIndex s.numbering.order.items s.numbering.numbers.items × (length s.numbering.numbers.items ≡ G.size s.graph.now) };

    ghost can_forget = { λ s k. (k ≤ length s.numbering.order.items) × IsIndex s.numbering.order.items s.numbering.numbers.items };

    fn node_count(&self) -> usize {
        self.numbering.order.len()
    }

    fn expand<R: Row<u8>>(&mut self, node: usize, row: &mut R) -> Result<(), PathError> {
        row.reset();
        let place = self.numbering.order[node];
        number_places::<C, G, A, R>(self.graph, &mut self.numbering, place, row)
    }

    fn forget(&mut self, first: usize) {
        self.numbering.forget(first);
    }

    ghost inside_law = { λ s k x h. StandsFor-inside nat_eq s.numbering.order.items k x h };

    ghost one_law = { λ s g e i j x. StandsFor-one nat_eq nat_eq_equiv s.numbering.order.items e.0.distinct i j x };
}

impl<'g, C, G, T, A> GoalGraph<u8> for Explored<'g, C, G, T, A>
where
    C: Cost,
    G: Graph<C>,
    T: Goals,
    A: Allocator + Copy,
{
    fn is_goal(&mut self, node: usize) -> bool {
        let node = self.numbering.order[node];
        self.goals.is_goal(node)
    }
}
