//! The edges of a table at a number, one by one.

ghost use Rattle.std.specs.Prelude.{◌≡◌, length};
ghost use Rattle.std.specs.Iterator.{YieldsFirst, item_count};
ghost use Rattle.pf_table_functions.specs.Internal.Edges.{edges_of, ends_of, places_at};

use pf_base::Cost;
use pf_tables::Graph;
use std::marker::{Model, PhantomData};

/// The edges that are left of a node, in order. A contract sees their list.
#[derive(Drop)]
pub struct Edges<'a, C: Cost, G: Graph<C>> {
    graph: &'a G,
    node: usize,
    next: usize,
    end: usize,
    cost: PhantomData<C>,
}

impl<'a, C: Cost, G: Graph<C>> Model for Edges<'a, C, G> {
    ghost use Rattle.std.specs.Prelude.{◌≡◌, ◌≤◌, ℕ, List, drop, length};
    ghost use Rattle.pf_table_functions.specs.Internal.Edges.{present, places_at};

    ghost Value = { List (ℕ × C) };

    ghost view = { λ s. present (drop s.next (places_at (G.size s.graph.now) (G.places s.graph.now) s.node)) };

    ghost invariant = { λ s. (s.next ≤ s.end) × (s.end ≡ length (places_at (G.size s.graph.now) (G.places s.graph.now) s.node)) };
}

/// How many places a number has. One that is no node has none.
fn place_count<C: Cost, G: Graph<C>>(graph: &G, number: usize) -> usize
    ensures { result ≡ length (places_at (G.size graph.now) (G.places graph.now) number) }
{
    if number < graph.len() {
        graph.places(number)
    } else {
        0
    }
}

/// The edges of a number. One that is no node has none.
pub fn edges_of<C: Cost, G: Graph<C>>(graph: &G, number: usize) -> Edges<'_, C, G>
    ensures { result ≡ edges_of (G.size graph.now) (G.places graph.now) number }
{
    Edges {
        graph,
        node: number,
        next: 0,
        end: place_count(graph, number),
        cost: PhantomData,
    }
}

impl<'a, C: Cost, G: Graph<C>> Iterator for Edges<'a, C, G> {
    type Item = (usize, C);

    ghost next_gives = { YieldsFirst (λ edges. edges) };

    ghost remaining = { item_count (λ edges. edges) };

    fn next(&mut self) -> Option<(usize, C)> {
        while self.next < self.end {
            let edge = self.graph.edge(self.node, self.next);
            self.next += 1;
            if edge.is_some() {
                return edge;
            }
        }
        None
    }
}

/// Where the edges that are left of a node lead, in order. A contract sees the list of these nodes.
#[derive(Drop)]
pub struct Ends<'a, C: Cost, G: Graph<C>> {
    edges: Edges<'a, C, G>,
}

impl<'a, C: Cost, G: Graph<C>> Model for Ends<'a, C, G> {
    ghost use Rattle.std.specs.Prelude.{ℕ, List, map};

    ghost Value = { List ℕ };

    ghost view = { λ s. map (λ (e : ℕ × C). e.0) s.edges };
}

/// Where the edges of a number lead. One that is no node has none.
pub fn ends_of<C: Cost, G: Graph<C>>(graph: &G, number: usize) -> Ends<'_, C, G>
    ensures { result ≡ ends_of (G.size graph.now) (G.places graph.now) number }
{
    Ends {
        edges: edges_of(graph, number),
    }
}

impl<'a, C: Cost, G: Graph<C>> Iterator for Ends<'a, C, G> {
    type Item = usize;

    ghost next_gives = { YieldsFirst (λ nodes. nodes) };

    ghost remaining = { item_count (λ nodes. nodes) };

    fn next(&mut self) -> Option<usize> {
        let edge = self.edges.next()?;
        Some(edge.0)
    }
}
