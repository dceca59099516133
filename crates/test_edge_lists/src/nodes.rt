//! Lists of edges, with costs or without, from which nodes alone are wanted.

ghost use Rattle.std.specs.Prelude.{◌≡◌};
ghost use Rattle.std.specs.Iterator.{YieldsFirst, item_count};
ghost use Rattle.test_edge_lists.specs.Chosen.{chosen};

use std::marker::Model;

/// An edge that leads from a node to a node: (from, to) or (from, to, cost).
pub trait Edge<N> {
    ghost start: { Self → N };

    ghost end: { Self → N };

    /// The node that the edge leaves.
    fn start(&self) -> N
        ensures { result ≡ start self.now };

    /// The node that the edge enters.
    fn end(&self) -> N
        ensures { result ≡ end self.now };
}

impl<N: Copy> Edge<N> for (N, N) {
    ghost start = { λ e. e.0 };

    ghost end = { λ e. e.1 };

    fn start(&self) -> N {
        self.0
    }

    fn end(&self) -> N {
        self.1
    }
}

impl<N: Copy, C> Edge<N> for (N, N, C) {
    ghost start = { λ e. e.0 };

    ghost end = { λ e. e.1 };

    fn start(&self) -> N {
        self.0
    }

    fn end(&self) -> N {
        self.1
    }
}

/// The nodes that the edges of a list that leave a node lead to. A contract sees the list of those
/// that are left.
#[derive(Drop)]
pub struct NodesAfter<'a, N: Eq + Copy, E: Edge<N>> {
    rest: &'a [E],
    node: N,
}

impl<'a, N: Eq + Copy, E: Edge<N>> Model for NodesAfter<'a, N, E> {
    ghost use Rattle.std.specs.Prelude.{List};
    ghost use Rattle.test_edge_lists.specs.Chosen.{chosen};

    ghost Value = { List N };

    ghost view = { λ s. chosen N.eq E.start E.end s.rest.now s.node };
}

/// Where the edges of the list that leave the node lead to, in the order of the list.
pub fn nodes_after<N: Eq + Copy, E: Edge<N>>(edges: &[E], node: N) -> NodesAfter<'_, N, E>
    ensures { result ≡ chosen N.eq E.start E.end edges.now node }
{
    NodesAfter { rest: edges, node }
}

impl<'a, N: Eq + Copy, E: Edge<N>> Iterator for NodesAfter<'a, N, E> {
    type Item = N;

    ghost next_gives = { YieldsFirst (λ nodes. nodes) };

    ghost remaining = { item_count (λ nodes. nodes) };

    fn next(&mut self) -> Option<N> {
        while let Some((edge, rest)) = self.rest.split_first() {
            self.rest = rest;
            if edge.start() == self.node {
                return Some(edge.end());
            }
        }
        None
    }
}

/// The nodes that the edges of a list that enter a node come from. A contract sees the list of those
/// that are left.
#[derive(Drop)]
pub struct NodesBefore<'a, N: Eq + Copy, E: Edge<N>> {
    rest: &'a [E],
    node: N,
}

impl<'a, N: Eq + Copy, E: Edge<N>> Model for NodesBefore<'a, N, E> {
    ghost use Rattle.std.specs.Prelude.{List};
    ghost use Rattle.test_edge_lists.specs.Chosen.{chosen};

    ghost Value = { List N };

    ghost view = { λ s. chosen N.eq E.end E.start s.rest.now s.node };
}

/// Where the edges of the list that enter the node come from, in the order of the list.
pub fn nodes_before<N: Eq + Copy, E: Edge<N>>(edges: &[E], node: N) -> NodesBefore<'_, N, E>
    ensures { result ≡ chosen N.eq E.end E.start edges.now node }
{
    NodesBefore { rest: edges, node }
}

impl<'a, N: Eq + Copy, E: Edge<N>> Iterator for NodesBefore<'a, N, E> {
    type Item = N;

    ghost next_gives = { YieldsFirst (λ nodes. nodes) };

    ghost remaining = { item_count (λ nodes. nodes) };

    fn next(&mut self) -> Option<N> {
        while let Some((edge, rest)) = self.rest.split_first() {
            self.rest = rest;
            if edge.end() == self.node {
                return Some(edge.start());
            }
        }
        None
    }
}
