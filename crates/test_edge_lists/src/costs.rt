//! Lists of edges (from, to, cost).

ghost use Rattle.std.specs.Prelude.{◌≡◌};
ghost use Rattle.std.specs.Iterator.{YieldsFirst, item_count};
ghost use Rattle.test_edge_lists.specs.Lists.{ends_from, starts_to};

use std::marker::Model;

/// The edges of a list that leave a node, each as where it leads and what it costs. A contract sees
/// the list of those that are left.
#[derive(Drop)]
pub struct EdgesFrom<'a, N: Eq + Copy, C: Copy> {
    rest: &'a [(N, N, C)],
    node: N,
}

impl<'a, N: Eq + Copy, C: Copy> Model for EdgesFrom<'a, N, C> {
    ghost use Rattle.std.specs.Prelude.{List};
    ghost use Rattle.test_edge_lists.specs.Lists.{ends_from};

    ghost Value = { List (N × C) };

    ghost view = { λ s. ends_from N.eq s.rest.now s.node };
}

/// The edges of the list that leave the node, in the order of the list.
pub fn edges_from<N: Eq + Copy, C: Copy>(edges: &[(N, N, C)], node: N) -> EdgesFrom<'_, N, C>
    ensures { result ≡ ends_from N.eq edges.now node }
{
    EdgesFrom { rest: edges, node }
}

impl<'a, N: Eq + Copy, C: Copy> Iterator for EdgesFrom<'a, N, C> {
    type Item = (N, C);

    ghost next_gives = { YieldsFirst (λ edges. edges) };

    ghost remaining = { item_count (λ edges. edges) };

    fn next(&mut self) -> Option<(N, C)> {
        while let Some((edge, rest)) = self.rest.split_first() {
            self.rest = rest;
            if edge.0 == self.node {
                return Some((edge.1, edge.2));
            }
        }
        None
    }
}

/// The edges of a list that enter a node, each as where it comes from and what it costs. A contract
/// sees the list of those that are left.
#[derive(Drop)]
pub struct EdgesTo<'a, N: Eq + Copy, C: Copy> {
    rest: &'a [(N, N, C)],
    node: N,
}

impl<'a, N: Eq + Copy, C: Copy> Model for EdgesTo<'a, N, C> {
    ghost use Rattle.std.specs.Prelude.{List};
    ghost use Rattle.test_edge_lists.specs.Lists.{starts_to};

    ghost Value = { List (N × C) };

    ghost view = { λ s. starts_to N.eq s.rest.now s.node };
}

/// The edges of the list that enter the node, in the order of the list.
pub fn edges_to<N: Eq + Copy, C: Copy>(edges: &[(N, N, C)], node: N) -> EdgesTo<'_, N, C>
    ensures { result ≡ starts_to N.eq edges.now node }
{
    EdgesTo { rest: edges, node }
}

impl<'a, N: Eq + Copy, C: Copy> Iterator for EdgesTo<'a, N, C> {
    type Item = (N, C);

    ghost next_gives = { YieldsFirst (λ edges. edges) };

    ghost remaining = { item_count (λ edges. edges) };

    fn next(&mut self) -> Option<(N, C)> {
        while let Some((edge, rest)) = self.rest.split_first() {
            self.rest = rest;
            if edge.1 == self.node {
                return Some((edge.0, edge.2));
            }
        }
        None
    }
}
