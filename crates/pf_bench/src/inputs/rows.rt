//! A directed graph in compact form.

ghost use Rattle.std.specs.Prelude.{◌≡◌, ◌<◌, ◌≤◌, ◌+◌, All, length};
ghost use Rattle.std.specs.Iterator.{YieldsFirst, item_count};
ghost use Rattle.std.specs.List.Sorted.{IsNonDecreasing};

use crate::draw::Draws;
use crate::error::BenchError;
use std::alloc::Global;
use std::marker::Model;

/// How many edges are drawn for a node.
const EDGES: usize = 5;

/// A directed graph on the nodes from 0 on. The edges from node n are those from place `offsets[n]`
/// up to place `offsets[n + 1]`, each its target and its cost.
#[derive(Drop)]
pub struct Rows {
    offsets: Vec<usize>,
    edges: Vec<(usize, u32)>,
    ghost has_a_node: { 1 < length offsets.items },
    ghost rising: { IsNonDecreasing offsets.items },
    ghost within: { All (λ o. o ≤ length edges.items) offsets.items },
    ghost in_range: { All (λ e. e.0 + 1 < length offsets.items) edges.items },
}

impl Rows {
    ghost use Rattle.pf_bench.specs.Steps.{ends_after, row_of};

    /// Each node has 5 edges. Loops and parallel edges occur. Without cycles, an edge leads to one of
    /// the 50 nodes behind its own, and is left out where there is no such node.
    pub fn random(alloc: Global, size: usize, has_cycles: bool) -> Result<Rows, BenchError>
        requires { 0 < size }
    {
        let Some(count) = size.checked_mul(EDGES) else {
            return Err(BenchError::TooLarge);
        };
        let mut draws = Draws::new();
        let mut offsets = Vec::new(alloc);
        offsets.push(0)?;
        let mut edges = Vec::with_capacity(alloc, count)?;
        for node in 0..size {
            for _edge in 0..EDGES {
                let target = draws.target(node, size, has_cycles);
                let cost = draws.cost();
                if target < size {
                    edges.push((target, cost))?;
                }
            }
            offsets.push(edges.len())?;
        }
        Ok(Rows { offsets, edges })
    }

    /// The node with the greatest number.
    pub fn last_node(&self) -> usize {
        self.offsets.len() - 2
    }

    /// Where the edges of each node begin, and the number of all.
    pub fn offsets(&self) -> &[usize]
        ensures { result.now ≡ self.now.offsets.items }
    {
        &self.offsets
    }

    /// The edges of all nodes.
    pub fn edges(&self) -> &[(usize, u32)] {
        &self.edges
    }

    /// The edges from a node.
    pub fn edges_from(&self, node: usize) -> &[(usize, u32)]
        requires { node + 1 < length self.now.offsets.items }
        ensures { result.now ≡ row_of self.now.offsets.items self.now.edges.items node }
    {
        &self.edges[self.offsets[node]..self.offsets[node + 1]]
    }

    /// Where the edges from a node lead.
    pub fn ends_from(&self, node: usize) -> Ends<'_>
        requires { node + 1 < length self.now.offsets.items }
        ensures { result ≡ ends_after self.now.offsets.items self.now.edges.items node }
    {
        Ends {
            rest: self.edges_from(node),
        }
    }
}

/// Where the edges of a node that are left lead. A contract sees the list of these nodes.
#[derive(Drop)]
pub struct Ends<'a> {
    rest: &'a [(usize, u32)],
}

impl<'a> Model for Ends<'a> {
    ghost use Rattle.std.specs.Prelude.{List, map, ℕ};

    ghost Value = { List ℕ };

    ghost view = { λ s. map (λ (e : ℕ × ℕ). e.0) s.rest.now };
}

impl<'a> Iterator for Ends<'a> {
    type Item = usize;

    ghost next_gives = { YieldsFirst (λ nodes. nodes) };

    ghost remaining = { item_count (λ nodes. nodes) };

    fn next(&mut self) -> Option<usize> {
        let (edge, rest) = self.rest.split_first()?;
        self.rest = rest;
        Some(edge.0)
    }
}
