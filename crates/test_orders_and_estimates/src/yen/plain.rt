//! All clean paths by a plain program.

use std::alloc::{AllocError, Global};

/// An edge: from, to, cost.
pub(crate) type Edge = (usize, usize, u8);

/// The nodes of the graphs are the numbers below this one.
const NODES: usize = 8;

/// A path from 0, with its cost. Places behind its nodes have `NODES`.
#[derive(Clone, Copy)]
pub(crate) struct Path {
    nodes: [usize; NODES],
    last: usize,
    pub(crate) length: usize,
    pub(crate) cost: u8,
}

/// The path of 0 alone.
const START: Path = Path {
    nodes: [0, NODES, NODES, NODES, NODES, NODES, NODES, NODES],
    last: 0,
    length: 1,
    cost: 0,
};

impl Path {
    /// Whether these are its nodes.
    pub(crate) fn has_nodes(&self, nodes: &[usize]) -> bool {
        nodes.len() == self.length && self.nodes.starts_with(nodes)
    }

    /// The path that leads on to a node at this price.
    fn longer(self, node: usize, price: u8) -> Path {
        let mut path = self;
        if path.length < NODES {
            path.nodes[path.length] = node;
            path.length += 1;
        }
        path.last = node;
        path.cost = path.cost.saturating_add(price);
        path
    }
}

/// What the cheapest of the edges from a node to a node costs.
fn cheapest_edge(edges: &[Edge], from: usize, to: usize) -> Option<u8> {
    let mut cheapest = None;
    for edge in edges {
        if edge.0 == from && edge.1 == to {
            cheapest = match cheapest {
                Some(cost) if cost <= edge.2 => Some(cost),
                _ => Some(edge.2),
            };
        }
    }
    cheapest
}

/// Puts a way with the paths, where it ends at one of two goals, and otherwise each way that is one
/// step longer, and meets no node again, with the ways.
fn go_on(
    edges: &[Edge],
    goals: (usize, usize),
    way: Path,
    paths: &mut Vec<Path>,
    ways: &mut Vec<Path>,
) -> Result<(), AllocError> {
    if way.last == goals.0 || way.last == goals.1 {
        paths.push(way)?;
        return Ok(());
    }
    for next in 0..NODES {
        if !way.nodes.contains(&next) {
            if let Some(price) = cheapest_edge(edges, way.last, next) {
                ways.push(way.longer(next, price))?;
            }
        }
    }
    Ok(())
}

/// All clean paths from 0 to one of two goals, by rising cost and then by rising number of nodes.
pub(crate) fn clean_paths(
    alloc: Global,
    edges: &[Edge],
    goals: (usize, usize),
) -> Result<Vec<Path>, AllocError> {
    let mut ways = vec![in alloc; START]?;
    let mut paths = Vec::new(alloc);
    for _ in 0..10_000u32 {
        let Some(way) = ways.pop() else {
            break;
        };
        go_on(edges, goals, way, &mut paths, &mut ways)?;
    }
    paths.sort_unstable_by_key(|path| (path.cost, path.length));
    Ok(paths)
}
