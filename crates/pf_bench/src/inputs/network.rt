//! Networks whose edges have capacities.

ghost use Rattle.std.specs.Prelude.{◌<◌};

use crate::draw::Draws;
use crate::error::BenchError;
use std::alloc::Global;

/// How many layers there are between source and sink.
const LAYERS: usize = 32;

/// How many edges are drawn for a vertex of a layer.
const EDGES: usize = 4;

/// A capacity above what all edges between layers carry on the sizes that are measured.
const AMPLE: i64 = 1_000_000;

/// An edge, from one vertex to another, with its capacity.
pub type Pipe = ((usize, usize), i64);

/// A network from its first vertex, 0, to its last.
#[derive(Drop)]
pub struct Network {
    vertices: Vec<usize>,
    sink: usize,
    capacities: Vec<Pipe>,
}

/// Draws the edges from a vertex of a layer to the next one, which begins at `next`. An edge to a
/// vertex that has one already is left out.
fn push_edges(
    capacities: &mut Vec<Pipe>,
    draws: &mut Draws,
    from: usize,
    next: usize,
    width: usize,
) -> Result<(), BenchError>
    requires { 0 < width }
{
    for _edge in 0..EDGES {
        let pair = (from, next.wrapping_add(draws.below(width)));
        let capacity = 1 + draws.below(100) as i64;
        // The edges of this vertex are the last ones.
        if capacities
            .iter()
            .rev()
            .take(EDGES)
            .all(|edge| edge.0 != pair)
        {
            capacities.push((pair, capacity))?;
        }
    }
    Ok(())
}

impl Network {
    /// On so many vertices, one edge in four.
    pub fn dense(alloc: Global, size: usize) -> Result<Network, BenchError>
        requires { 0 < size }
    {
        let mut draws = Draws::new();
        let mut capacities = Vec::new(alloc);
        for from in 0..size {
            for to in 0..size {
                if to != from {
                    let is_kept = draws.below(4) == 0;
                    let capacity = draws.below(100) as i64;
                    if is_kept {
                        capacities.push(((from, to), capacity))?;
                    }
                }
            }
        }
        Network::with_capacities(alloc, size, capacities)
    }

    /// Layers of so many vertices, each with edges to the next one, between a source and a sink.
    pub fn in_layers(alloc: Global, width: usize) -> Result<Network, BenchError>
        requires { 0 < width }
    {
        let Some(sink) = width
            .checked_mul(LAYERS)
            .and_then(|inner| inner.checked_add(1))
        else {
            return Err(BenchError::TooLarge);
        };
        let mut draws = Draws::new();
        let mut capacities = Vec::new(alloc);
        for vertex in 0..width {
            capacities.push(((0, 1 + vertex), AMPLE))?;
        }
        for place in 0..sink - 1 - width {
            let next = 1 + place + width - place % width;
            push_edges(&mut capacities, &mut draws, 1 + place, next, width)?;
        }
        for vertex in sink - width..sink {
            capacities.push(((vertex, sink), AMPLE))?;
        }
        Network::with_capacities(alloc, sink + 1, capacities)
    }

    /// So many vertices with these edges.
    fn with_capacities(
        alloc: Global,
        size: usize,
        capacities: Vec<Pipe>,
    ) -> Result<Network, BenchError>
        requires { 0 < size }
    {
        let mut vertices = Vec::with_capacity(alloc, size)?;
        for vertex in 0..size {
            vertices.push(vertex)?;
        }
        Ok(Network {
            vertices,
            sink: size - 1,
            capacities,
        })
    }

    /// All vertices.
    pub fn vertices(&self) -> &[usize] {
        &self.vertices
    }

    /// The last vertex.
    pub fn sink(&self) -> usize {
        self.sink
    }

    /// The edges, each with its capacity.
    pub fn capacities(&self) -> &[Pipe] {
        &self.capacities
    }
}
