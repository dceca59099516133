//! Weighted edges.

ghost use Rattle.std.specs.Prelude.{◌<◌};

use crate::draw::Draws;
use crate::error::BenchError;
use std::alloc::Global;

/// Both ends and the weight.
pub type WeightedEdge = (usize, usize, u32);

/// Four times as many edges as vertices.
pub fn edges(alloc: Global, size: usize) -> Result<Vec<WeightedEdge>, BenchError>
    requires { 0 < size }
{
    let Some(count) = size.checked_mul(4) else {
        return Err(BenchError::TooLarge);
    };
    let mut draws = Draws::new();
    let mut edges = Vec::with_capacity(alloc, count)?;
    for _edge in 0..count {
        let from = draws.below(size);
        let to = draws.below(size);
        edges.push((from, to, draws.cost()))?;
    }
    Ok(edges)
}

/// The same edges, those that end at the first end of the first edge turned round.
pub fn edges_from_first(alloc: Global, size: usize) -> Result<Vec<WeightedEdge>, BenchError>
    requires { 0 < size }
{
    let mut edges = edges(alloc, size)?;
    if let Some(first) = edges.first().copied() {
        for edge in &mut edges {
            if edge.1 == first.0 {
                *edge = (edge.1, edge.0, edge.2);
            }
        }
    }
    Ok(edges)
}
