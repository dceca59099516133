//! Groups of vertices.

ghost use Rattle.std.specs.Prelude.{◌<◌};

use crate::draw::Draws;
use crate::error::BenchError;
use std::alloc::Global;

/// So many groups of 3 vertices out of 4 times as many.
pub fn groups(alloc: Global, size: usize) -> Result<Vec<Vec<usize>>, BenchError>
    requires { 0 < size }
{
    let Some(vertices) = size.checked_mul(4) else {
        return Err(BenchError::TooLarge);
    };
    let mut draws = Draws::new();
    let mut groups = Vec::with_capacity(alloc, size)?;
    for _group in 0..size {
        let mut group = Vec::with_capacity(alloc, 3)?;
        for _vertex in 0..3 {
            group.push(draws.below(vertices))?;
        }
        groups.push(group)?;
    }
    Ok(groups)
}
