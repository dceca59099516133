//! Grids of points with coordinates of any whole number type.

ghost use Rattle.std.specs.Prelude.{◌≡◌, ◌⊎◌, None, Some, [], IsErrOf, IfOk, IfErr, MatchOption};
ghost use Rattle.pf_grid.specs.Coordinates.{least_of, numbers_of, offsets_of, position_from};
ghost use Rattle.pf_grid.specs.Vertices.{IsTooLarge, smallest};
ghost use Rattle.pf_grid.specs.declared.error.GridError.TheVariants.{OutOfMemory, TooLarge};

use crate::coordinate::Coordinate;
use crate::error::GridError;
use crate::grid::Grid;
use std::alloc::Allocator;

impl<A: Allocator + Copy> Grid<A> {
    /// The smallest grid that reaches all of these points, counted from the least coordinate of each
    /// axis; they are its vertices. `None` where a coordinate is further from the least one than fits
    /// `usize`. Steps are not diagonal.
    ///
    /// # Errors
    ///
    /// `TooLarge` where all differences fit, and such a difference plus 1, or the width times the height,
    /// does not fit `usize`; `OutOfMemory` where a request for memory was refused.
    pub fn from_coordinates<T: Coordinate>(
        alloc: A,
        points: &[(T, T)],
    ) -> Result<Option<Self>, GridError>
        ensures made { IfOk result (λ made. MatchOption made
            (offsets_of (numbers_of T.value points.now) ≡ None)
            (λ g. MatchOption (offsets_of (numbers_of T.value points.now)) ⊥ (λ ps. g ≡ smallest ps))) }
        ensures too_large { IsErrOf result TooLarge → MatchOption (offsets_of (numbers_of T.value points.now)) ⊥ IsTooLarge }
        ensures refused { IfErr result (λ e. (e ≡ OutOfMemory) ⊎ (e ≡ TooLarge)) }
    {
        let Some(positions) = offsets(alloc, points)? else {
            return Ok(None);
        };
        let grid = Self::from_positions(alloc, positions.as_slice())?;
        Ok(Some(grid))
    }
}

/// The positions of these points, counted from the least coordinate of each axis.
fn offsets<T: Coordinate, A: Allocator>(
    alloc: A,
    points: &[(T, T)],
) -> Result<Option<Vec<(usize, usize), A>>, GridError>
    ensures made { IfOk result (λ made. MatchOption made
        (offsets_of (numbers_of T.value points.now) ≡ None)
        (λ positions. offsets_of (numbers_of T.value points.now) ≡ Some positions.items)) }
    ensures refused { IfErr result (λ e. e ≡ OutOfMemory) }
{
    let mut positions = Vec::with_capacity(alloc, points.len())?;
    let Some(least) = least_of(points) else {
        return Ok(Some(positions));
    };
    for point in points {
        let Some(position) = position_from(*point, least) else {
            return Ok(None);
        };
        positions.push(position)?;
    }
    Ok(Some(positions))
}

/// The position of a point, counted from the least coordinates.
fn position_from<T: Coordinate>(point: (T, T), least: (T, T)) -> Option<(usize, usize)>
    ensures { result ≡ position_from (T.value least.0, T.value least.1) (T.value point.0, T.value point.1) }
{
    let x = point.0.offset_from(least.0)?;
    let y = point.1.offset_from(least.1)?;
    Some((x, y))
}

/// The least coordinate of each axis, if there are points.
fn least_of<T: Coordinate>(points: &[(T, T)]) -> Option<(T, T)>
    ensures { MatchOption result (points.now ≡ []) (λ least. least_of (numbers_of T.value points.now) ≡ (T.value least.0, T.value least.1)) }
{
    let (first, rest) = points.split_first()?;
    let (mut x, mut y) = *first;
    for point in rest {
        x = x.min(point.0);
        y = y.min(point.1);
    }
    Some((x, y))
}
