//! One step of the list of clean paths between two names: the numbers of a path, and their names.

ghost use Rattle.std.specs.Prelude.{◌≡◌, None};
ghost use Rattle.pf_name_paths.specs.PathWalks.{IsNamed, IsTakenFrom, has_refused, taken_path};

use pf_base::{Cost, PathError};
use pf_edge_lists::EdgeList;
use pf_name_numbers::names::names_along;
use pf_name_numbers::numbers::NameGoal;
use std::alloc::Allocator;
use std::hash::Hash;

/// The numbers of a path, and what it costs.
type NumberedPath<C, B> = (Vec<usize, B>, C);

/// The path that waits, if one does, or what the next step of the walk over numbers gives.
pub fn next_numbers<'a, 'e, N, C, A, B>(
    walk: &mut pf_table_paths::YenPaths<'a, C, EdgeList<'e, N, C, A>, NameGoal, B>,
    waiting: &mut Option<NumberedPath<C, B>>,
) -> Option<Result<NumberedPath<C, B>, PathError>>
where
    N: Eq + Hash,
    C: Cost,
    A: Allocator,
    B: Allocator + Copy,
    ensures none { waiting.new ≡ None }
    ensures path { IsTakenFrom N.eq C.value C.fits walk.old waiting.old result walk.new }
{
    match waiting.take() {
        Some(path) => Some(Ok(path)),
        None => walk.next(),
    }
}

/// A path with its names in the places of the numbers; where memory for them is refused, the path waits.
pub fn name_path<'p, 'e, N, C, A, B>(
    alloc: B,
    list: &EdgeList<'e, N, C, A>,
    other: &'p N,
    waiting: &mut Option<NumberedPath<C, B>>,
    path: Option<Result<NumberedPath<C, B>, PathError>>,
) -> Option<Result<(Vec<&'p N, B>, C), PathError>>
where
    'e: 'p,
    N: Eq + Hash,
    C: Cost,
    A: Allocator,
    B: Allocator + Copy,
    ensures { IsNamed N.eq list.now other.now path (taken_path waiting.old) (taken_path waiting.new) result }
{
    match path {
        None => None,
        Some(Err(refusal)) => Some(Err(refusal)),
        Some(Ok(path)) => match names_along(alloc, list, other, &path.0) {
            Ok(names) => Some(Ok((names, path.1))),
            Err(refusal) => {
                *waiting = Some(path);
                Some(Err(refusal))
            }
        },
    }
}

/// Whether a step was refused.
pub fn is_refusal<T>(step: &Option<Result<T, PathError>>) -> bool
    ensures { result ≡ has_refused step.now }
{
    matches!(step, Some(Err(_)))
}
