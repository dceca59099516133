//! What is seen of the answers of searches.

use pf_base::PathError;
use pf_informed::directed::astar_bag::AstarSolution;
use std::alloc::Global;
use test_allocator::Refusing;

/// An allocator that may refuse.
pub(crate) type Heap<'a> = &'a Refusing<Global>;

/// A path, with its cost.
pub(crate) type Found<'a> = Result<Option<(Vec<usize, Heap<'a>>, u8)>, PathError>;

/// Paths, with their cost.
pub(crate) type Gathered<'a> = Result<Option<(Vec<Vec<usize, Heap<'a>>, Heap<'a>>, u8)>, PathError>;

/// Paths one by one, with their cost.
pub(crate) type Solved<'a> = Result<Option<(AstarSolution<usize, Heap<'a>>, u8)>, PathError>;

/// Nodes in lists.
pub(crate) type Lists<'a> = &'a [&'a [usize]];

/// A cost, how many paths there are, and whether none of them comes twice and all wanted ones come: of
/// one path, whether it is a wanted one.
pub(crate) type Seen = (u8, usize, bool);

/// What is seen of an answer.
pub(crate) type Answer = Result<Option<Seen>, PathError>;

/// Whether a path is one of the wanted ones, or none is named.
fn is_wanted(nodes: &[usize], wanted: Lists<'_>) -> bool {
    for path in wanted {
        if *path == nodes {
            return true;
        }
    }
    wanted.is_empty()
}

/// What is seen of one path. Any path is a wanted one where none is named.
pub(crate) fn of_path(found: Found<'_>, wanted: Lists<'_>) -> Answer {
    match found {
        Ok(Some((nodes, cost))) => { Ok(Some((cost, 1, is_wanted(&nodes, wanted)))) }
        Ok(None) => Ok(None),
        Err(refusal) => Err(refusal),
    }
}

/// Whether a path is one of the first paths of a list.
fn is_before(nodes: &[usize], count: usize, paths: &[Vec<usize, Heap<'_>>]) -> bool {
    for path in paths.iter().take(count) {
        if path.as_slice() == nodes {
            return true;
        }
    }
    false
}

/// Whether no path comes twice and all wanted ones come.
fn are_wanted(paths: &[Vec<usize, Heap<'_>>], wanted: Lists<'_>) -> bool {
    for (place, path) in paths.iter().enumerate() {
        if is_before(path, place, paths) {
            return false;
        }
    }
    for nodes in wanted {
        if !is_before(nodes, paths.len(), paths) {
            return false;
        }
    }
    true
}

/// What is seen of gathered paths.
pub(crate) fn of_paths(gathered: Gathered<'_>, wanted: Lists<'_>) -> Answer {
    match gathered {
        Ok(Some((paths, cost))) => { Ok(Some((cost, paths.len(), are_wanted(&paths, wanted)))) }
        Ok(None) => Ok(None),
        Err(refusal) => Err(refusal),
    }
}

/// Adds the paths that an iterator gives that is resumed after each refusal, and answers whether it
/// came to its end, for good, was refused for memory alone, and gave nothing between a refusal and
/// `resume`.
fn add_resumed<'a>(
    solution: &mut AstarSolution<usize, Heap<'a>>,
    paths: &mut Vec<Vec<usize, Heap<'a>>>,
) -> bool {
    for _ in 0..1_000u64 {
        match solution.next() {
            Some(Ok(path)) => {
                if paths.push(path).is_err() {
                    return false;
                }
            }
            Some(Err(refusal)) => {
                if refusal != PathError::OutOfMemory || solution.next().is_some() {
                    return false;
                }
                solution.resume();
            }
            None => {
                let is_over = solution.next().is_none();
                solution.resume();
                return is_over && solution.next().is_none();
            }
        }
    }
    false
}

/// Whether an iterator that is resumed after each refusal gives the wanted paths, each once.
fn gives(ample: Global, mut solution: AstarSolution<usize, Heap<'_>>, wanted: Lists<'_>) -> bool {
    let mut paths = Vec::new(ample);
    let has_ended = add_resumed(&mut solution, &mut paths);
    has_ended && paths.len() == wanted.len() && are_wanted(&paths, wanted)
}

/// What is seen of the paths that come one by one, from the iterator and from a copy of it.
pub(crate) fn of_steps(ample: Global, solved: Solved<'_>, wanted: Lists<'_>) -> Answer {
    match solved {
        Ok(Some((solution, cost))) => match solution.clone() {
            Ok(copy) => {
                let is_right = gives(ample, copy, wanted) && gives(ample, solution, wanted);
                Ok(Some((cost, wanted.len(), is_right)))
            }
            Err(_) => Err(PathError::OutOfMemory),
        },
        Ok(None) => Ok(None),
        Err(refusal) => Err(refusal),
    }
}
