//! A caller over a list of edges between numbers, and what its searches tell of the clean paths that a
//! plain program lists.

ghost use Rattle.std.specs.Prelude.{ℕ, ℤ, Bool, List, [], ◌∷◌, nat_eq};
ghost use Rattle.pf_base.specs.Edges.{IsWeightedSearch};

use crate::yen::plain::{Edge, Path};
use pf_base::{EdgeFunction, NodeTest, PathError};
use pf_yen::directed::yen::{YenPaths, yen, yen_paths};
use std::alloc::Global;
use test_allocator::Refusing;
use test_edge_lists::edges_from;

/// An allocator that may refuse.
type Heap<'a> = &'a Refusing<Global>;

/// A path of a search, with its cost.
type Found<'a> = (Vec<usize, Heap<'a>>, u8);

/// What a call of `next` tells: a path, by its place in the list of all clean paths, a refusal, or that
/// there is no path.
pub(crate) type Told = Option<Result<usize, PathError>>;

/// What as many calls tell as any list here has paths, and three more.
pub(crate) type Steps = [Told; 8];

/// What the two searches tell: the calls of `next` one by one, and the gathered paths in their order.
pub(crate) type Searches = (Result<Steps, PathError>, Result<Steps, PathError>);

/// The place of a path in the list of all, or the number of these where it is none of them.
pub(crate) fn place_of(nodes: &[usize], cost: u8, all: &[Path]) -> usize {
    for (place, path) in all.iter().enumerate() {
        if path.cost == cost && path.has_nodes(nodes) {
            return place;
        }
    }
    all.len()
}

/// What the calls of `next` tell, with `resume` after each `None`.
fn steps_of<F, T>(walk: &mut YenPaths<usize, u8, F, T, Heap<'_>>, all: &[Path]) -> Steps
where
    F: EdgeFunction<usize, u8>,
    T: NodeTest<usize>,
    requires { ⟦<YenPaths<usize, u8, F, T, Heap<'static>> as Iterator>⟧.can_next walk.old }
{
    let mut steps = [None; 8];
    'calls: for call in 0..8usize {
        match walk.next() {
            Some(Ok((nodes, cost))) => steps[call] = Some(Ok(place_of(&nodes, cost, all))),
            Some(Err(refusal)) => steps[call] = Some(Err(refusal)),
            None => walk.resume(),
        }
    }
    steps
}

/// The gathered paths, as calls of `next` would tell them.
fn steps_in(
    gathered: Result<Vec<Found<'_>, Heap<'_>>, PathError>,
    all: &[Path],
) -> Result<Steps, PathError> {
    match gathered {
        Ok(paths) => {
            let mut steps = [None; 8];
            for (number, path) in paths.iter().enumerate() {
                if number < 8 {
                    steps[number] = Some(Ok(place_of(&path.0, path.1, all)));
                }
            }
            Ok(steps)
        }
        Err(refusal) => Err(refusal),
    }
}

/// What the calls of `next` over the clean paths from 0 tell.
fn walk<IN, FN, FS>(
    heap: Heap<'_>,
    successors: FN,
    success: FS,
    all: &[Path],
) -> Result<Steps, PathError>
where
    IN: IntoIterator<Item = (usize, u8)>,
    FN: FnMut(&usize) -> IN,
    FS: FnMut(&usize) -> bool,
    requires { (edges : ℕ → List (ℕ × ℤ)) × (test : ℕ → Bool)
        × IsWeightedSearch nat_eq edges (0 ∷ []) (⟦<FN as EdgeFunction<usize, u8>>⟧.answers successors) (⟦<FS as NodeTest<usize>>⟧.answers success) test }
{
    match yen_paths(heap, &0, successors, success) {
        Ok(mut walk) => Ok(steps_of(&mut walk, all)),
        Err(refusal) => Err(refusal),
    }
}

/// What the searches from 0 to one of two goals in a list of edges tell, the second of `k` paths.
pub(crate) fn search_list(
    heap: Heap<'_>,
    edges: &[Edge],
    goals: (usize, usize),
    k: usize,
    all: &[Path],
) -> Searches {
    let successors = |n: &usize| edges_from(edges, *n);
    let success = |n: &usize| *n == goals.0 || *n == goals.1;
    let walked = walk(heap, successors, success, all);
    let gathered = yen(heap, &0, successors, success, k);
    (walked, steps_in(gathered, all))
}
