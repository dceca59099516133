//! A caller that goes on with a walk by rising cost behind a step that does not fit.

ghost use Rattle.std.specs.Prelude.{◌≡◌, ◌∷◌, ◌/◌, []};

use pf_base::PathError;
use pf_search::directed::dijkstra::{DijkstraReachableItem, dijkstra_reach};
use std::alloc::Global;

/// What a step tells: a node, a refusal, or that there is none.
type Told = Option<Result<u64, PathError>>;

/// What is told of a step.
fn outcome_of(step: Option<Result<DijkstraReachableItem<u64, u64>, PathError>>) -> Told {
    match step {
        Some(Ok(item)) => Some(Ok(item.node)),
        Some(Err(refusal)) => Some(Err(refusal)),
        None => None,
    }
}

/// What the steps of a walk from 9 tell, where each number leads to its half and two such steps cost
/// more than fits: the first three, and one more after `resume`.
fn steps_to_halves(alloc: Global) -> Result<[Told; 4], PathError> {
    let mut walk = dijkstra_reach(
        alloc,
        &9u64,
        |n: &u64| -> [(u64, u64); 2]
            ensures { result ≡ (n.now / 2, 9223372036854775809) ∷ (n.now / 2, 9223372036854775808) ∷ [] }
        { [(*n / 2, (1 << 63) + 1), (*n / 2, 1 << 63)] },
    )?;
    let first = outcome_of(walk.next());
    let dear = outcome_of(walk.next());
    let rest = outcome_of(walk.next());
    walk.resume();
    let again = outcome_of(walk.next());
    Ok([first, dear, rest, again])
}

#[test]
fn a_step_that_does_not_fit_is_refused_again(rt: HostRuntime) {
    let overflow = Some(Err(PathError::CostOverflow));
    let told = steps_to_halves(rt.alloc());
    assert!(rt; told == Ok([Some(Ok(9)), overflow, None, overflow]));
}
