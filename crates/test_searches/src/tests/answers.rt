//! Comparisons of what a search answers with what it has to answer.

use pf_base::PathError;
use std::alloc::Allocator;

/// How a call ended.
#[derive(Clone, Copy, PartialEq, Eq)]
pub enum Outcome {
    /// It answered out of memory.
    OutOfMemory,
    /// It answered what it has to answer.
    Right,
    /// It did neither.
    Wrong,
}

impl Outcome {
    /// How a call ended whose answer is right or not.
    pub fn of_answer(is_right: bool) -> Outcome {
        if is_right {
            Outcome::Right
        } else {
            Outcome::Wrong
        }
    }

    /// How a call ended that was refused.
    pub fn of_refusal(refusal: PathError) -> Outcome {
        if refusal == PathError::OutOfMemory {
            Outcome::OutOfMemory
        } else {
            Outcome::Wrong
        }
    }
}

/// How a search ended that has to answer this path, or that there is none.
pub fn path_outcome<N, A>(
    answer: Result<Option<Vec<N, A>>, PathError>,
    want: Option<&[N]>,
) -> Outcome
where
    N: PartialEq + Drop,
    A: Allocator,
{
    outcome_of_path(&answer, want)
}

/// The same of an answer that is lent.
fn outcome_of_path<N: PartialEq, A: Allocator>(
    answer: &Result<Option<Vec<N, A>>, PathError>,
    want: Option<&[N]>,
) -> Outcome {
    match answer {
        Ok(Some(path)) => Outcome::of_answer(want == Some(path.as_slice())),
        Ok(None) => Outcome::of_answer(want.is_none()),
        Err(refusal) => Outcome::of_refusal(*refusal),
    }
}

/// How a search ended that has to answer this path at this cost, or that there is none.
pub fn cheapest_outcome<N, C, A>(
    answer: Result<Option<(Vec<N, A>, C)>, PathError>,
    want: Option<(&[N], C)>,
) -> Outcome
where
    N: PartialEq + Drop,
    C: PartialEq + Copy,
    A: Allocator,
{
    outcome_of_cheapest(&answer, want)
}

/// The same of an answer that is lent.
fn outcome_of_cheapest<N: PartialEq, C: PartialEq + Copy, A: Allocator>(
    answer: &Result<Option<(Vec<N, A>, C)>, PathError>,
    want: Option<(&[N], C)>,
) -> Outcome {
    match answer {
        Ok(Some((path, cost))) => Outcome::of_answer(want == Some((path.as_slice(), *cost))),
        Ok(None) => Outcome::of_answer(want.is_none()),
        Err(refusal) => Outcome::of_refusal(*refusal),
    }
}

/// Whether the answer is this path, or that there is none.
pub fn is_path<N, A>(answer: Result<Option<Vec<N, A>>, PathError>, want: Option<&[N]>) -> bool
where
    N: PartialEq + Drop,
    A: Allocator,
{
    path_outcome(answer, want) == Outcome::Right
}

/// Whether the answer is this path at this cost, or that there is none.
pub fn is_cheapest<N, C, A>(
    answer: Result<Option<(Vec<N, A>, C)>, PathError>,
    want: Option<(&[N], C)>,
) -> bool
where
    N: PartialEq + Drop,
    C: PartialEq + Copy,
    A: Allocator,
{
    cheapest_outcome(answer, want) == Outcome::Right
}
