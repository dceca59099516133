//! The calls that find cycles, behind one function.

ghost use Rattle.pf_base.specs.Answers.{IsLawfulClone};
ghost use Rattle.pf_cycles.specs.Cycles.{AnswersStep, IsMet};

use pf_base::PathError;
use pf_cycles::directed::cycle_detection::{brent, brent_partial, floyd, floyd_partial};

/// A length, a value and a number of steps.
pub type Cycle<T> = Result<(usize, T, usize), PathError>;

/// What `floyd`, `brent`, `floyd_partial` and `brent_partial` answer.
pub type Cycles<T> = (Cycle<T>, Cycle<T>, Cycle<T>, Cycle<T>);

/// The cycle that steps from `start` lead to, by each of the four calls.
pub fn cycles_by<T, S>(start: T, step: S) -> Cycles<T>
where
    T: Eq + Copy,
    S: Fn(T) -> T + Copy,
    requires clones { IsLawfulClone T.eq T.is_clone }
    requires steps { (next : T → T) × AnswersStep S.Fn T.eq step (IsMet T.eq next start) next }
{
    (
        floyd(start, step),
        brent(start, step),
        floyd_partial(start, step),
        brent_partial(start, step),
    )
}
