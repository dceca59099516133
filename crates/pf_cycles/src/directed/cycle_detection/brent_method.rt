//! Brent's method: the first of two values waits, and jumps to the second at each power of two.

ghost use Rattle.std.specs.Prelude.{◌≡◌, ◌≤◌, ◌-◌, ◌*◌, ◌/◌, ◌^◌, ℕ, IfOk, IfErr, IfSome};
ghost use Rattle.pf_base.specs.Answers.{IsLawfulClone};
ghost use Rattle.pf_base.specs.declared.error.PathError.TheVariants.{OutOfMemory, StepOverflow};
ghost use Rattle.pf_cycles.specs.Cycles.{AnswersStep, IsAfter, IsMet, IsCycle, IsMeetingOfBrent, IsStepRefusal};

use crate::directed::cycle_detection::first_value::first_value;
use pf_base::PathError;

/// Twice a count of steps, where it fits.
fn doubled(steps: usize) -> Result<usize, PathError>
    ensures twice { IfOk result (λ n. n ≡ steps * 2) }
    ensures refused { IfErr result (λ e. (e ≡ StepOverflow) × (2 ^ 64 ≤ steps * 2)) }
{
    steps.checked_mul(2).ok_or(PathError::StepOverflow)
}

/// Where the second value comes back to the first: the length of the cycle, the value, and the
/// steps to it. If the first value jumped, there is also the value at which it waited before, after
/// half of the steps to the one at which it waits.
fn meeting<T, S>(start: &T, step: &S) -> Result<(usize, T, usize, Option<T>), PathError>
where
    T: Clone + Eq + Drop,
    S: Fn(T) -> T,
    requires clones { IsLawfulClone T.eq T.is_clone }
    requires steps { (next : T → T) × AnswersStep S.Fn T.eq step.now (IsMet T.eq next start.now) next }
    ensures cycle { (next : T → T) → AnswersStep S.Fn T.eq step.now (IsMet T.eq next start.now) next
        → IfOk result (λ r. (index : ℕ) × IsCycle T.eq next start.now r.0 index × IsMeetingOfBrent r.0 index r.2) }
    ensures value { (next : T → T) → AnswersStep S.Fn T.eq step.now (IsMet T.eq next start.now) next
        → IfOk result (λ r. IsAfter T.eq next start.now r.2 r.1) }
    ensures before { (next : T → T) → AnswersStep S.Fn T.eq step.now (IsMet T.eq next start.now) next
        → IfOk result (λ r. IfSome r.3 (IsAfter T.eq next start.now ((r.2 - r.0) / 2))) }
    ensures longer { IfOk result (λ r. r.0 ≤ r.2) }
    ensures refused { (next : T → T) → AnswersStep S.Fn T.eq step.now (IsMet T.eq next start.now) next
        → IfErr result (IsStepRefusal T.eq next start.now) }
{
    let mut before = None;
    let mut waiting = start.clone()?;
    let mut moving = step(start.clone()?);
    let mut power = 1usize;
    let mut length = 1usize;
    while waiting != moving {
        if length == power {
            power = doubled(power)?;
            let copy = moving.clone()?;
            before = Some(waiting);
            waiting = copy;
            length = 0;
        }
        moving = step(moving);
        length += 1;
    }
    Ok((length, moving, power - 1 + length, before))
}

/// A value that is known and at most `most` steps from the start, and these steps: the one that waited
/// before, or else the start.
fn value_within<T>(
    start: &T,
    before: Option<T>,
    steps: usize,
    most: usize,
) -> Result<(T, usize), PathError>
where
    T: Clone + Eq + Drop,
    requires clones { IsLawfulClone T.eq T.is_clone }
    ensures within { IfOk result (λ r. r.1 ≤ most) }
    ensures value { (next : T → T) → IfSome before (IsAfter T.eq next start.now steps) → IfOk result (λ r. IsAfter T.eq next start.now r.1 r.0) }
    ensures refused { IfErr result (λ e. e ≡ OutOfMemory) }
{
    if let Some(value) = before {
        if steps <= most {
            return Ok((value, steps));
        }
    }
    Ok((start.clone()?, 0))
}

/// The length of the cycle that a step runs into, with a value of the cycle and the steps to it.
///
/// The values are `start`, `step` of it, and so on: the value after `i` steps. The length is the
/// least positive number of steps after which some value comes again. With the index that `brent`
/// answers, the steps are `2^j - 1` and the length, for the least `j` with `2^j - 1` from the index
/// up and `2^j` from the length up. The value is equal to the one after so many steps. `step` must
/// answer equal values for equal ones at every call, and is asked of these values alone.
///
/// # Errors
///
/// `OutOfMemory`: a clone of a value was refused. `StepOverflow` comes only where 4 times the sum of
/// index and length does not fit `usize`, or where no value ever comes again.
///
/// The algorithm is Brent's (R. P. Brent, "An improved Monte Carlo factorization algorithm", 1980):
/// it keeps two values, and makes each step once.
pub fn brent_partial<T, S>(start: T, step: S) -> Result<(usize, T, usize), PathError>
where
    T: Clone + Eq + Drop,
    S: Fn(T) -> T,
    requires clones { IsLawfulClone T.eq T.is_clone }
    requires steps { (next : T → T) × AnswersStep S.Fn T.eq step (IsMet T.eq next start) next }
    ensures cycle { (next : T → T) → AnswersStep S.Fn T.eq step (IsMet T.eq next start) next
        → IfOk result (λ r. (index : ℕ) × IsCycle T.eq next start r.0 index × IsMeetingOfBrent r.0 index r.2) }
    ensures value { (next : T → T) → AnswersStep S.Fn T.eq step (IsMet T.eq next start) next
        → IfOk result (λ r. IsAfter T.eq next start r.2 r.1) }
    ensures refused { (next : T → T) → AnswersStep S.Fn T.eq step (IsMet T.eq next start) next
        → IfErr result (IsStepRefusal T.eq next start) }
{
    let (length, value, steps, _) = meeting(&start, &step)?;
    Ok((length, value, steps))
}

/// The cycle that a step runs into: its length, its first value and the index of that value.
///
/// The values are `start`, `step` of it, and so on: the value at index `i` is the one after `i`
/// steps. The length is the least positive number of steps after which some value comes again, and
/// the index the least one of a value that comes again. The value is equal to the one at the index.
/// `step` must answer equal values for equal ones at every call, and is asked of these values alone.
///
/// # Errors
///
/// `OutOfMemory`: a clone of a value was refused. `StepOverflow` comes only where 4 times the sum of
/// index and length does not fit `usize`, or where no value ever comes again.
///
/// The algorithm is Brent's (R. P. Brent, "An improved Monte Carlo factorization algorithm", 1980):
/// it keeps two values, and its time is of the order of the index and the length.
pub fn brent<T, S>(start: T, step: S) -> Result<(usize, T, usize), PathError>
where
    T: Clone + Eq + Drop,
    S: Fn(T) -> T,
    requires clones { IsLawfulClone T.eq T.is_clone }
    requires steps { (next : T → T) × AnswersStep S.Fn T.eq step (IsMet T.eq next start) next }
    ensures cycle { (next : T → T) → AnswersStep S.Fn T.eq step (IsMet T.eq next start) next
        → IfOk result (λ r. IsCycle T.eq next start r.0 r.2) }
    ensures value { (next : T → T) → AnswersStep S.Fn T.eq step (IsMet T.eq next start) next
        → IfOk result (λ r. IsAfter T.eq next start r.2 r.1) }
    ensures refused { (next : T → T) → AnswersStep S.Fn T.eq step (IsMet T.eq next start) next
        → IfErr result (IsStepRefusal T.eq next start) }
{
    let (length, _, steps, before) = meeting(&start, &step)?;
    let known = value_within(&start, before, (steps - length) / 2, length)?;
    let (value, index) = first_value(start, &step, known, length, steps);
    Ok((length, value, index))
}
