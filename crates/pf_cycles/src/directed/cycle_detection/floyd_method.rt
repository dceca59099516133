//! Floyd's method: the second of two values moves twice as fast as the first.

ghost use Rattle.std.specs.Prelude.{◌≡◌, ◌<◌, ◌≤◌, ◌+◌, ◌^◌, ℕ, IfOk, IfErr};
ghost use Rattle.pf_base.specs.Answers.{IsLawfulClone};
ghost use Rattle.pf_base.specs.declared.error.PathError.TheVariants.{OutOfMemory, StepOverflow};
ghost use Rattle.pf_cycles.specs.Cycles.{AnswersStep, IsAfter, IsMet, IsCycle, IsMeetingOfFloyd, IsMultipleOfFloyd, IsStepRefusal, Repeats};

use crate::directed::cycle_detection::first_value::first_value;
use pf_base::PathError;

/// One more than a count of steps, where it fits.
fn one_more(steps: usize) -> Result<usize, PathError>
    ensures more { IfOk result (λ n. n ≡ steps + 1) }
    ensures refused { IfErr result (λ e. (e ≡ StepOverflow) × (2 ^ 64 ≤ steps + 1)) }
{
    steps.checked_add(1).ok_or(PathError::StepOverflow)
}

/// The least positive number of steps after which a value comes again, where it comes again after
/// as many steps as it stands from the start.
fn length_at<T, S>(value: &T, step: &S, steps: usize) -> Result<usize, PathError>
where
    T: Clone + Eq + Drop,
    S: Fn(T) -> T,
    requires clones { IsLawfulClone T.eq T.is_clone }
    requires steps { (start : T) × (next : T → T) × AnswersStep S.Fn T.eq step.now (IsMet T.eq next start) next × IsAfter T.eq next start steps value.now
        × (0 < steps) × Repeats T.eq next start steps steps }
    ensures positive { IfOk result (λ n. 0 < n) }
    ensures repeats { (start : T) (next : T → T) → AnswersStep S.Fn T.eq step.now (IsMet T.eq next start) next → IsAfter T.eq next start steps value.now
        → IfOk result (λ n. Repeats T.eq next start steps n) }
    ensures least { (start : T) (next : T → T) → AnswersStep S.Fn T.eq step.now (IsMet T.eq next start) next → IsAfter T.eq next start steps value.now
        → IfOk result (λ n. (k : ℕ) → 0 < k → k < n → ¬ (Repeats T.eq next start steps k)) }
    ensures refused { IfErr result (λ e. e ≡ OutOfMemory) }
{
    let mut ahead = step(value.clone()?);
    let mut length = 1usize;
    while *value != ahead {
        ahead = step(ahead);
        length += 1;
    }
    Ok(length)
}

/// Where the second value meets the first: the length of the cycle, the value, and the steps to it.
fn meeting<T, S>(start: &T, step: &S) -> Result<(usize, T, usize), PathError>
where
    T: Clone + Eq + Drop,
    S: Fn(T) -> T,
    requires clones { IsLawfulClone T.eq T.is_clone }
    requires steps { (next : T → T) × AnswersStep S.Fn T.eq step.now (IsMet T.eq next start.now) next }
    ensures cycle { (next : T → T) → AnswersStep S.Fn T.eq step.now (IsMet T.eq next start.now) next
        → IfOk result (λ r. (index : ℕ) × IsCycle T.eq next start.now r.0 index × IsMeetingOfFloyd r.0 index r.2) }
    ensures value { (next : T → T) → AnswersStep S.Fn T.eq step.now (IsMet T.eq next start.now) next
        → IfOk result (λ r. IsAfter T.eq next start.now r.2 r.1) }
    ensures refused { (next : T → T) → AnswersStep S.Fn T.eq step.now (IsMet T.eq next start.now) next
        → IfErr result (IsStepRefusal T.eq next start.now) }
{
    let mut slow = step(start.clone()?);
    let mut fast = step(slow.clone()?);
    let mut steps = 1usize;
    while slow != fast {
        steps = one_more(steps)?;
        slow = step(slow);
        fast = step(step(fast));
    }
    let length = length_at(&slow, step, steps)?;
    Ok((length, slow, steps))
}

/// The length of the cycle that a step runs into, with a value of the cycle and the steps to it.
///
/// The values are `start`, `step` of it, and so on: the value after `i` steps. The length is the
/// least positive number of steps after which some value comes again. The steps are 0 where the
/// cycle begins at the start, and else the least positive multiple of the length from the index up
/// that `floyd` answers. The value is equal to the one after so many steps. `step` must answer equal
/// values for equal ones at every call, and is asked of these values alone.
///
/// # Errors
///
/// `OutOfMemory`: a clone of a value was refused. `StepOverflow` comes only where 4 times the sum of
/// index and length does not fit `usize`, or where no value ever comes again.
///
/// The algorithm is Floyd's, of a slow and a fast value (D. E. Knuth, "The Art of Computer
/// Programming", volume 2, 1969, section 3.1): it keeps two values.
pub fn floyd_partial<T, S>(start: T, step: S) -> Result<(usize, T, usize), PathError>
where
    T: Clone + Eq + Drop,
    S: Fn(T) -> T,
    requires clones { IsLawfulClone T.eq T.is_clone }
    requires steps { (next : T → T) × AnswersStep S.Fn T.eq step (IsMet T.eq next start) next }
    ensures cycle { (next : T → T) → AnswersStep S.Fn T.eq step (IsMet T.eq next start) next
        → IfOk result (λ r. (index : ℕ) × IsCycle T.eq next start r.0 index × IsMultipleOfFloyd r.0 index r.2) }
    ensures value { (next : T → T) → AnswersStep S.Fn T.eq step (IsMet T.eq next start) next
        → IfOk result (λ r. IsAfter T.eq next start r.2 r.1) }
    ensures refused { (next : T → T) → AnswersStep S.Fn T.eq step (IsMet T.eq next start) next
        → IfErr result (IsStepRefusal T.eq next start) }
{
    let (length, value, steps) = meeting(&start, &step)?;
    if value == start {
        Ok((length, value, 0))
    } else {
        Ok((length, value, steps))
    }
}

/// The cycle that a step runs into: its length, its first value and the index of that value.
///
/// The values are `start`, `step` of it, and so on: the value at index `i` is the one after `i`
/// steps. The length is the least positive number of steps after which some value comes again, and
/// the index the least one of a value that comes again. The value is equal to the one at the index.
/// `step` must answer equal values for equal ones at every call, and is asked of these values alone.
///
/// # Errors
///
/// `OutOfMemory`: a clone of a value was refused. `StepOverflow` comes only where 4 times the sum of
/// index and length does not fit `usize`, or where no value ever comes again.
///
/// The algorithm is Floyd's, of a slow and a fast value (D. E. Knuth, "The Art of Computer
/// Programming", volume 2, 1969, section 3.1): it keeps two values, and its time is of the order of
/// the index and the length.
pub fn floyd<T, S>(start: T, step: S) -> Result<(usize, T, usize), PathError>
where
    T: Clone + Eq + Drop,
    S: Fn(T) -> T,
    requires clones { IsLawfulClone T.eq T.is_clone }
    requires steps { (next : T → T) × AnswersStep S.Fn T.eq step (IsMet T.eq next start) next }
    ensures cycle { (next : T → T) → AnswersStep S.Fn T.eq step (IsMet T.eq next start) next
        → IfOk result (λ r. IsCycle T.eq next start r.0 r.2) }
    ensures value { (next : T → T) → AnswersStep S.Fn T.eq step (IsMet T.eq next start) next
        → IfOk result (λ r. IsAfter T.eq next start r.2 r.1) }
    ensures refused { (next : T → T) → AnswersStep S.Fn T.eq step (IsMet T.eq next start) next
        → IfErr result (IsStepRefusal T.eq next start) }
{
    let (length, met, steps) = meeting(&start, &step)?;
    // The steps to the meeting are a multiple of the length.
    let (value, index) = first_value(start, &step, (met, steps), steps, steps);
    Ok((length, value, index))
}
