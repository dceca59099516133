//! Cycles of a step.

ghost use Rattle.std.specs.Prelude.{◌≡◌, ◌≤ℤ◌, ◌+ℤ◌, if◌then◌else◌, int_rem, pos, negsuc};
ghost use Rattle.std.specs.Ordering.{int_eq};
ghost use Rattle.pf_base.specs.Answers.{IsLawfulClone};
ghost use Rattle.pf_cycles.specs.Cycles.{AnswersStep, IsMet};

use pf_base::PathError;
use pf_cycles::directed::cycle_detection::{brent, brent_partial, floyd, floyd_partial};

/// What `floyd`, `brent`, `floyd_partial` and `brent_partial` answer.
type Answers<T> = Result<[(usize, T, usize); 4], PathError>;

/// The four answers for a step from `start`.
fn answers<T, S>(start: T, step: S) -> Answers<T>
where
    T: Copy + Eq,
    S: Fn(T) -> T + Copy,
    requires clones { IsLawfulClone T.eq T.is_clone }
    requires steps { (next : T → T) × AnswersStep S.Fn T.eq step (IsMet T.eq next start) next }
{
    Ok([
        floyd(start, step)?,
        brent(start, step)?,
        floyd_partial(start, step)?,
        brent_partial(start, step)?,
    ])
}

/// Doubling modulo 7 from 1, which begins on its cycle: 1, 2, 4.
fn doubling() -> Answers<u64> {
    answers(1, |x: u64| x * 2 % 7)
}

/// The cycle of 6, 8, 4, to which -10 and -2 lead.
fn behind_two_steps() -> Answers<i32> {
    answers(
        -10,
        |x: i32| -> i32
            requires { (negsuc 9 ≤ℤ x) × (x ≤ℤ pos 8) }
            ensures { result ≡ int_rem (x +ℤ pos 5) (pos 6) +ℤ pos 3 }
        { (x + 5) % 6 + 3 },
    )
}

/// A cycle of a hundred numbers, on which the start is.
fn hundred() -> Answers<u64> {
    answers(0, |x: u64| (x + 1) % 100)
}

/// A cycle of the numbers 0 to 10, to which a hundred steps lead.
fn behind_many_steps() -> Answers<i32> {
    answers(
        -100,
        |x: i32| -> i32
            requires { (negsuc 99 ≤ℤ x) × (x ≤ℤ pos 10) }
            ensures { result ≡ (if int_eq x (pos 10) then pos 0 else x +ℤ pos 1) }
        { if x == 10 { 0 } else { x + 1 } },
    )
}

#[test]
fn finds_cycles(rt: HostRuntime) {
    assert!(rt; doubling() == Ok([(3, 1, 0), (3, 1, 0), (3, 1, 0), (3, 1, 6)]));
    assert!(rt; hundred() == Ok([(100, 0, 0), (100, 0, 0), (100, 0, 0), (100, 27, 227)]));
    assert!(rt;
        behind_many_steps() == Ok([(11, 0, 100), (11, 0, 100), (11, 10, 110), (11, 5, 138)])
    );
    assert!(rt; behind_two_steps() == Ok([(3, 6, 2), (3, 6, 2), (3, 8, 3), (3, 8, 6)]));
}
