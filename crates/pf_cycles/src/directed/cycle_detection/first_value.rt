//! The first value of a cycle whose length is known.

ghost use Rattle.std.specs.Prelude.{◌≡◌, ◌<◌, ◌≤◌, ℕ};
ghost use Rattle.pf_cycles.specs.Cycles.{AnswersStep, IsAfter, IsMet, Repeats};

/// The first value that is met again `distance` steps later, and its index, which is at most `most`:
/// one value follows the other at this distance until they are equal. The one ahead is known after so
/// many steps already.
pub fn first_value<T, S>(
    start: T,
    step: &S,
    known: (T, usize),
    distance: usize,
    most: usize,
) -> (T, usize)
where
    T: Eq + Drop,
    S: Fn(T) -> T,
    requires within { known.1 ≤ distance }
    requires steps { (next : T → T) × AnswersStep S.Fn T.eq step.now (IsMet T.eq next start) next × IsAfter T.eq next start known.1 known.0 × Repeats T.eq next start most distance }
    ensures value { (next : T → T) → AnswersStep S.Fn T.eq step.now (IsMet T.eq next start) next → IsAfter T.eq next start known.1 known.0
        → IsAfter T.eq next start result.1 result.0 }
    ensures repeats { (next : T → T) → AnswersStep S.Fn T.eq step.now (IsMet T.eq next start) next → IsAfter T.eq next start known.1 known.0
        → Repeats T.eq next start result.1 distance }
    ensures first { (next : T → T) → AnswersStep S.Fn T.eq step.now (IsMet T.eq next start) next → IsAfter T.eq next start known.1 known.0
        → (i : ℕ) → i < result.1 → ¬ (Repeats T.eq next start i distance) }
{
    let (mut ahead, at) = known;
    for _ in at..distance {
        ahead = step(ahead);
    }
    let mut value = start;
    let mut index = 0;
    while value != ahead {
        value = step(value);
        ahead = step(ahead);
        index += 1;
    }
    (value, index)
}
