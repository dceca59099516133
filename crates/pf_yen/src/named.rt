//! The way behind a prefix that remaining costs name: from the best first step, always on by a step
//! behind which so much less remains. Where it meets no number twice, it is a cheapest path.

ghost use Rattle.std.specs.Prelude.{◌≡◌, ◌⊎◌, ◌≤ℤ◌, ◌<◌, ◌+ℤ◌, ◌+◌, ◌++◌, [], ◌∷◌, ℕ, ℤ, List, Some, true, false, length, take, drop, Contains, slice_get, IfOk, IfErr, IfSome, MatchBool};
ghost use Rattle.pf_yen.specs.Internal.WholeGraphs.{IsWhole};
ghost use Rattle.pf_yen.specs.Internal.Adjacency.{is_goal, row_of};
ghost use Rattle.pf_yen.specs.Internal.Remaining.{AreRemaining};
ghost use Rattle.pf_yen.specs.Internal.NamedWays.{is_first, IsBestFirst, IsNextStep, IsPrefix, IsWaySoFar, IsNamed};

use crate::filtered::FilteredGraph;
use crate::remaining::cost_at;
use pf_base::{Cost, PathError};
use std::alloc::Allocator;

/// What is found of a class by what remains.
#[derive(Drop)]
pub enum Named<C: Cost, A: Allocator> {
    /// A cheapest path, and its cost.
    Way(Vec<usize, A>, C),
    /// The class has no path.
    Nothing,
    /// The class has to be searched.
    Unknown,
}

/// Is there no first step yet, or does this one cost less?
fn is_better<C: Cost>(best: Option<(usize, C)>, sum: C) -> bool
    ensures { MatchBool result (IfSome best (λ r. C.value sum ≤ℤ C.value r.1)) ((r : ℕ × C) × (best ≡ Some r) × (C.value r.1 ≤ℤ C.value sum)) }
{
    match best {
        Some(step) => sum < step.1,
        None => true,
    }
}

/// The better of a first step that was found, and this one.
fn better<C: Cost, A: Allocator>(
    filtered: &FilteredGraph<'_, C, A>,
    costs: &[Option<C>],
    best: Option<(usize, C)>,
    next: usize,
    price: C,
) -> Option<(usize, C)>
    requires inside { next < length filtered.now.onward.items }
    requires fits { (y : C) → slice_get costs.now next ≡ Some (Some y) → C.fits (C.value price +ℤ C.value y) }
    ensures { (steps more : List (ℕ × C)) → ((e : ℕ × C) → Contains steps e → Contains more e) → Contains more (next, price)
        → ((e : ℕ × C) → Contains more e → ((next, price) ≡ e) ⊎ Contains steps e)
        → IsBestFirst C.value (is_first filtered.now.onward.items filtered.now.spur filtered.now.banned) costs.now steps best
        → IsBestFirst C.value (is_first filtered.now.onward.items filtered.now.spur filtered.now.banned) costs.now more result }
{
    let Some(rest) = cost_at(costs, next) else {
        return best;
    };
    let Some(sum) = price.checked_add(&rest) else {
        return best;
    };
    // The banned numbers are looked through last.
    if is_better(best, sum) && filtered.may_be_first(next) {
        Some((next, sum))
    } else {
        best
    }
}

/// The best first step from the spur: the number that it leads to, and the step with what remains
/// behind it.
fn best_first<C: Cost, A: Allocator>(
    filtered: &FilteredGraph<'_, C, A>,
    costs: &[Option<C>],
) -> Option<(usize, C)>
    requires whole { IsWhole C.value filtered.now.adjacency.now }
    requires wide { length filtered.now.onward.items ≡ length filtered.now.adjacency.now.rows }
    requires inside { filtered.now.spur < length filtered.now.adjacency.now.rows }
    requires live { is_goal filtered.now.adjacency.now filtered.now.spur ≡ false }
    requires remaining { AreRemaining C.value C.fits filtered.now.adjacency.now costs.now }
    ensures { IsBestFirst C.value (is_first filtered.now.onward.items filtered.now.spur filtered.now.banned) costs.now (row_of filtered.now.adjacency.now filtered.now.spur) result }
{
    let mut best = None;
    'steps: for (next, price) in filtered.adjacency.row(filtered.spur) {
        best = better(filtered, costs, best, *next, *price);
    }
    best
}

/// What remains behind a step, where it leads to a number that was not met, and so much less remains.
fn rest_behind<C: Cost, A: Allocator>(
    filtered: &FilteredGraph<'_, C, A>,
    costs: &[Option<C>],
    here: C,
    next: usize,
    price: C,
) -> Option<C>
    requires { next < length filtered.now.onward.items }
    ensures { IfSome result (λ rest. (steps : List (ℕ × C)) → Contains steps (next, price) → IsNextStep C.value filtered.now.onward.items filtered.now.spur costs.now steps here next rest) }
{
    let rest = cost_at(costs, next)?;
    let sum = price.checked_add(&rest)?;
    if rest < here && sum == here && filtered.is_new(next) {
        Some(rest)
    } else {
        None
    }
}

/// A step from a number on by the remaining costs: the number that it leads to, and what remains there.
fn step_on<C: Cost, A: Allocator>(
    filtered: &FilteredGraph<'_, C, A>,
    costs: &[Option<C>],
    number: usize,
    here: C,
) -> Option<(usize, C)>
    requires whole { IsWhole C.value filtered.now.adjacency.now }
    requires wide { length filtered.now.onward.items ≡ length filtered.now.adjacency.now.rows }
    requires inside { number < length filtered.now.adjacency.now.rows }
    ensures { IfSome result (λ r. IsNextStep C.value filtered.now.onward.items filtered.now.spur costs.now (row_of filtered.now.adjacency.now number) here r.0 r.1) }
{
    'steps: for (next, price) in filtered.adjacency.row(number) {
        if let Some(rest) = rest_behind(filtered, costs, here, *next, *price) {
            return Some((*next, rest));
        }
    }
    None
}

/// Adds the first numbers of a path, and the number that it goes on to, and goes on from there by the
/// remaining costs. The answer is whether that led to a goal.
fn go_to_goal<C: Cost, A: Allocator>(
    filtered: &FilteredGraph<'_, C, A>,
    costs: &[Option<C>],
    path: &mut Vec<usize, A>,
    begin: &[usize],
    first: usize,
    rest: C,
) -> Result<bool, PathError>
    requires whole { IsWhole C.value filtered.now.adjacency.now }
    requires wide { length filtered.now.onward.items ≡ length filtered.now.adjacency.now.rows }
    requires inside { first < length filtered.now.adjacency.now.rows }
    ensures goal { IfOk result (λ found. found ≡ true → (q : List ℕ) (total : ℤ)
        → IsWaySoFar C.value filtered.now.adjacency.now filtered.now.onward.items filtered.now.spur q filtered.now.banned costs.now total ((path.old.items ++ begin.now) ++ first ∷ []) first rest
        → (number : ℕ) × (here : C) × IsWaySoFar C.value filtered.now.adjacency.now filtered.now.onward.items filtered.now.spur q filtered.now.banned costs.now total path.new.items number here
        × (is_goal filtered.now.adjacency.now number ≡ true) × (C.value C.zero ≤ℤ C.value here)) }
    ensures refused { IfErr result (λ e. e ≡ PathError.OutOfMemory) }
{
    path.extend_from_slice(begin)?;
    path.push(first)?;
    let mut number = first;
    let mut here = rest;
    'steps: while !filtered.adjacency.is_goal(number) {
        let Some(step) = step_on(filtered, costs, number, here) else {
            return Ok(false);
        };
        path.push(step.0)?;
        number = step.0;
        here = step.1;
    }
    Ok(!(here < C::zero()))
}

/// The same numbers, in no more room than they take.
fn fitted<A: Allocator + Copy>(alloc: A, numbers: &[usize]) -> Result<Vec<usize, A>, PathError>
    ensures same { IfOk result (λ path. path.items ≡ numbers.now) }
    ensures refused { IfErr result (λ e. e ≡ PathError.OutOfMemory) }
{
    let mut path = Vec::new(alloc);
    path.extend_from_slice(numbers)?;
    Ok(path)
}

/// The path behind the first numbers of a path, up to the place `spur`, that remaining costs name.
pub fn named_way<C: Cost, A: Allocator + Copy>(
    alloc: A,
    filtered: &FilteredGraph<'_, C, A>,
    path: &[usize],
    spur: usize,
) -> Result<Named<C, A>, PathError>
    requires whole { IsWhole C.value filtered.now.adjacency.now }
    requires wide { length filtered.now.onward.items ≡ length filtered.now.adjacency.now.rows }
    requires begins { take (spur + 1) path.now ≡ 0 ∷ take spur (drop 1 path.now) }
    requires inside { spur < length path.now }
    requires prefix { IsPrefix C.value filtered.now.adjacency.now filtered.now.onward.items filtered.now.spur (take spur (drop 1 path.now)) filtered.now.spent }
    ensures named { IfOk result (λ named. IsNamed C.value filtered.now.adjacency.now (take spur (drop 1 path.now)) filtered.now.banned named) }
    ensures refused { IfErr result (λ e. e ≡ PathError.OutOfMemory) }
{
    let Some(costs) = filtered.adjacency.remaining() else {
        return Ok(Named::Unknown);
    };
    let Some(first) = best_first(filtered, costs) else {
        return Ok(Named::Nothing);
    };
    let Some(total) = total_of(filtered.spent, first.1) else {
        return Ok(Named::Unknown);
    };
    let Some(rest) = cost_at(costs, first.0) else {
        return Ok(Named::Unknown);
    };
    let mut numbers = Vec::new(alloc);
    let begin = &path[..spur + 1];
    if go_to_goal(filtered, costs, &mut numbers, begin, first.0, rest)? {
        let path = fitted(alloc, &numbers)?;
        return Ok(Named::Way(path, total));
    }
    Ok(Named::Unknown)
}

/// The sum of what was spent and of this, where both are known and it fits.
fn total_of<C: Cost>(spent: Option<C>, sum: C) -> Option<C>
    ensures { IfSome result (λ total. (s : C) × (spent ≡ Some s) × (C.value total ≡ C.value s +ℤ C.value sum)) }
{
    spent?.checked_add(&sum)
}
