//! Numbers in groups, by rounds.

ghost use Rattle.std.specs.Prelude.{◌≡◌, ◌<◌, ◌≤◌, ◌+◌, ◌++◌, ◌↔◌, ℕ, List, Some, IfOk, IfErr, OnOk, length, slice_get, nat_eq, nat_lt};
ghost use Rattle.pf_base.specs.Walks.{HasNode, NoRepeats};
ghost use Rattle.pf_orders.specs.Internal.Rounds.{times, AreCounted, Falls, AreFreed, IsRound, AreLevels};

use pf_base::PathError;
use std::alloc::Allocator;
use std::mem;

/// The numbers that follow each number.
pub type Rows<A> = Vec<Vec<usize, A>, A>;

/// Numbers in groups, and those that are in none.
#[derive(Drop)]
pub struct Levels<A: Allocator> {
    /// The groups, in order.
    pub groups: Rows<A>,
    /// What lies on a cycle or behind one.
    pub remaining: Vec<usize, A>,
}

/// Lowers the count of each number of the row, and puts those that fall to 0 at the end of `next`.
fn release<A: Allocator>(
    row: &[usize],
    counts: &mut Vec<usize, A>,
    next: &mut Vec<usize, A>,
) -> Result<(), PathError>
    requires inside { (j : ℕ) → HasNode nat_eq row.now j → j < length counts.old.items }
    requires enough { (j c : ℕ) → slice_get counts.old.items j ≡ Some c → times j row.now ≤ c }
    ensures falls { OnOk result (Falls row.now counts.old.items counts.new.items) }
    ensures freed { OnOk result ((freed : List ℕ) × (next.new.items ≡ next.old.items ++ freed) × AreFreed counts.old.items counts.new.items freed) }
    ensures refused { IfErr result (λ e. e ≡ PathError.OutOfMemory) }
{
    'targets: for target in row {
        let count = counts[*target] - 1;
        counts[*target] = count;
        if count == 0 {
            next.push(*target)?;
        }
    }
    Ok(())
}

/// Takes the rows of a group out, and answers the numbers that no row has any more.
fn round<A: Allocator + Copy>(
    alloc: A,
    group: &[usize],
    counts: &mut Vec<usize, A>,
    rows: &mut Rows<A>,
) -> Result<Vec<usize, A>, PathError>
    requires counted { AreCounted rows.old.items counts.old.items }
    requires wide { length rows.old.items ≡ length counts.old.items }
    requires inside { (i : ℕ) → HasNode nat_eq group.now i → i < length rows.old.items }
    ensures round { IfOk result (λ next. IsRound group.now next.items counts.old.items counts.new.items rows.old.items rows.new.items) }
    ensures refused { IfErr result (λ e. e ≡ PathError.OutOfMemory) }
{
    let mut next = Vec::new(alloc);
    'numbers: for number in group {
        let row = mem::replace(&mut rows[*number], Vec::new(alloc));
        release(&row, counts, &mut next)?;
    }
    Ok(next)
}

/// The numbers whose count is above 0, or those whose count is 0.
fn numbers_with<A: Allocator>(
    alloc: A,
    counts: &[usize],
    waiting: bool,
) -> Result<Vec<usize, A>, PathError>
    ensures exact { IfOk result (λ numbers. (j : ℕ) → HasNode nat_eq numbers.items j ↔ ((c : ℕ) × (slice_get counts.now j ≡ Some c) × (nat_lt 0 c ≡ waiting))) }
    ensures once { IfOk result (λ numbers. NoRepeats nat_eq numbers.items) }
    ensures refused { IfErr result (λ e. e ≡ PathError.OutOfMemory) }
{
    let mut numbers = Vec::new(alloc);
    'numbers: for number in 0..counts.len() {
        if (counts[number] > 0) == waiting {
            numbers.push(number)?;
        }
    }
    Ok(numbers)
}

/// The numbers in groups: the first has those that follow none, and each other one those whose last
/// predecessor is in the group before.
pub fn group_numbers<A: Allocator + Copy>(
    alloc: A,
    mut counts: Vec<usize, A>,
    mut rows: Rows<A>,
) -> Result<Levels<A>, PathError>
    requires counted { AreCounted rows.items counts.items }
    requires wide { length rows.items ≡ length counts.items }
    ensures levels { IfOk result (λ levels. AreLevels (length rows.items) rows.items levels.groups.items levels.remaining.items) }
    ensures refused { IfErr result (λ e. e ≡ PathError.OutOfMemory) }
{
    let mut groups = Vec::new(alloc);
    let mut group = numbers_with(alloc, &counts, false)?;
    'rounds: while !group.is_empty() {
        let next = round(alloc, &group, &mut counts, &mut rows)?;
        groups.push(group)?;
        group = next;
    }
    let remaining = numbers_with(alloc, &counts, true)?;
    Ok(Levels { groups, remaining })
}
