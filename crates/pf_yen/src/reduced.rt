//! The steps of a graph by what they cost and what remains behind them, less what remained before
//! them: a search by these costs goes where little more than what remains is spent.

ghost use Rattle.std.specs.Prelude.{◌≡◌, ◌+ℤ◌, ⊤, true, pos, length, Some, IfOk, IfErr, IfSome, MatchOption};
ghost use Rattle.pf_yen.specs.Internal.Reduced.{IsReducedRow, AreReduced, Guides};

use crate::adjacency::Adjacency;
use crate::remaining::{cost_at, remaining_costs};
use crate::rows::Rows;
use pf_base::{Cost, PathError};
use std::alloc::Allocator;

/// What remains from each number, and the steps from each at costs that are reduced by it, where these
/// are found. Steps are left out behind which no goal is reached.
#[derive(Drop)]
pub struct Guide<C: Cost, A: Allocator> {
    pub remaining: Vec<Option<C>, A>,
    pub reduced: Option<Rows<C, A>>,
}

/// The same, where the reduced costs were found.
#[derive(Drop)]
pub struct Reduced<'k, C: Cost, A: Allocator> {
    pub remaining: &'k [Option<C>],
    pub rows: &'k Rows<C, A>,
}

/// What a step costs and what remains behind it, less what remains before it, where it is found.
fn reduced_cost<C: Cost>(here: Option<C>, price: C, rest: C) -> Option<C>
    ensures { IfSome result (λ cost. (x : C) × (here ≡ Some x) × (C.value cost +ℤ C.value x ≡ C.value price +ℤ C.value rest)) }
{
    let sum = price.checked_add(&rest)?;
    sum.difference(here?)
}

/// Puts the steps of a row at reduced costs in place of those that were reduced before. The answer is
/// whether all are found.
fn reduce_row<C: Cost, A: Allocator>(
    reduced: &mut Vec<(usize, C), A>,
    row: &[(usize, C)],
    costs: &[Option<C>],
    here: Option<C>,
) -> Result<bool, PathError>
    ensures reduced { IfOk result (λ found. found ≡ true → IsReducedRow C.value costs.now row.now here reduced.new.items) }
    ensures refused { IfErr result (λ e. e ≡ PathError.OutOfMemory) }
{
    reduced.clear();
    'steps: for (next, price) in row {
        if let Some(rest) = cost_at(costs, *next) {
            let Some(cost) = reduced_cost(here, *price, rest) else {
                return Ok(false);
            };
            reduced.push((*next, cost))?;
        }
    }
    Ok(true)
}

/// Does nothing remain, as from a goal?
fn is_nothing<C: Cost>(here: Option<C>) -> bool
    ensures { result ≡ true → (y : C) × (here ≡ Some y) × (C.value y ≡ pos 0) }
{
    match here {
        Some(cost) => cost.is_zero(),
        None => false,
    }
}

/// The steps from each number at reduced costs, or `None` where one is not found or a goal costs more
/// than nothing.
fn reduced_rows<C: Cost, A: Allocator + Copy>(
    alloc: A,
    adjacency: &Adjacency<C, A>,
    costs: &[Option<C>],
) -> Result<Option<Rows<C, A>>, PathError>
    requires { length costs.now ≡ length adjacency.now.rows }
    ensures reduced { IfOk result (λ found. MatchOption found ⊤ (λ rows. AreReduced C.value adjacency.now costs.now rows)) }
    ensures refused { IfErr result (λ e. e ≡ PathError.OutOfMemory) }
{
    let mut rows = Rows::new(alloc);
    let mut reduced = Vec::new(alloc);
    'numbers: for number in 0..adjacency.len() {
        if adjacency.is_goal(number) && !is_nothing(costs[number]) {
            return Ok(None);
        }
        if !reduce_row(&mut reduced, adjacency.row(number), costs, costs[number])? {
            return Ok(None);
        }
        rows.add(&reduced)?;
    }
    Ok(Some(rows))
}

/// What leads to the goals, or `None` where what remains is not found.
pub fn guide_to_goals<C: Cost, A: Allocator + Copy>(
    alloc: A,
    adjacency: &Adjacency<C, A>,
) -> Result<Option<Guide<C, A>>, PathError>
    ensures guides { IfOk result (λ found. MatchOption found ⊤ (λ guide. Guides C.value C.fits adjacency.now guide)) }
    ensures refused { IfErr result (λ e. e ≡ PathError.OutOfMemory) }
{
    let Some(remaining) = remaining_costs(alloc, adjacency)? else {
        return Ok(None);
    };
    let reduced = reduced_rows(alloc, adjacency, &remaining)?;
    Ok(Some(Guide { remaining, reduced }))
}
