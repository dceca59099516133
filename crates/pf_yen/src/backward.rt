//! A search by rising cost over a learned graph, from its goals back to what leads to them.

ghost use Rattle.std.specs.Prelude.{◌≡◌, length, IfOk, IfErr, IfSome};

use crate::adjacency::Adjacency;
use pf_base::{Cost, PathError};
use std::alloc::Allocator;
use std::cmp::Reverse;
use std::collections::BinaryHeap;

/// A step by the number at which it begins and what it costs.
#[derive(Drop)]
struct StepBack<C> {
    from: usize,
    price: C,
    /// Where the step that was put in before it, to the same number, stands: the place behind it, or 0
    /// where there is none.
    before: usize,
}

/// The steps of a graph by the numbers at which they end, in one block.
#[derive(Drop)]
struct StepsBack<C: Cost, A: Allocator> {
    steps: Vec<StepBack<C>, A>,
    /// The place behind the last step to each number, or 0 where there is none.
    last: Vec<usize, A>,
}

impl<C: Cost, A: Allocator> StepsBack<C, A> {
    /// Puts in the steps of a row, which begin at a number.
    fn put(&mut self, number: usize, row: &[(usize, C)]) -> Result<(), PathError>
        ensures refused { IfErr result (λ e. e ≡ PathError.OutOfMemory) }
    {
        'steps: for (next, price) in row {
            if *next < self.last.len() {
                self.steps.push(StepBack {
                    from: number,
                    price: *price,
                    before: self.last[*next],
                })?;
                self.last[*next] = self.steps.len();
            }
        }
        Ok(())
    }
}

/// The steps of a known graph by the numbers at which they end.
fn steps_back<C: Cost, A: Allocator + Copy>(
    alloc: A,
    adjacency: &Adjacency<C, A>,
) -> Result<StepsBack<C, A>, PathError>
    ensures refused { IfErr result (λ e. e ≡ PathError.OutOfMemory) }
{
    let mut back = StepsBack {
        steps: Vec::new(alloc),
        last: Vec::new(alloc),
    };
    back.last.resize(adjacency.len(), 0)?;
    'numbers: for number in 0..adjacency.len() {
        back.put(number, adjacency.row(number))?;
    }
    Ok(back)
}

/// The least cost that was found so far from each number to a goal, and the numbers that wait.
#[derive(Drop)]
struct Backward<C: Cost, A: Allocator> {
    costs: Vec<Option<C>, A>,
    waiting: BinaryHeap<Reverse<(C, usize)>, A>,
}

impl<C: Cost, A: Allocator> Backward<C, A> {
    /// Notes a cost from a number to a goal, where it is the least so far.
    fn note(&mut self, number: usize, cost: C) -> Result<(), PathError>
        ensures wide { length self.new.costs.items ≡ length self.old.costs.items }
        ensures refused { IfErr result (λ e. e ≡ PathError.OutOfMemory) }
    {
        if number >= self.costs.len() {
            return Ok(());
        }
        if let Some(known) = self.costs[number] {
            if !(cost < known) {
                return Ok(());
            }
        }
        self.waiting.push(Reverse((cost, number)))?;
        self.costs[number] = Some(cost);
        Ok(())
    }

    /// Goes back by the steps to a number from which a goal costs so much. The answer is whether all
    /// sums fit.
    fn go_back(&mut self, back: &StepsBack<C, A>, number: usize, cost: C) -> Result<bool, PathError>
        ensures wide { length self.new.costs.items ≡ length self.old.costs.items }
        ensures refused { IfErr result (λ e. e ≡ PathError.OutOfMemory) }
    {
        let mut place = match back.last.get(number) {
            Some(place) => *place,
            None => 0,
        };
        'steps: for _ in 0..back.steps.len() {
            if place == 0 || place > back.steps.len() {
                break;
            }
            let step = &back.steps[place - 1];
            let Some(sum) = step.price.checked_add(&cost) else {
                return Ok(false);
            };
            self.note(step.from, sum)?;
            place = step.before;
        }
        Ok(true)
    }
}

/// A search in which each goal waits, at no cost.
fn at_goals<C: Cost, A: Allocator + Copy>(
    alloc: A,
    adjacency: &Adjacency<C, A>,
) -> Result<Backward<C, A>, PathError>
    ensures wide { IfOk result (λ search. length search.costs.items ≡ length adjacency.now.rows) }
    ensures refused { IfErr result (λ e. e ≡ PathError.OutOfMemory) }
{
    let mut search = Backward {
        costs: Vec::new(alloc),
        waiting: BinaryHeap::new(alloc),
    };
    search.costs.resize(adjacency.len(), None)?;
    'numbers: for number in 0..adjacency.len() {
        if adjacency.is_goal(number) {
            search.note(number, C::zero())?;
        }
    }
    Ok(search)
}

/// What it costs from each number to a goal, as a search backwards finds it, or `None` where some sum
/// does not fit. An entry that costs more than was found since is stale.
pub fn costs_to_goals<C: Cost, A: Allocator + Copy>(
    alloc: A,
    adjacency: &Adjacency<C, A>,
) -> Result<Option<Vec<Option<C>, A>>, PathError>
    ensures wide { IfOk result (λ found. IfSome found (λ costs. length costs.items ≡ length adjacency.now.rows)) }
    ensures refused { IfErr result (λ e. e ≡ PathError.OutOfMemory) }
{
    let back = steps_back(alloc, adjacency)?;
    let mut search = at_goals(alloc, adjacency)?;
    'entries: for _ in 0..usize::MAX {
        let Some(Reverse((cost, number))) = search.waiting.pop() else {
            break;
        };
        if !is_stale(&search.costs, number, cost) && !search.go_back(&back, number, cost)? {
            return Ok(None);
        }
    }
    Ok(Some(search.costs))
}

/// Was a lesser cost found for the number?
fn is_stale<C: Cost>(costs: &[Option<C>], number: usize, cost: C) -> bool {
    match costs.get(number) {
        Some(Some(known)) => *known < cost,
        _ => false,
    }
}
