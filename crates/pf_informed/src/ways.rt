//! Ways back from goals to number 0, one at a time.

ghost use Rattle.std.specs.Prelude.{◌≡◌, ◌≢◌, ◌<◌, ◌≤◌, ◌+◌, ◌-◌, ◌++◌, ◌∷◌, [], ℕ, List, Some, Ok, false, OnOk, OnErr, IfOk, IfErr, MatchBool, MatchOption, length, nat_eq, reverse, slice_get, slice_set, take, vec_capacity};
ghost use Rattle.pf_base.specs.Walks.{HasNode};
ghost use Rattle.pf_informed.specs.declared.branch.Branch.{Branch};
ghost use Rattle.pf_informed.specs.Internal.Branches.{branches_at};
ghost use Rattle.pf_informed.specs.Internal.Chains.{before_in};
ghost use Rattle.pf_informed.specs.Internal.Ways.{AreWays, AreWaysIn, IsWhole, is_in, ways_left, ways_to_any};

use crate::branch::Branch;
use crate::predecessors::Predecessors;
use pf_base::PathError;
use std::alloc::Allocator;

/// Where a walk through all ways stands that lead from number 0 to a goal, each number on a way one
/// of those before the next, and none twice. Ways are found from their goals on.
#[derive(Clone, Drop)]
pub(crate) struct Ways<A: Allocator> {
    /// The numbers before each number.
    pub before: Predecessors<A>,
    /// The way so far, from a goal on.
    pub way: Vec<usize, A>,
    /// Where each number stands on the way, if it does.
    pub places: Vec<usize, A>,
    /// The numbers to try, each with how many numbers of the way it comes behind; the next one last.
    pub waiting: Vec<Branch, A>,
}

/// Puts a branch to each number at the end, where there is room for them.
fn put_branches<A: Allocator>(waiting: &mut Vec<Branch, A>, numbers: &[usize], depth: usize)
    requires room { length waiting.old.items + length numbers.now ≤ vec_capacity waiting.old }
    ensures { waiting.new.items ≡ waiting.old.items ++ branches_at depth numbers.now }
{
    'numbers: for number in numbers {
        let branch = Branch {
            number: *number,
            depth,
        };
        if waiting.push(branch).is_err() {
            unreachable!();
        }
    }
}

impl<A: Allocator + Copy> Ways<A> {
    /// All ways to these goals, none of which was found yet.
    pub fn new(alloc: A, before: Predecessors<A>, goals: &[usize]) -> Result<Ways<A>, PathError>
        requires below { (k j : ℕ) → HasNode nat_eq (before_in before k) j → j < length before }
        requires goals { (j : ℕ) → HasNode nat_eq goals.now j → j < length before }
        ensures before { IfOk result (λ ways. ways.before ≡ before) }
        ensures ways { IfOk result (λ ways. AreWays (length before) (before_in before) ways.way.items ways.places.items ways.waiting.items) }
        ensures left { IfOk result (λ ways. ways_left (before_in before) (length before) ways.way.items ways.waiting.items ≡ ways_to_any before goals.now) }
        ensures refused { IfErr result (λ e. e ≡ PathError.OutOfMemory) }
    {
        let mut places = Vec::new(alloc);
        places.resize(before.len(), 0)?;
        let mut waiting = Vec::with_capacity(alloc, goals.len())?;
        put_branches(&mut waiting, goals, 0);
        Ok(Ways {
            before,
            way: Vec::new(alloc),
            places,
            waiting,
        })
    }

    /// Is the number of the branch on the part of the way that the branch comes behind?
    fn is_on_way(&self, branch: Branch) -> bool
        requires inside { branch.number < length self.now.places.items }
        requires depth { branch.depth ≤ length self.now.way.items }
        requires placed { (i k : ℕ) → slice_get self.now.way.items i ≡ Some k → slice_get self.now.places.items k ≡ Some i }
        ensures { result ≡ is_in (reverse (take branch.depth self.now.way.items)) branch.number }
    {
        let place = self.places[branch.number];
        place < branch.depth && self.way[place] == branch.number
    }

    /// Goes on to the number of a branch. Where memory is refused, all stays.
    fn enter(&mut self, branch: Branch) -> Result<(), PathError>
        requires inside { branch.number < length self.old.places.items }
        ensures before { self.new.before ≡ self.old.before }
        ensures waiting { self.new.waiting.items ≡ self.old.waiting.items }
        ensures way { OnOk result (self.new.way.items ≡ take branch.depth self.old.way.items ++ branch.number ∷ []) }
        ensures places { OnOk result (self.new.places.items ≡ slice_set self.old.places.items branch.number branch.depth) }
        ensures stays { OnErr result ((self.new.way.items ≡ self.old.way.items) × (self.new.places.items ≡ self.old.places.items)) }
        ensures refused { IfErr result (λ e. e ≡ PathError.OutOfMemory) }
    {
        self.way.reserve(1)?;
        self.places[branch.number] = branch.depth;
        self.way.truncate(branch.depth);
        self.way.push(branch.number)?;
        Ok(())
    }

    /// Puts the numbers before that of the last branch in its place. Where memory is refused, all stays.
    fn open(&mut self, branch: Branch) -> Result<(), PathError>
        requires last { (rest : List Branch) × (self.old.waiting.items ≡ rest ++ branch ∷ []) }
        requires inside { branch.number < length self.old.before }
        requires few { branch.depth < length self.old.way.items }
        ensures before { self.new.before ≡ self.old.before }
        ensures way { self.new.way.items ≡ self.old.way.items }
        ensures places { self.new.places.items ≡ self.old.places.items }
        ensures waiting { OnOk result ((rest : List Branch) → self.old.waiting.items ≡ rest ++ branch ∷ []
            → self.new.waiting.items ≡ rest ++ branches_at (branch.depth + 1) (before_in self.old.before branch.number)) }
        ensures stays { OnErr result (self.new.waiting.items ≡ self.old.waiting.items) }
        ensures refused { IfErr result (λ e. e ≡ PathError.OutOfMemory) }
    {
        self.waiting.pop();
        let put = self
            .before
            .put_branches(branch.number, branch.depth + 1, &mut self.waiting);
        if put.is_err() && self.waiting.push(branch).is_err() {
            unreachable!();
        }
        put
    }

    /// The branch that waits last.
    fn last_branch(&self) -> Option<Branch>
        ensures { MatchOption result (self.now.waiting.items ≡ []) (λ b. (rest : List Branch) × (self.now.waiting.items ≡ rest ++ b ∷ [])) }
    {
        self.waiting.last().copied()
    }

    /// Takes the last branch out.
    pub fn drop_branch(&mut self)
        ensures before { self.new.before ≡ self.old.before }
        ensures way { self.new.way.items ≡ self.old.way.items }
        ensures places { self.new.places.items ≡ self.old.places.items }
        ensures waiting { (rest : List Branch) (last : Branch) → self.old.waiting.items ≡ rest ++ last ∷ [] → self.new.waiting.items ≡ rest }
    {
        self.waiting.pop();
    }

    /// Moves on to the next whole way, whose last branch waits still: `false` where none is left. Where
    /// memory is refused, the same ways are left.
    pub fn find(&mut self) -> Result<bool, PathError>
        requires { AreWaysIn self.old }
        ensures before { self.new.before ≡ self.old.before }
        ensures kept { AreWays (length self.old.before) (before_in self.old.before) self.new.way.items self.new.places.items self.new.waiting.items }
        ensures left { ways_left (before_in self.old.before) (length self.old.before) self.new.way.items self.new.waiting.items
            ≡ ways_left (before_in self.old.before) (length self.old.before) self.old.way.items self.old.waiting.items }
        ensures whole { IfOk result (λ found. MatchBool found
            (IsWhole (before_in self.old.before) (length self.old.before) self.new.way.items self.new.waiting.items)
            (self.new.waiting.items ≡ [])) }
        ensures idle { self.old.waiting.items ≡ [] → result ≡ Ok false }
        ensures waits { OnErr result (self.new.waiting.items ≢ []) }
        ensures refused { IfErr result (λ e. e ≡ PathError.OutOfMemory) }
    {
        'branches: while let Some(branch) = self.last_branch() {
            if self.is_on_way(branch) {
                self.drop_branch();
            } else {
                self.enter(branch)?;
                if branch.number == 0 {
                    return Ok(true);
                }
                self.open(branch)?;
            }
        }
        Ok(false)
    }
}
