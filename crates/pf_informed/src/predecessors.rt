//! The numbers before each number.

ghost use Rattle.std.specs.Prelude.{◌≡◌, ◌⊎◌, ◌<◌, ◌≤◌, ◌++◌, ◌∷◌, [], ℕ, List, OnOk, OnErr, IfOk, IfErr, ⊤, length, slice_set, vec_capacity};
ghost use Rattle.pf_informed.specs.Internal.Branches.{branches_at};
ghost use Rattle.pf_informed.specs.Internal.Chains.{before_in, IsLinked};

use crate::branch::Branch;
use pf_base::PathError;
use std::alloc::{AllocError, Allocator};
use std::marker::Model;

/// A number of a list, and one more than the place of the link behind it, or 0 at the end of the list.
#[derive(Clone, Copy)]
struct Link {
    number: usize,
    next: usize,
}

/// A list of numbers for each number, the one that was put in last first. All lists stand in one block
/// of memory, since there are many and most are short.
#[derive(Drop)]
pub(crate) struct Predecessors<A: Allocator> {
    /// By number, one more than the place of the first link of its list, or 0 where that is empty.
    heads: Vec<usize, A>,
    links: Vec<Link, A>,
}

impl<A: Allocator> Model for Predecessors<A> {
    ghost use Rattle.std.specs.Prelude.{List, ℕ};
    ghost use Rattle.pf_informed.specs.Internal.Chains.{IsChained, lists_at};

    ghost Value = { List (List ℕ) };

    ghost view = { λ s. lists_at s.links.items s.heads.items };

    ghost invariant = { λ s. IsChained s.heads.items s.links.items };
}

impl<A: Allocator + Clone> Clone for Predecessors<A> {
    ghost is_clone = { λ x y. y ≡ x };

    fn clone(&self) -> Result<Self, AllocError> {
        let heads = self.heads.clone()?;
        let links = self.links.clone()?;
        Ok(Predecessors { heads, links })
    }
}

impl<A: Allocator + Copy> Predecessors<A> {
    /// So many empty lists.
    pub fn new(alloc: A, count: usize) -> Result<Self, PathError>
        ensures len { IfOk result (λ lists. length lists ≡ count) }
        ensures empty { IfOk result (λ lists. (j : ℕ) → before_in lists j ≡ []) }
        ensures refused { IfErr result (λ e. e ≡ PathError.OutOfMemory) }
    {
        let mut heads = Vec::new(alloc);
        heads.resize(count, 0)?;
        Ok(Predecessors {
            heads,
            links: Vec::new(alloc),
        })
    }
}

impl<A: Allocator> Predecessors<A> {
    /// The number of lists.
    pub fn len(&self) -> usize
        ensures { result ≡ length self.now }
    {
        self.heads.len()
    }

    /// Puts a number first in the list of `next`, unless it stands there.
    pub fn link(&mut self, next: usize, number: usize) -> Result<(), PathError>
        requires { next < length self.old }
        ensures linked { OnOk result (IsLinked next number self.old self.new) }
        ensures refused { IfErr result (λ e. e ≡ PathError.OutOfMemory) }
    {
        let head = self.heads[next];
        if head > 0 && self.links[head - 1].number == number {
            return Ok(());
        }
        self.links.push(Link { number, next: head })?;
        self.heads[next] = self.links.len();
        Ok(())
    }

    /// Puts a branch to each number in the list of this one at the end. Where memory is refused, the
    /// branches stay.
    pub fn put_branches(
        &self,
        number: usize,
        depth: usize,
        waiting: &mut Vec<Branch, A>,
    ) -> Result<(), PathError>
        requires { number < length self.now }
        ensures put { OnOk result (waiting.new.items ≡ waiting.old.items ++ branches_at depth (before_in self.now number)) }
        ensures stays { OnErr result (waiting.new.items ≡ waiting.old.items) }
        ensures capacity { vec_capacity waiting.old ≤ vec_capacity waiting.new }
        ensures refused { IfErr result (λ e. e ≡ PathError.OutOfMemory) }
    {
        let len = waiting.len();
        let mut place = self.heads[number];
        'links: while place > 0 {
            let link = self.links[place - 1];
            let branch = Branch {
                number: link.number,
                depth,
            };
            if waiting.push(branch).is_err() {
                waiting.truncate(len);
                return Err(PathError::OutOfMemory);
            }
            place = link.next;
        }
        Ok(())
    }
}
