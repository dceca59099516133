//! The nodes of a table that were found, numbered in the order in which they are found.

ghost use Rattle.std.specs.Prelude.{◌≡◌, ◌<◌, ◌≤◌, ℕ, [], ◌∷◌, List, IfOk, IfErr, length, take, nat_eq};
ghost use Rattle.std.specs.List.{IsDistinct};
ghost use Rattle.pf_core.specs.Nodes.{StandsFor, AddsNode};
ghost use Rattle.pf_table_breadth.specs.Internal.Numbering.{IsIndex};

use pf_base::PathError;
use std::alloc::Allocator;

/// Nodes in the order in which they were found, and for each node one more than its number, or 0.
#[derive(Drop)]
pub struct Numbering<A: Allocator> {
    pub order: Vec<usize, A>,
    pub numbers: Vec<usize, A>,
}

impl<A: Allocator + Copy> Numbering<A> {
    /// One of `size` nodes has the number 0.
    pub fn of_one(alloc: A, size: usize, node: usize) -> Result<Self, PathError>
        requires { node < size }
        ensures one { IfOk result (λ s. s.order.items ≡ node ∷ []) }
        ensures index { IfOk result (λ s. IsIndex s.order.items s.numbers.items) }
        ensures wide { IfOk result (λ s. length s.numbers.items ≡ size) }
        ensures refused { IfErr result (λ e. e ≡ PathError.OutOfMemory) }
    {
        let mut order = Vec::new(alloc);
        order.push(node)?;
        let mut numbers = Vec::from_elem(alloc, 0, size)?;
        numbers[node] = 1;
        Ok(Numbering { order, numbers })
    }

    /// The number of a node; a node without one gets the next.
    pub fn number_of(&mut self, node: usize) -> Result<usize, PathError>
        requires index { IsIndex self.old.order.items self.old.numbers.items }
        requires inside { node < length self.old.numbers.items }
        ensures index { IsIndex self.new.order.items self.new.numbers.items }
        ensures wide { length self.new.numbers.items ≡ length self.old.numbers.items }
        ensures added { AddsNode nat_eq node self.old.order.items self.new.order.items }
        ensures numbered { IfOk result (λ k. StandsFor nat_eq self.new.order.items k node) }
        ensures refused { IfErr result (λ e. e ≡ PathError.OutOfMemory) }
    {
        let known = self.numbers[node];
        if known > 0 {
            return Ok(known - 1);
        }
        self.order.push(node)?;
        self.numbers[node] = self.order.len();
        Ok(self.order.len() - 1)
    }

    /// Takes the numbers from `first` on out again.
    pub fn forget(&mut self, first: usize)
        requires index { IsIndex self.old.order.items self.old.numbers.items }
        requires inside { first ≤ length self.old.order.items }
        ensures index { IsIndex self.new.order.items self.new.numbers.items }
        ensures wide { length self.new.numbers.items ≡ length self.old.numbers.items }
        ensures left { self.new.order.items ≡ take first self.old.order.items }
    {
        'nodes: while self.order.len() > first {
            if let Some(node) = self.order.pop() {
                self.numbers[node] = 0;
            }
        }
    }
}
