//! A depth-first search whose nodes wait by themselves: a node is looked up when it is taken out, so that
//! none is looked up behind the goal.

ghost use Rattle.std.specs.Prelude.{◌≡◌, ◌≤◌, ◌++◌, ◌∷◌, [], ℕ, List, OnOk, IfOk, IfErr, MatchOption, drop, length, reverse, take};
ghost use Rattle.std.specs.Iterator.{IsFiniteIterable, Drains};
ghost use Rattle.std.specs.List.{IsDistinct};
ghost use Rattle.pf_base.specs.Walks.{HasNode};
ghost use Rattle.pf_core.specs.Nodes.{AddsNode, StandsFor};
ghost use Rattle.pf_search.specs.Internal.Descents.{AllHeld, waiting_at};
ghost use Rattle.pf_search.specs.declared.directed.dfs.descent.Waiting.{Waiting};

use pf_base::PathError;
use pf_discovery::numbering::Numbering;
use std::alloc::Allocator;

/// A node that waits, and how many nodes of the path stand in front of it.
#[derive(Drop)]
pub(crate) struct Waiting<N> {
    pub node: N,
    pub depth: u32,
}

/// The nodes that were visited, the numbers of the path to the last of them, and the nodes that wait, the
/// next one last.
#[derive(Drop)]
pub(crate) struct Descent<M: Numbering, A: Allocator> {
    pub visited: M,
    pub path: Vec<u32, A>,
    pub waiting: Vec<Waiting<M::Node>, A>,
}

/// Puts the elements from this place on in reverse order.
fn reverse_from<T>(elements: &mut [T], from: usize)
    requires { from ≤ length elements.old }
    ensures { elements.new ≡ take from elements.old ++ reverse (drop from elements.old) }
{
    elements[from..].reverse();
}

impl<M: Numbering, A: Allocator + Copy> Descent<M, A> {
    /// Nothing was visited, and nothing waits.
    pub fn new(alloc: A, visited: M) -> Self
        ensures visited { result.visited ≡ visited }
        ensures path { result.path.items ≡ [] }
        ensures waiting { result.waiting.items ≡ [] }
    {
        Descent {
            visited,
            path: Vec::new(alloc),
            waiting: Vec::new(alloc),
        }
    }
}

impl<N: Eq + Drop, M: Numbering<Node = N>, A: Allocator> Descent<M, A> {
    /// Puts the start among the nodes that wait.
    pub fn begin(&mut self, start: N) -> Result<(), PathError>
        ensures visited { self.new.visited ≡ self.old.visited }
        ensures path { self.new.path.items ≡ self.old.path.items }
        ensures waits { OnOk result (self.new.waiting.items ≡ self.old.waiting.items ++ record { node = start; depth = 0 } ∷ []) }
        ensures refused { IfErr result (λ e. e ≡ PathError.OutOfMemory) }
    {
        self.waiting.push(Waiting {
            node: start,
            depth: 0,
        })?;
        Ok(())
    }

    /// Visits a node, and answers its number, or `None` where it was visited before.
    pub fn visit(&mut self, node: N, depth: u32) -> Result<Option<usize>, PathError>
        requires distinct { IsDistinct N.eq (M.keys self.old.visited) }
        ensures added { OnOk result (AddsNode N.eq node (M.keys self.old.visited) (M.keys self.new.visited)) }
        ensures waiting { self.new.waiting.items ≡ self.old.waiting.items }
        ensures visited { IfOk result (λ r. MatchOption r
            (HasNode N.eq (M.keys self.old.visited) node × (M.keys self.new.visited ≡ M.keys self.old.visited) × (self.new.path.items ≡ self.old.path.items))
            (λ k. (k ≡ length (M.keys self.old.visited)) × (M.keys self.new.visited ≡ M.keys self.old.visited ++ node ∷ []) × StandsFor N.eq (M.keys self.new.visited) k node
            × (self.new.path.items ≡ take depth self.old.path.items ++ k ∷ []))) }
        ensures refused { IfErr result (λ e. e ≡ PathError.OutOfMemory) }
    {
        let before = self.visited.len();
        let number = self.visited.number_of(node)?;
        if number < before {
            return Ok(None);
        }
        let Ok(last) = u32::try_from(number) else {
            return Err(PathError::OutOfMemory);
        };
        self.path.truncate(depth as usize);
        self.path.push(last)?;
        Ok(Some(number))
    }

    /// Visits the node that waits next and was not visited, and answers its number. Nodes that wait and
    /// were visited are dropped.
    pub fn enter(&mut self) -> Result<Option<usize>, PathError>
        requires distinct { IsDistinct N.eq (M.keys self.old.visited) }
        ensures entered { IfOk result (λ r. MatchOption r
            (AllHeld N.eq (M.keys self.old.visited) (reverse self.old.waiting.items))
            (λ k. (passed : List (Waiting N)) × (next : Waiting N) × (reverse self.old.waiting.items ≡ passed ++ next ∷ reverse self.new.waiting.items) × AllHeld N.eq (M.keys self.old.visited) passed
            × (k ≡ length (M.keys self.old.visited)) × (M.keys self.new.visited ≡ M.keys self.old.visited ++ next.node ∷ []) × StandsFor N.eq (M.keys self.new.visited) k next.node
            × AddsNode N.eq next.node (M.keys self.old.visited) (M.keys self.new.visited) × (self.new.path.items ≡ take next.depth self.old.path.items ++ k ∷ []))) }
        ensures refused { IfErr result (λ e. e ≡ PathError.OutOfMemory) }
    {
        'waiting: while let Some(next) = self.waiting.pop() {
            if let Some(number) = self.visit(next.node, next.depth)? {
                return Ok(Some(number));
            }
        }
        Ok(None)
    }

    /// How many nodes the path has.
    pub fn depth(&self) -> Result<u32, PathError>
        ensures depth { IfOk result (λ n. n ≡ length self.now.path.items) }
        ensures refused { IfErr result (λ e. e ≡ PathError.OutOfMemory) }
    {
        u32::try_from(self.path.len()).map_err(|_| PathError::OutOfMemory)
    }

    /// Puts nodes, each behind so many of the path, in front of those that wait.
    pub fn put<S: IntoIterator<Item = N>>(&mut self, nodes: S, depth: u32) -> Result<(), PathError>
        requires ends { IsFiniteIterable S.into_iter_gives S.IntoIter.can_next S.IntoIter.remaining nodes }
        ensures visited { self.new.visited ≡ self.old.visited }
        ensures path { self.new.path.items ≡ self.old.path.items }
        ensures put { OnOk result ((it : S.IntoIter) × (xs : List N) × S.into_iter_gives nodes it × Drains S.IntoIter.next_gives it xs
            × (reverse self.new.waiting.items ≡ waiting_at depth xs ++ reverse self.old.waiting.items)) }
        ensures refused { IfErr result (λ e. e ≡ PathError.OutOfMemory) }
    {
        let from = self.waiting.len();
        'nodes: for node in nodes {
            self.waiting.push(Waiting { node, depth })?;
        }
        reverse_from(self.waiting.as_mut_slice(), from);
        Ok(())
    }
}
