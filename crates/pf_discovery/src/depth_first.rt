//! Depth-first walks over numbers, one number at a time.

ghost use Rattle.std.specs.Prelude.{◌≡◌, ◌↔◌, ◌⊎◌, ◌<◌, ◌≤◌, ◌+◌, ◌++◌, ◌∷◌, [], ℕ, Bool, List, Some, None, true, false, OnOk, OnErr, IfErr, MatchOption, length, slice_index_or, take, reverse, map, vec_capacity, Contains, ◌^◌};
ghost use Rattle.std.specs.List.{AllByRecursion, AllZip};
ghost use Rattle.pf_discovery.specs.declared.depth_first.Branch.{Branch};
ghost use Rattle.pf_core.specs.Numbered.{Grows, NumbersInOrder};
ghost use Rattle.pf_discovery.specs.DepthFirst.{IsVisited, IsNextBranch, branches_at, not_visited};

use crate::given::Given;
use pf_base::{Cost, PathError};
use pf_core::numbered::NumberedGraph;
use std::alloc::Allocator;

/// As many nodes as a walk can find, which keeps numbers of 32 bits.
const MOST_FOUND: usize = 0x1_0000_0000;

/// As many numbers as a walk can give.
const MOST_GIVEN: usize = 0xFFFF_FFFF;

/// A way on from the tree path.
#[derive(Copy, Clone)]
pub struct Branch {
    /// The number that it leads to.
    pub number: u32,
    /// How many numbers of the path it comes behind.
    pub depth: u32,
}

/// Where a walk stands that goes on to the first successor not yet visited, from the deepest number
/// that has one.
#[derive(Drop)]
pub struct DepthFirst<A: Allocator> {
    /// The numbers visited so far, in order.
    pub given: Given,
    /// Whether a number was visited; later numbers were not.
    pub visited: Vec<bool, A>,
    /// The numbers from the first one to the one visited last, each a successor of the one before.
    pub path: Vec<u32, A>,
    /// The branches of the path that wait, the next one last.
    pub waiting: Vec<Branch, A>,
    /// Room for an answer.
    pub row: Vec<usize, A>,
}

/// Was the number visited?
fn was_visited(visited: &[bool], number: usize) -> bool
    ensures { result ≡ slice_index_or visited.now number false }
{
    match visited.get(number) {
        Some(visited) => *visited,
        None => false,
    }
}

/// Takes all numbers out, and puts a branch to each that was not visited at the end, the last number
/// first.
fn put_branches<A: Allocator>(
    waiting: &mut Vec<Branch, A>,
    numbers: &mut Vec<usize, A>,
    visited: &[bool],
    depth: u32,
)
    requires ends { (k : ℕ) → Contains numbers.old.items k → k < 2 ^ 32 }
    requires room { length waiting.old.items + length numbers.old.items ≤ vec_capacity waiting.old }
    ensures put { waiting.new.items ≡ waiting.old.items ++ branches_at depth (reverse (not_visited visited.now numbers.old.items)) }
{
    'numbers: while let Some(number) = numbers.pop() {
        if !was_visited(visited, number) {
            waiting.push_reserved(Branch {
                number: number as u32,
                depth,
            });
        }
    }
}

impl<A: Allocator + Copy> DepthFirst<A> {
    /// A walk that has visited nothing.
    pub fn new(alloc: A) -> DepthFirst<A>
        ensures given { result.given ≡ [] }
        ensures visited { result.visited.items ≡ [] }
        ensures path { result.path.items ≡ [] }
        ensures waiting { result.waiting.items ≡ [] }
    {
        DepthFirst {
            given: Given::new(),
            visited: Vec::new(alloc),
            path: Vec::new(alloc),
            waiting: Vec::new(alloc),
            row: Vec::new(alloc),
        }
    }

    /// The branch that waits first, whose number was not visited. Branches to visited numbers are dropped.
    fn waiting_branch(&mut self) -> Option<Branch>
        ensures given { self.new.given ≡ self.old.given }
        ensures visited { self.new.visited.items ≡ self.old.visited.items }
        ensures path { self.new.path.items ≡ self.old.path.items }
        ensures dropped { (passed : List Branch) × (self.old.waiting.items ≡ self.new.waiting.items ++ passed) × AllByRecursion (λ (b : Branch). IsVisited self.old.visited.items b.number) passed }
        ensures next { MatchOption result (self.new.waiting.items ≡ [])
            (λ b. (rest : List Branch) × (self.new.waiting.items ≡ rest ++ b ∷ []) × ¬ (IsVisited self.old.visited.items b.number)) }
    {
        'branches: while let Some(branch) = self.waiting.last() {
            let branch = *branch;
            if !was_visited(&self.visited, branch.number as usize) {
                return Some(branch);
            }
            self.waiting.pop();
        }
        None
    }

    /// The branch to the number that comes next: the first number, where none was visited. Branches to
    /// visited numbers are dropped.
    pub fn next_branch(&mut self) -> Option<Branch>
        ensures given { self.new.given ≡ self.old.given }
        ensures visited { self.new.visited.items ≡ self.old.visited.items }
        ensures path { self.new.path.items ≡ self.old.path.items }
        ensures dropped { (passed : List Branch) × (self.old.waiting.items ≡ self.new.waiting.items ++ passed) × AllByRecursion (λ (b : Branch). IsVisited self.old.visited.items b.number) passed }
        ensures next { MatchOption result ((self.new.waiting.items ≡ []) × ¬ (length self.new.given ≡ 0))
            (λ b. IsNextBranch (length self.new.given) self.new.visited.items self.new.waiting.items b) }
    {
        if self.given.is_empty() {
            return Some(Branch {
                number: 0,
                depth: 0,
            });
        }
        self.waiting_branch()
    }

    /// Visits the number of a branch, whose successors are asked for. Where memory is refused, all is
    /// as it was before.
    pub fn visit<C: Cost, G: NumberedGraph<C>>(
        &mut self,
        graph: &mut G,
        branch: Branch,
    ) -> Result<(), PathError>
        requires inside { branch.number < G.node_count graph.old }
        requires graph { (g : G.Graph) × G.explores graph.old g }
        requires depth { branch.depth ≤ length self.old.path.items }
        ensures grows { Grows (G.node_count graph.old) (G.node_count graph.new) (G.stands graph.old) (G.stands graph.new) }
        ensures graph { (g : G.Graph) → G.explores graph.old g → G.explores graph.new g }
        ensures given { OnOk result (self.new.given ≡ self.old.given ++ branch.number ∷ []) }
        ensures few { OnOk result (length self.new.given < 2 ^ 32) }
        ensures visited { OnOk result ((k : ℕ) → IsVisited self.new.visited.items k ↔ (IsVisited self.old.visited.items k ⊎ (k ≡ branch.number))) }
        ensures path { OnOk result (self.new.path.items ≡ take branch.depth self.old.path.items ++ branch.number ∷ []) }
        ensures waiting { OnOk result ((numbers : List ℕ) × (self.new.waiting.items ≡ self.old.waiting.items ++ branches_at (length self.new.path.items) (reverse (not_visited self.new.visited.items numbers)))
            × ((g : G.Graph) → G.explores graph.old g → (x : G.Node) → G.stands graph.old branch.number x → AllZip (G.stands graph.new) numbers (G.successors g x))) }
        ensures ordered { OnOk result ((g : G.Graph) → G.explores graph.old g → (x : G.Node) → G.stands graph.old branch.number x → NumbersInOrder (G.stands graph.new) (G.node_count graph.old) (G.successors g x) (G.node_count graph.new)) }
        ensures kept { OnErr result ((self.new.given ≡ self.old.given) × (self.new.path.items ≡ self.old.path.items) × (self.new.waiting.items ≡ self.old.waiting.items)
            × ((k : ℕ) → IsVisited self.new.visited.items k ↔ IsVisited self.old.visited.items k) × (G.node_count graph.new ≡ G.node_count graph.old)) }
        ensures refused { IfErr result (λ e. e ≡ PathError.OutOfMemory) }
    {
        let first = graph.node_count();
        graph.expand(branch.number as usize, &mut self.row)?;
        let found = graph.node_count();
        if let Err(refusal) = self.note(branch, found) {
            graph.forget(first);
            return Err(refusal);
        }
        Ok(())
    }

    /// Makes room to note a number, where so many were found. Nothing that was noted changes.
    fn make_room(&mut self, number: usize, found: usize) -> Result<(), PathError>
        requires { number < found }
        ensures given { self.new.given ≡ self.old.given }
        ensures visited { (k : ℕ) → IsVisited self.new.visited.items k ↔ IsVisited self.old.visited.items k }
        ensures path { self.new.path.items ≡ self.old.path.items }
        ensures waiting { self.new.waiting.items ≡ self.old.waiting.items }
        ensures row { self.new.row.items ≡ self.old.row.items }
        ensures few { OnOk result (found ≤ 2 ^ 32) }
        ensures wide { OnOk result (number < length self.new.visited.items) }
        ensures room { OnOk result ((length self.new.given + 1 < 2 ^ 32) × (length self.new.path.items < vec_capacity self.new.path)
            × (length self.new.waiting.items + length self.new.row.items ≤ vec_capacity self.new.waiting)) }
        ensures refused { IfErr result (λ e. e ≡ PathError.OutOfMemory) }
    {
        if found > MOST_FOUND || self.given.len() >= MOST_GIVEN {
            return Err(PathError::OutOfMemory);
        }
        self.path.reserve(1)?;
        self.waiting.reserve(self.row.len())?;
        if self.visited.len() <= number {
            self.visited.resize(number + 1, false)?;
        }
        Ok(())
    }

    /// Notes that the number of a branch was visited, and what follows it.
    fn note(&mut self, branch: Branch, found: usize) -> Result<(), PathError>
        requires inside { branch.number < found }
        requires ends { (k : ℕ) → Contains self.old.row.items k → k < found }
        requires depth { branch.depth ≤ length self.old.path.items }
        ensures given { OnOk result (self.new.given ≡ self.old.given ++ branch.number ∷ []) }
        ensures few { OnOk result (length self.new.given < 2 ^ 32) }
        ensures visited { OnOk result ((k : ℕ) → IsVisited self.new.visited.items k ↔ (IsVisited self.old.visited.items k ⊎ (k ≡ branch.number))) }
        ensures path { OnOk result (self.new.path.items ≡ take branch.depth self.old.path.items ++ branch.number ∷ []) }
        ensures waiting { OnOk result (self.new.waiting.items ≡ self.old.waiting.items ++ branches_at (length self.new.path.items) (reverse (not_visited self.new.visited.items self.old.row.items))) }
        ensures kept { OnErr result ((self.new.given ≡ self.old.given) × (self.new.path.items ≡ self.old.path.items) × (self.new.waiting.items ≡ self.old.waiting.items)
            × ((k : ℕ) → IsVisited self.new.visited.items k ↔ IsVisited self.old.visited.items k)) }
        ensures refused { IfErr result (λ e. e ≡ PathError.OutOfMemory) }
    {
        let Some(depth) = branch.depth.checked_add(1) else {
            return Err(PathError::OutOfMemory);
        };
        let number = branch.number as usize;
        self.make_room(number, found)?;
        self.visited[number] = true;
        put_branches(&mut self.waiting, &mut self.row, &self.visited, depth);
        self.path.truncate(branch.depth as usize);
        self.path.push_reserved(branch.number);
        self.given.push(branch.number);
        Ok(())
    }
}
