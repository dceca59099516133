//! Numbers in topological order (depth-first search).

ghost use Rattle.std.specs.Prelude.{◌≡◌, ◌<◌, ◌≤◌, ◌+◌, ◌-◌, ◌++◌, ◌∷◌, [], ℕ, List, Contains, IfOk, IfErr, IfSome, IfNone, OnOk, length, slice_set, replicate, reverse};
ghost use Rattle.std.specs.List.{AllZip};
ghost use Rattle.pf_core.specs.Numbered.{Grows};
ghost use Rattle.pf_orders.specs.Internal.Orderings.{entries, IsBegun, IsOrderedReach, IsOnNumberedCycle};

use pf_base::{PathError, Tally};
use pf_core::numbered::NumberedGraph;
use std::alloc::Allocator;

/// What the walk does with a number.
#[derive(Copy, Clone)]
pub enum Turn {
    /// Enters it, where that was not done yet.
    Enter(usize),
    /// Leaves it: all its successors were left.
    Leave(usize),
}

/// How far the walk has come with a number.
#[derive(Copy, Clone)]
pub enum Mark {
    /// It was not entered.
    New,
    /// It was entered and not left: it leads to each number that is entered now.
    Open,
    /// It was left.
    Done,
}

/// Where the walk stands.
#[derive(Drop)]
pub struct Sorting<A: Allocator> {
    /// How far it has come with each number.
    pub marks: Vec<Mark, A>,
    /// What it does from here on, the next turn last.
    pub turns: Vec<Turn, A>,
    /// The numbers that were left, in order.
    pub left: Vec<usize, A>,
    /// Room for an answer.
    pub row: Vec<usize, A>,
}

/// Puts a turn that enters each number at the end.
fn put_entries<A: Allocator>(turns: &mut Vec<Turn, A>, numbers: &[usize]) -> Result<(), PathError>
    ensures put { OnOk result (turns.new.items ≡ turns.old.items ++ entries numbers.now) }
    ensures refused { IfErr result (λ e. e ≡ PathError.OutOfMemory) }
{
    turns.reserve(numbers.len())?;
    'numbers: for number in numbers {
        turns.push(Turn::Enter(*number))?;
    }
    Ok(())
}

impl<A: Allocator + Copy> Sorting<A> {
    /// A walk that has entered none of these first numbers, and will enter them in order.
    fn begin(alloc: A, found: usize) -> Result<Sorting<A>, PathError>
        ensures begun { IfOk result (IsBegun found) }
        ensures refused { IfErr result (λ e. e ≡ PathError.OutOfMemory) }
    {
        let mut marks = Vec::new(alloc);
        marks.resize(found, Mark::New)?;
        let mut turns = Vec::with_capacity(alloc, found)?;
        'roots: for root in 0..found {
            turns.push(Turn::Enter(root))?;
        }
        turns.reverse();
        Ok(Sorting {
            marks,
            turns,
            left: Vec::new(alloc),
            row: Vec::new(alloc),
        })
    }
}

impl<A: Allocator> Sorting<A> {
    /// Enters a number: its successors are asked for, and the walk leaves it once it has left these.
    fn enter<G: NumberedGraph<u8>>(&mut self, graph: &mut G, number: usize) -> Result<(), PathError>
        requires inside { number < G.node_count graph.old }
        requires graph { (g : G.Graph) × G.explores graph.old g }
        requires marked { length self.old.marks.items ≡ G.node_count graph.old }
        ensures grows { Grows (G.node_count graph.old) (G.node_count graph.new) (G.stands graph.old) (G.stands graph.new) }
        ensures graph { (g : G.Graph) → G.explores graph.old g → G.explores graph.new g }
        ensures marks { OnOk result (self.new.marks.items ≡ slice_set self.old.marks.items number Mark.Open ++ replicate (G.node_count graph.new - length self.old.marks.items) Mark.New) }
        ensures left { OnOk result (self.new.left.items ≡ self.old.left.items) }
        ensures turns { OnOk result ((numbers : List ℕ) × (self.new.turns.items ≡ self.old.turns.items ++ Turn.Leave number ∷ entries (reverse numbers))
            × ((k : ℕ) → Contains numbers k → k < G.node_count graph.new)
            × ((g : G.Graph) → G.explores graph.old g → (x : G.Node) → G.stands graph.old number x → AllZip (G.stands graph.new) numbers (G.successors g x))) }
        ensures refused { IfErr result (λ e. e ≡ PathError.OutOfMemory) }
    {
        graph.expand(number, &mut self.row)?;
        self.marks[number] = Mark::Open;
        self.marks.resize(graph.node_count(), Mark::New)?;
        self.turns.push(Turn::Leave(number))?;
        self.row.reverse();
        put_entries(&mut self.turns, &self.row)
    }

    /// Leaves a number.
    fn leave(&mut self, number: usize) -> Result<(), PathError>
        requires inside { number < length self.old.marks.items }
        ensures marks { OnOk result (self.new.marks.items ≡ slice_set self.old.marks.items number Mark.Done) }
        ensures left { OnOk result (self.new.left.items ≡ self.old.left.items ++ number ∷ []) }
        ensures turns { self.new.turns.items ≡ self.old.turns.items }
        ensures refused { IfErr result (λ e. e ≡ PathError.OutOfMemory) }
    {
        self.marks[number] = Mark::Done;
        self.left.push(number)?;
        Ok(())
    }

    /// Takes turn after turn, from the beginning to the end, or to a number on a cycle, which it
    /// answers. Each node that is expanded is one tick.
    fn walk_on<G: NumberedGraph<u8>>(
        &mut self,
        graph: &mut G,
        tally: &mut Tally,
    ) -> Result<Option<usize>, PathError>
        requires graph { (g : G.Graph) × G.explores graph.old g }
        requires begun { IsBegun (G.node_count graph.old) self.old }
        ensures grows { Grows (G.node_count graph.old) (G.node_count graph.new) (G.stands graph.old) (G.stands graph.new) }
        ensures graph { (g : G.Graph) → G.explores graph.old g → G.explores graph.new g }
        ensures order { (g : G.Graph) → G.explores graph.old g
            → IfOk result (λ answer. IfNone answer (IsOrderedReach (G.successors g) (G.stands graph.new) (G.node_count graph.old) (G.node_count graph.new) (reverse self.new.left.items))) }
        ensures cycle { (g : G.Graph) → G.explores graph.old g
            → IfOk result (λ answer. IfSome answer (λ number. (number < G.node_count graph.new) × IsOnNumberedCycle (G.successors g) (G.stands graph.new) number)) }
        ensures ticked { tally.old ≤ tally.new }
        ensures asked { tally.new ≤ tally.old + G.node_count graph.new }
        ensures refused { IfErr result (λ e. e ≡ PathError.OutOfMemory) }
    {
        'turns: while let Some(turn) = self.turns.pop() {
            match turn {
                Turn::Enter(number) => match self.marks[number] {
                    Mark::New => {
                        tally.tick();
                        self.enter(graph, number)?;
                    }
                    Mark::Open => return Ok(Some(number)),
                    Mark::Done => {}
                },
                Turn::Leave(number) => self.leave(number)?,
            }
        }
        Ok(None)
    }

    /// The numbers that were left, the last one first.
    fn into_order(mut self) -> Vec<usize, A>
        ensures { result.items ≡ reverse self.left.items }
    {
        self.left.reverse();
        self.left
    }
}

/// The numbers of all nodes in reach of those found before, each once, so that each step leads
/// forward; or, in `Err`, the number of a node on a cycle. Each node that is expanded is one tick.
pub fn sort_numbers<G: NumberedGraph<u8>, A: Allocator + Copy>(
    alloc: A,
    graph: &mut G,
    tally: &mut Tally,
) -> Result<Result<Vec<usize, A>, usize>, PathError>
    requires graph { (g : G.Graph) × G.explores graph.old g }
    ensures grows { Grows (G.node_count graph.old) (G.node_count graph.new) (G.stands graph.old) (G.stands graph.new) }
    ensures graph { (g : G.Graph) → G.explores graph.old g → G.explores graph.new g }
    ensures order { (g : G.Graph) → G.explores graph.old g
        → IfOk result (λ answer. IfOk answer (λ order. IsOrderedReach (G.successors g) (G.stands graph.new) (G.node_count graph.old) (G.node_count graph.new) order.items)) }
    ensures cycle { IfOk result (λ answer. IfErr answer (λ number. number < G.node_count graph.new)) }
    ensures on_cycle { (g : G.Graph) → G.explores graph.old g
        → IfOk result (λ answer. IfErr answer (λ number. IsOnNumberedCycle (G.successors g) (G.stands graph.new) number)) }
    ensures ticked { tally.old ≤ tally.new }
    ensures asked { tally.new ≤ tally.old + G.node_count graph.new }
    ensures errors { IfErr result (λ e. e ≡ PathError.OutOfMemory) }
{
    let mut walk = Sorting::begin(alloc, graph.node_count())?;
    let cycle = walk.walk_on(graph, tally);
    let order = walk.into_order();
    match cycle? {
        Some(number) => Ok(Err(number)),
        None => Ok(Ok(order)),
    }
}
