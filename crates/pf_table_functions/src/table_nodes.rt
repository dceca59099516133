//! Nodes of a table that are numbered in the order in which a search finds them.

ghost use Rattle.std.specs.Prelude.{◌≡◌, ◌<◌, ◌≤◌, ◌-◌, ◌++◌, [], ◌∷◌, ℕ, List, Some, IfOk, IfErr, IfSome, OnErr, OnOk, MatchOption, length, nat_eq, slice_get, take};
ghost use Rattle.std.specs.List.{AllZip, IsDistinct, position};
ghost use Rattle.pf_base.specs.NodeRefs.{HasSameNodes};
ghost use Rattle.pf_table_functions.specs.Internal.Numbers.{AreNumbersOf};

use pf_base::PathError;
use pf_discovery::numbering::{CloneNumbering, Numbering};
use std::alloc::{AllocError, AllocFailed, Allocator};
use std::marker::Model;

/// How many nodes can have numbers, which are kept in 32 bits.
const MOST_NUMBERED: usize = 0xFFFF_FFFF;

/// The nodes that a search over a table found, in order, and the number of each in a table of its own,
/// so that it is one look. A contract sees the nodes.
///
/// A number that is no node of the table may be found too, as a start. It is looked for among all that
/// were found, which no edge of the table makes necessary.
#[derive(Drop)]
pub struct TableNodes<A: Allocator> {
    size: usize,
    // One more than the number of each node of the table that was found, and 0 at the others; laid out
    // when the first node is found.
    numbers: Vec<u32, A>,
    nodes: Vec<usize, A>,
}

impl<A: Allocator> Model for TableNodes<A> {
    ghost use Rattle.std.specs.Prelude.{List, ℕ};
    ghost use Rattle.std.specs.Coded.{coded_list, coded_ℕ};
    ghost use Rattle.pf_table_functions.specs.Internal.Numbers.{AreNumbersOf};

    ghost Value = { List ℕ };

    ghost coded = { coded_list coded_ℕ };

    ghost view = { λ s. s.nodes.items };

    ghost invariant = { λ s. AreNumbersOf s.size s.numbers.items s.nodes.items };
}

impl<A: Allocator + Clone> Clone for TableNodes<A> {
    ghost is_clone = { AllZip (λ x y. y ≡ x) };

    fn clone(&self) -> Result<Self, AllocError> {
        let numbers = self.numbers.clone()?;
        let nodes = self.nodes.clone()?;
        Ok(TableNodes {
            size: self.size,
            numbers,
            nodes,
        })
    }
}

impl<A: Allocator + Copy> TableNodes<A> {
    /// No node of a table with so many. This takes no memory.
    pub fn new(alloc: A, size: usize) -> Self
        ensures { result ≡ [] }
    {
        TableNodes {
            size,
            numbers: Vec::new(alloc),
            nodes: Vec::new(alloc),
        }
    }

    /// A node of a table with so many, or a number that is none, which was found first.
    pub fn begin(alloc: A, size: usize, start: usize) -> Result<Self, PathError>
        ensures one { IfOk result (λ nodes. nodes ≡ start ∷ []) }
        ensures refused { IfErr result (λ e. e ≡ PathError.OutOfMemory) }
    {
        let mut nodes = TableNodes::new(alloc, size);
        nodes.add(start)?;
        Ok(nodes)
    }
}

/// Lays out a number for each node of a table with so many, unless that was done. Whatever this answers,
/// no node has another number after it.
fn lay_out<A: Allocator>(numbers: &mut Vec<u32, A>, size: usize) -> Result<(), PathError>
    ensures wide { OnOk result (size ≤ length numbers.new.items) }
    ensures same { (nodes : List ℕ) → AreNumbersOf size numbers.old.items nodes → AreNumbersOf size numbers.new.items nodes }
    ensures refused { IfErr result (λ e. e ≡ PathError.OutOfMemory) }
{
    if numbers.len() < size {
        numbers.resize(size, 0u32)?;
    }
    Ok(())
}

/// The place of a node among those that were found.
fn place_of(nodes: &[usize], node: usize) -> Option<usize>
    ensures { result ≡ position (λ other. nat_eq other node) nodes.now }
{
    nodes.iter().position(|other| *other == node)
}

impl<A: Allocator> TableNodes<A> {
    /// The number of a node, if it was found.
    #[inline]
    fn known(&self, node: usize) -> Option<usize>
        ensures { MatchOption result ((k : ℕ) → ¬ (slice_get self.now k ≡ Some node)) (λ k. slice_get self.now k ≡ Some node) }
    {
        if node >= self.numbers.len() {
            return place_of(&self.nodes, node);
        }
        let number = self.numbers[node] as usize;
        if number > 0 { Some(number - 1) } else { None }
    }

    /// Gives the next number to a node that has none. Where memory is refused, all stays.
    #[inline(never)]
    fn add(&mut self, node: usize) -> Result<usize, PathError>
        requires { (k : ℕ) → ¬ (slice_get self.old k ≡ Some node) }
        ensures added { OnOk result (self.new ≡ self.old ++ node ∷ []) }
        ensures number { IfOk result (λ k. k ≡ length self.old) }
        ensures stays { OnErr result (self.new ≡ self.old) }
        ensures refused { IfErr result (λ e. e ≡ PathError.OutOfMemory) }
    {
        let number = self.nodes.len();
        if number >= MOST_NUMBERED {
            return Err(PathError::OutOfMemory);
        }
        lay_out(&mut self.numbers, self.size)?;
        self.nodes.push(node)?;
        if node < self.numbers.len() {
            self.numbers[node] = number as u32 + 1;
        }
        Ok(number)
    }

    /// Takes the number of the node that was found last back.
    fn take_last(&mut self)
        requires { 0 < length self.old }
        ensures { self.new ≡ take (length self.old - 1) self.old }
    {
        if let Some(node) = self.nodes.pop() {
            if node < self.numbers.len() {
                self.numbers[node] = 0;
            }
        }
    }
}

/// These nodes of a table with `size` nodes, each once, or `None` where one of them is no node of it.
pub fn table_nodes_of<A: Allocator + Copy>(
    alloc: A,
    size: usize,
    nodes: &[usize],
) -> Result<Option<TableNodes<A>>, PathError>
    ensures same { IfOk result (λ found. IfSome found (λ keys. HasSameNodes nat_eq keys nodes.now)) }
    ensures distinct { IfOk result (λ found. IfSome found (λ keys. IsDistinct nat_eq keys)) }
    ensures refused { IfErr result (λ e. e ≡ PathError.OutOfMemory) }
{
    let mut found = TableNodes::new(alloc, size);
    'nodes: for node in nodes {
        if *node >= size {
            return Ok(None);
        }
        found.number_of(*node)?;
    }
    Ok(Some(found))
}

impl<A: Allocator> Numbering for TableNodes<A> {
    type Node = usize;

    ghost keys = { λ s. s };

    fn len(&self) -> usize {
        self.nodes.len()
    }

    fn as_slice(&self) -> &[usize] {
        self.nodes.as_slice()
    }

    fn get_number_of(&self, node: &usize) -> Option<usize> {
        self.known(*node)
    }

    // A search asks it at each edge.
    #[inline(always)]
    fn number_of(&mut self, node: usize) -> Result<usize, AllocFailed<usize>> {
        match self.known(node) {
            Some(number) => Ok(number),
            None => match self.add(node) {
                Ok(number) => Ok(number),
                Err(_) => Err(AllocFailed { value: node }),
            },
        }
    }

    fn truncate(&mut self, len: usize) {
        while self.nodes.len() > len {
            self.take_last();
        }
    }
}

impl<A: Allocator + Clone> CloneNumbering<usize> for TableNodes<A> {
    ghost clone_law = { λ x y h. h };
}
