//! Graphs that are searched from both ends.

ghost use Rattle.std.specs.Prelude.{◌≡◌, ◌<◌, ◌≤◌, ◌↔◌, ℕ, ℤ, List, OnOk, IfErr, Contains, MatchOption};
ghost use Rattle.pf_core.specs.Numbered.{ListsSteps, Grows};
ghost use Rattle.pf_two_sided.specs.Internal.Sides.{opposite};

use pf_base::{Cost, PathError};

/// A way on which a graph is searched.
#[derive(Clone, Copy)]
pub enum Side {
    /// From the starts, along the steps.
    Forth,
    /// From the ends, along the steps back.
    Back,
}

/// A graph that is asked node by node from two sides, each of which numbers the nodes that it finds.
pub trait TwoSidedGraph<C: Cost> {
    ghost use Rattle.pf_two_sided.specs.declared.sides.Side.{Side};

    // What the numbers stand for.
    ghost Node: { Type 0 };

    // What may be explored.
    ghost Graph: { Type 0 };

    // A step on one of the ways, from a node to a node, at a cost.
    ghost step: { Graph → Side → Node → ℤ → Node → Type 0 };

    // How many nodes were found on this side.
    ghost node_count: { Self → Side → ℕ };

    // The number k of this side stands for the node x.
    ghost stands: { Self → Side → ℕ → Node → Type 0 };

    // This graph is the one that is explored, now and after any calls.
    ghost explores: { Self → Graph → Type 0 };

    /// The number of nodes that were found on this side.
    fn node_count(&self, side: Side) -> usize
        ensures { result ≡ node_count self.now side };

    /// Numbers the ends of the steps from a node of this side. The numbers of the other side stay as
    /// they are.
    fn expand(&mut self, side: Side, node: usize) -> Result<(), PathError>
        requires inside { node < node_count self.old side }
        requires graph { (g : Graph) × explores self.old g }
        ensures grows { Grows (node_count self.old side) (node_count self.new side) (stands self.old side) (stands self.new side) }
        ensures other { (node_count self.new (opposite side) ≡ node_count self.old (opposite side)) × ((k : ℕ) (x : Node) → stands self.new (opposite side) k x ↔ stands self.old (opposite side) k x) }
        ensures graph { (g : Graph) → explores self.old g → explores self.new g }
        ensures listed { OnOk result ((entries : List (ℕ × C))
            × ((j : ℕ) (c : C) → Contains entries (j, c) → j < node_count self.new side)
            × ((j : ℕ) → node_count self.old side ≤ j → j < node_count self.new side → (c : C) × Contains entries (j, c))
            × ((g : Graph) → explores self.old g → (x : Node) → stands self.old side node x → ListsSteps C.value (step g side) (stands self.new side) x entries)) }
        ensures refused { IfErr result (λ e. e ≡ PathError.OutOfMemory) };

    /// The number that the other side has for a node of this side.
    fn number_across(&self, side: Side, number: usize) -> Option<usize>
        requires inside { number < node_count self.now side }
        ensures across { MatchOption result
            ((x : Node) → stands self.now side number x → (k : ℕ) → ¬ (stands self.now (opposite side) k x))
            (λ k. (k < node_count self.now (opposite side)) × ((x : Node) → stands self.now side number x → stands self.now (opposite side) k x)) };

    // A number that stands for a node is one of those that were found on its side.
    ghost inside_law: { (s : Self) (side : Side) (k : ℕ) (x : Node) → stands s side k x → k < node_count s side };
}
