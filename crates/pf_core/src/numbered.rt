//! Graphs whose nodes are numbered in the order in which they are found.

ghost use Rattle.std.specs.Prelude.{◌≡◌, ◌<◌, ◌≤◌, ℕ, ℤ, List, Bool, OnOk, IfErr, Contains};
ghost use Rattle.std.specs.List.{AllZip};
ghost use Rattle.pf_core.specs.Numbered.{ListsSteps, Grows, NumbersInOrder};

use crate::row::Row;
use pf_base::{Cost, PathError};

/// A graph that is asked node by node. A number stands for a node, and stays with it.
pub trait NumberedGraph<C: Cost> {
    // What the numbers stand for.
    ghost Node: { Type 0 };

    // What may be explored.
    ghost Graph: { Type 0 };

    // A step of a graph, from a node to a node, at a cost.
    ghost step: { Graph → Node → ℤ → Node → Type 0 };

    // The nodes that follow a node, in the order in which they are answered.
    ghost successors: { Graph → Node → List Node };

    // Whether a node is a goal, where the graph has goals.
    ghost passes: { Graph → Node → Bool };

    // How many nodes were found.
    ghost node_count: { Self → ℕ };

    // The number k stands for the node x.
    ghost stands: { Self → ℕ → Node → Type 0 };

    // This graph is the one that is explored, now and after any calls.
    ghost explores: { Self → Graph → Type 0 };

    // The numbers from k on can be taken out again.
    ghost can_forget: { Self → ℕ → Type 0 };

    /// The number of nodes that were found.
    fn node_count(&self) -> usize
        ensures { result ≡ node_count self.now };

    /// Numbers the ends of the steps from a node, and fills `row` with the steps. Where memory is
    /// refused, the nodes stay as they were.
    fn expand<R: Row<C>>(&mut self, node: usize, row: &mut R) -> Result<(), PathError>
        requires inside { node < node_count self.old }
        requires graph { (g : Graph) × explores self.old g }
        ensures grows { Grows (node_count self.old) (node_count self.new) (stands self.old) (stands self.new) }
        ensures back { can_forget self.new (node_count self.old) }
        ensures graph { (g : Graph) → explores self.old g → explores self.new g }
        ensures listed { OnOk result ((entries : List (ℕ × C)) × R.holds row.new entries
            × ((j : ℕ) (c : C) → Contains entries (j, c) → j < node_count self.new)
            × ((j : ℕ) → node_count self.old ≤ j → j < node_count self.new → (c : C) × Contains entries (j, c))
            × ((g : Graph) → explores self.old g → (x : Node) → stands self.old node x → ListsSteps C.value (step g) (stands self.new) x entries)) }
        ensures placed { OnOk result ((entries : List (ℕ × C)) × R.holds row.new entries
            × ((g : Graph) → explores self.old g → (x : Node) → stands self.old node x → AllZip (λ (r : ℕ × C) (y : Node). stands self.new r.0 y) entries (successors g x))) }
        ensures ordered { OnOk result ((g : Graph) → explores self.old g → (x : Node) → stands self.old node x → NumbersInOrder (stands self.new) (node_count self.old) (successors g x) (node_count self.new)) }
        ensures refused { IfErr result (λ e. (e ≡ PathError.OutOfMemory) × (node_count self.new ≡ node_count self.old)) };

    /// Takes the numbers from `first` on out again.
    fn forget(&mut self, first: usize)
        requires { can_forget self.old first }
        ensures left { node_count self.new ≡ first }
        ensures shrinks { Grows (node_count self.new) (node_count self.old) (stands self.new) (stands self.old) }
        ensures graph { (g : Graph) → explores self.old g → explores self.new g };

    // A number that stands for a node is one of those that were found.
    ghost inside_law: { (s : Self) (k : ℕ) (x : Node) → stands s k x → k < node_count s };

    // No two numbers stand for one node.
    ghost one_law: { (s : Self) (g : Graph) → explores s g → (i j : ℕ) (x : Node) → stands s i x → stands s j x → i ≡ j };
}

/// A graph some of whose nodes are goals.
pub trait GoalGraph<C: Cost>: NumberedGraph<C> {
    /// Is the node a goal?
    fn is_goal(&mut self, node: usize) -> bool
        requires inside { node < Self.node_count self.old }
        requires graph { (g : Self.Graph) × Self.explores self.old g }
        ensures grows { Grows (Self.node_count self.old) (Self.node_count self.new) (Self.stands self.old) (Self.stands self.new) }
        ensures same { Self.node_count self.new ≡ Self.node_count self.old }
        ensures graph { (g : Self.Graph) → Self.explores self.old g → Self.explores self.new g
            × ((x : Self.Node) → Self.stands self.old node x → result ≡ Self.passes g x) };
}
