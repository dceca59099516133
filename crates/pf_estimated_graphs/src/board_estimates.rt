//! Estimates of the cost that remains from each cell of a board to one cell.

ghost use Rattle.std.specs.Prelude.{◌≡◌, ◌+◌, ◌<◌, ◌^◌, ◌==◌, length};
ghost use Rattle.std.specs.Int.{abs_diff};
ghost use Rattle.pf_boards.specs.Boards.{steps_from};
ghost use Rattle.pf_estimated_graphs.specs.EstimatesOnBoards.{IsEstimatedBoard, IsLeastCost, estimate_on_board, steps_between};

use crate::estimated_graph::EstimatedGraph;
use crate::products::capped_product;
use pf_base::Cost;
use pf_base::cost::arithmetic::lesser;
use pf_boards::{Board, Steps};
use pf_tables::{Goals, Graph};
use std::marker::Model;

/// An estimate of the cost that remains from each cell of a board to one cell, the goal: the number of
/// steps that lead there if no cell is blocked, times the least cost of an open cell. It is never above
/// what remains, and needs no test.
///
/// A contract sees the board, its steps, the goal and the least cost.
#[derive(Drop)]
pub struct BoardEstimates<'b, 'a, C: Cost> {
    board: &'b Board<'a, C>,
    steps: Steps,
    goal: usize,
    target: Option<(usize, usize)>,
    least: C,
    // (the cost 0)
    nothing: C,
}

impl<'b, 'a, C: Cost> Model for BoardEstimates<'b, 'a, C> {
    ghost use Rattle.std.specs.Prelude.{◌≡◌, ◌<◌, ◌^◌, pos, length};
    ghost use Rattle.std.specs.Option.{SomeIff};
    ghost use Rattle.pf_boards.specs.Boards.{position_at};
    ghost use Rattle.pf_estimated_graphs.specs.EstimatesOnBoards.{EstimatedBoard, IsEstimatedBoard};

    ghost Value = { EstimatedBoard C };

    ghost view = { λ s. record { board = s.board.now; steps = s.steps; goal = s.goal; least = s.least } };

    ghost invariant = { λ s. IsEstimatedBoard C.value (record { board = s.board.now; steps = s.steps; goal = s.goal; least = s.least }) × SomeIff s.target (s.goal < length s.board.now.cells) (position_at s.board.now s.goal) × (length s.board.now.cells < 2 ^ 64) × (C.value s.nothing ≡ pos 0) };
}

/// The least cost of an open cell, or 0 where none is open.
fn least_cost<C: Cost>(cells: &[Option<C>]) -> C
    ensures { IsLeastCost C.value cells.now result }
{
    let mut least = None;
    for (number, cell) in cells.iter().enumerate() {
        if let Some(cost) = cell {
            least = Some(match least {
                Some(other) => lesser(other, *cost),
                None => *cost,
            });
        }
    }
    match least {
        Some(cost) => cost,
        None => C::zero(),
    }
}

/// How many steps lead from one position to another, if no cell is blocked.
fn count_steps(steps: Steps, from: (usize, usize), to: (usize, usize)) -> usize
    requires { abs_diff from.0 to.0 + abs_diff from.1 to.1 < 2 ^ 64 }
    ensures { result ≡ steps_between steps from to }
{
    let rows = from.0.abs_diff(to.0);
    let columns = from.1.abs_diff(to.1);
    match steps {
        Steps::Four => rows + columns,
        Steps::Eight => rows.max(columns),
    }
}

impl<'b, 'a, C: Cost> BoardEstimates<'b, 'a, C> {
    /// The estimate of the cost that remains from each cell of the board to this node.
    ///
    /// The least cost is found in one pass over the cells. The goal may be any number: where it is no
    /// node of the board, no estimate is above 0.
    pub fn new(board: &'b Board<'a, C>, goal: usize) -> Self
        ensures board { result.board ≡ board.now }
        ensures goal { result.goal ≡ goal }
        ensures estimated { IsEstimatedBoard C.value result }
    {
        BoardEstimates {
            board,
            steps: board.steps(),
            goal,
            target: board.position_of(goal),
            least: least_cost(board.cells()),
            nothing: C::zero(),
        }
    }
}

impl<'b, 'a, C: Cost> Graph<C> for BoardEstimates<'b, 'a, C> {
    ghost size = { λ estimated. length estimated.board.cells };

    ghost places = { λ estimated. steps_from estimated.board };

    fn len(&self) -> usize {
        self.board.len()
    }

    fn places(&self, node: usize) -> usize {
        self.board.places(node)
    }

    fn edge(&self, node: usize, place: usize) -> Option<(usize, C)> {
        self.board.edge(node, place)
    }

    fn known(&self) {
        self.board.known();
    }
}

impl<'b, 'a, C: Cost> Goals for BoardEstimates<'b, 'a, C> {
    ghost passes = { λ estimated node. node == estimated.goal };

    fn is_goal(&self, node: usize) -> bool {
        node == self.goal
    }
}

impl<'b, 'a, C: Cost> EstimatedGraph<C> for BoardEstimates<'b, 'a, C> {
    ghost estimates = { estimate_on_board C.value (C.value C.greatest) };

    fn estimate(&self, node: usize) -> C {
        match (self.board.position_of(node), self.target) {
            (Some(from), Some(to)) => capped_product(
                self.least,
                count_steps(self.steps, from, to),
                self.nothing,
            ),
            _ => C::zero(),
        }
    }

    fn consistent(&self) {
        let _least = self.least;
    }
}
