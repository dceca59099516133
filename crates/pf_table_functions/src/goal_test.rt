//! The goals of a search over a table as a function that tests nodes.

ghost use Rattle.std.specs.Prelude.{◌≡◌};
ghost use Rattle.pf_base.proofs.Callers.{nat_same};
ghost use Rattle.pf_table_functions.specs.TableFunctions.{GoalsTest};

use pf_base::NodeTest;
use pf_tables::Goals;
use std::marker::Model;

/// Goals that are asked whether a number is one of them. A contract sees the goals.
#[derive(Drop)]
pub struct GoalTest<T: Goals + Copy> {
    goals: T,
}

impl<T: Goals + Copy> Model for GoalTest<T> {
    ghost Value = { T };

    ghost view = { λ s. s.goals };
}

impl<T: Goals + Copy> GoalTest<T> {
    /// The test for these goals.
    pub fn new(goals: T) -> Self
        ensures { result ≡ goals }
    {
        GoalTest { goals }
    }
}

impl<T: Goals + Copy> NodeTest<usize> for GoalTest<T> {
    ghost answers = { GoalsTest T.passes };

    fn passes(&mut self, node: &usize) -> bool {
        self.goals.is_goal(*node)
    }

    ghost alike_law = { λ f region test a x y w e. nat_same test x y e };
}
