//! The numbers of names that a search is handed.

ghost use Rattle.std.specs.Prelude.{◌≡◌, ℕ};
ghost use Rattle.pf_core.specs.Nodes.{StandsFor};
ghost use Rattle.pf_name_numbers.specs.Numbered.{is_numbered, names_with};

use pf_base::Cost;
use pf_edge_lists::EdgeList;
use pf_tables::Goals;
use std::alloc::Allocator;
use std::hash::Hash;

/// The number of a name, or the number behind all of the list where it has no such name.
pub fn number_or_next<'e, N, C, A>(list: &EdgeList<'e, N, C, A>, name: &N) -> usize
where
    N: Eq + Hash,
    C: Cost,
    A: Allocator,
    ensures { StandsFor N.eq (names_with N.eq list.now name.now) result name.now }
{
    match list.number_of(name) {
        Some(number) => number,
        None => list.len(),
    }
}

/// A goal that is a name: its number, where the list has the name or the search begins at it.
#[derive(Clone, Copy)]
pub struct NameGoal {
    pub number: Option<usize>,
}

impl Goals for NameGoal {
    ghost passes = { λ goal. is_numbered goal.number };

    fn is_goal(&self, node: usize) -> bool {
        match self.number {
            Some(number) => node == number,
            None => false,
        }
    }
}

/// The goal of a search over the list and the name that it begins at.
pub fn goal_of<'e, N, C, A>(list: &EdgeList<'e, N, C, A>, from: &N, to: &N) -> NameGoal
where
    N: Eq + Hash,
    C: Cost,
    A: Allocator,
    ensures { (k : ℕ) (x : N) → StandsFor N.eq (names_with N.eq list.now from.now) k x → is_numbered result.number k ≡ N.eq x to.now }
{
    let number = match list.number_of(to) {
        Some(number) => Some(number),
        None if *from == *to => Some(list.len()),
        None => None,
    };
    NameGoal { number }
}
