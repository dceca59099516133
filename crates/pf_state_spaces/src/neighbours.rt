//! A graph over states as a function that lists what the moves of a state lead to.

ghost use Rattle.std.proofs.Common.{subst};
ghost use Rattle.std.specs.Prelude.{◌≡◌, ℤ};
ghost use Rattle.pf_base.specs.Answers.{ListsEdges, SameNodes};
ghost use Rattle.pf_base.proofs.Callers.{ListsEdges-refl, SameNodes-refl};
ghost use Rattle.pf_state_spaces.specs.StateSpaces.{SpaceListsSuccessors, SpaceListsEdges};

use crate::moves::{Moves, Successors, moves_of, successors_of};
use crate::space::{Exact, StateSpace};
use pf_base::{Cost, EdgeFunction, SuccessorFunction};
use std::marker::{Model, PhantomData};

/// A graph over states that is asked for the edges of a state, or for its successors. A contract sees
/// the graph.
#[derive(Drop)]
pub struct Neighbours<'a, N: Exact, C: Cost, S: StateSpace<N, C>> {
    space: &'a S,
    marks: PhantomData<(N, C)>,
}

impl<'a, N: Exact, C: Cost, S: StateSpace<N, C>> Model for Neighbours<'a, N, C, S> {
    ghost Value = { S };

    ghost view = { λ s. s.space.now };
}

impl<'a, N: Exact, C: Cost, S: StateSpace<N, C>> Neighbours<'a, N, C, S> {
    /// What the moves of the states of a graph lead to.
    pub fn new(space: &'a S) -> Self
        ensures { result ≡ space.now }
    {
        Neighbours {
            space,
            marks: PhantomData,
        }
    }
}

impl<'a, N: Exact, C: Cost, S: StateSpace<N, C>> SuccessorFunction<N> for Neighbours<'a, N, C, S> {
    type Successors = Successors<'a, N, C, S>;

    ghost answers = { SpaceListsSuccessors S.moves };

    fn successors(&mut self, node: &N) -> Successors<'a, N, C, S> {
        successors_of(self.space, node)
    }

    ghost alike_law = { λ f starts next a x y w e. subst (λ z. SameNodes N.eq (next x) (next z)) (N.exact_law x y e) (SameNodes-refl N.eq N.Eq.laws.refl (next x)) };
}

impl<'a, N: Exact, C: Cost, S: StateSpace<N, C>> EdgeFunction<N, C> for Neighbours<'a, N, C, S> {
    type Edges = Moves<'a, N, C, S>;

    ghost answers = { SpaceListsEdges S.moves C.value };

    fn edges(&mut self, node: &N) -> Moves<'a, N, C, S> {
        moves_of(self.space, node)
    }

    ghost alike_law = { λ f starts edges a x y w e. subst (λ z. ListsEdges N.eq (λ (q : ℤ). q) (edges x) (edges z)) (N.exact_law x y e) (ListsEdges-refl N.eq N.Eq.laws.refl (edges x)) };
}
