//! A puzzle whose nodes are structs: two jugs, of three and of five litres.

ghost use Rattle.std.specs.Prelude.{◌≡◌, ◌==◌, ◌∷◌, [], IfOk, IfErr};
ghost use Rattle.pf_base.specs.Successors.{IsFewestEdgesOrNone};
ghost use Rattle.test_searches.specs.Moves.{moves_from};

#[cfg(test)]
use pf_base::PathError;
use pf_node_refs::NodeRefs;
#[cfg(test)]
use pf_search::directed::bfs::bfs;
#[cfg(test)]
use std::alloc::Global;

/// The litres in each jug.
#[derive(Clone, Debug, PartialEq, Eq, Hash, Drop)]
pub struct Jugs {
    pub three: u8,
    pub five: u8,
}

#[cfg(test)]
impl Jugs {
    /// What one move leads to: to fill a jug, to empty one, or to pour one into the other.
    fn moves(&self) -> [Jugs; 6]
        ensures { result ≡ moves_from self.now }
    {
        let Jugs { three, five } = *self;
        let to_five = three.min(5u8.saturating_sub(five));
        let to_three = five.min(3u8.saturating_sub(three));
        [
            Jugs { three: 3, five },
            Jugs { three, five: 5 },
            Jugs { three: 0, five },
            Jugs { three, five: 0 },
            Jugs {
                three: three - to_five,
                five: five + to_five,
            },
            Jugs {
                three: three + to_three,
                five: five - to_three,
            },
        ]
    }
}

/// The fewest moves from `start` to so many litres in the jug of five, or `None` where none lead there.
#[cfg(test)]
pub fn fewest_moves(alloc: Global, start: &Jugs, litres: u8) -> Result<Option<Vec<Jugs>>, PathError>
    ensures best { IfOk result (IsFewestEdgesOrNone ⟦<Jugs as PartialEq>⟧.eq moves_from (start.now ∷ []) (λ s. s.five == litres)) }
    ensures errors { IfErr result (λ e. e ≡ PathError.OutOfMemory) }
{
    let starts = NodeRefs::from_one(alloc, start)?;
    bfs(
        alloc,
        &starts,
        |state| -> [Jugs; 6]
            ensures { result ≡ moves_from state.now }
        { state.moves() },
        |state| state.five == litres,
    )
}
