//! The names in reach of a name, one at a time by rising cost.

ghost use Rattle.std.specs.Prelude.{◌≡◌, [], false, IfOk, IfErr, length};
ghost use Rattle.std.specs.Iterator.{at_most};
ghost use Rattle.pf_name_walks.specs.NameWalks.{CheapestStepByName, IsBarredByName, IsCheapestWalkByName};
ghost use Rattle.pf_search.specs.Items.{most_items};

use crate::named_node::named_item;
use pf_base::{Cost, PathError};
use pf_edge_lists::EdgeList;
use pf_name_numbers::numbers::number_or_next;
use pf_search::directed::dijkstra::DijkstraReachableItem;
use std::alloc::{Allocator, Global};
use std::hash::Hash;
use std::marker::Model;

/// The names in reach of a name by rising cost, each as a `Result`: made by `dijkstra_reach`.
#[derive(Drop)]
pub struct DijkstraReachable<
    'a,
    'p,
    'e,
    N: Eq + Hash,
    C: Cost,
    A: Allocator = Global,
    B: Allocator = Global,
> {
    list: &'a EdgeList<'e, N, C, A>,
    from: &'p N,
    walk: pf_table_searches::DijkstraReachable<'a, C, EdgeList<'e, N, C, A>, B>,
}

impl<'a, 'p, 'e, N: Eq + Hash, C: Cost, A: Allocator, B: Allocator> Model
    for DijkstraReachable<'a, 'p, 'e, N, C, A, B> {
    ghost use Rattle.std.specs.Prelude.{◌≡◌, length};
    ghost use Rattle.pf_core.specs.Nodes.{StandsFor};
    ghost use Rattle.pf_edge_lists.specs.EdgeLists.{NamesAndEdges, names_of, places_of};
    ghost use Rattle.pf_name_numbers.specs.Numbered.{names_with};
    ghost use Rattle.pf_name_walks.specs.NameWalks.{NameWalk, cheapest_by_name};
    ghost use Rattle.pf_search.specs.CheapestFirst.{CheapestWalk};
    ghost use Rattle.pf_table_searches.specs.TableWalks.{IsCheapestWalkInTable};

    ghost Value = { NameWalk N C (CheapestWalk N C (NamesAndEdges N C)) };

    ghost view = { λ s. cheapest_by_name N.eq s.list.now s.from.now s.walk.walk };

    ghost invariant = { λ s. (s.walk.table ≡ s.list.now) × StandsFor N.eq (names_with N.eq s.list.now s.from.now) s.walk.start s.from.now × IsCheapestWalkInTable C.value (λ list. length (names_of N.eq list)) (places_of N.eq) s.walk };
}

impl<'a, 'p, 'e, N, C, A, B> Iterator for DijkstraReachable<'a, 'p, 'e, N, C, A, B>
where
    'e: 'p,
    N: Eq + Hash,
    C: Cost,
    A: Allocator,
    B: Allocator + Copy,
{
    type Item = Result<DijkstraReachableItem<&'p N, C>, PathError>;

    ghost next_gives = { CheapestStepByName N.eq C.value C.fits };

    ghost remaining = { λ s. at_most (most_items (length s.walk.given) s.walk.refused) };

    fn next(&mut self) -> Option<Result<DijkstraReachableItem<&'p N, C>, PathError>> {
        let item = self.walk.next();
        named_item(self.list, self.from, item)
    }
}

impl<'a, 'p, 'e, N, C, A, B> DijkstraReachable<'a, 'p, 'e, N, C, A, B>
where
    N: Eq + Hash,
    C: Cost,
    A: Allocator,
    B: Allocator + Copy,
{
    /// Lets the next call of `next` try again the step that was refused. Where no step was refused
    /// since the last call of `resume`, this changes nothing.
    pub fn resume(&mut self)
        ensures lowered { self.new ≡ record self.old { walk = record self.old.walk { refused = false } } }
        ensures graph { IsCheapestWalkByName N.eq C.value self.new }
        ensures bar { IsBarredByName N.eq C.value C.fits self.old → IsBarredByName N.eq C.value C.fits self.new }
    {
        self.walk.resume();
    }
}

/// A walk over the names in reach of `from`, lazily, by rising cost: each name once, at the cost of a
/// cheapest path to it, with the name before it on such a path, which was given before. Where several
/// edges lead from one name to another, a step costs what the cheapest of them costs.
///
/// In which order names of one cost come, and which of several parents is named, is open. The names are
/// lent, each as it is where it was first met, and names that are equal are one. From a name that the
/// list does not have, the walk gives it alone. A `for` over a walk ends, and the walk can be resumed
/// behind it.
///
/// # Errors
///
/// This call answers `OutOfMemory` where a request for memory was refused. A step is
///
/// - `Err(CostOverflow)` only where a cheapest path to a cheapest name that was not given and one step
///   more, by the cheapest of the parallel edges, cost more than `C` can hold;
/// - `Err(OutOfMemory)` where a request for memory was refused.
///
/// A refused step leaves what was found and given as it was; the walk then answers `None` until
/// `resume` is called, and tries the same step again. A step that was refused with `CostOverflow` is
/// refused again after each `resume`.
///
/// The algorithm is that of `dijkstra_reach` over the numbers of the names: `from` is looked up, and no
/// name is hashed or compared after that.
pub fn dijkstra_reach<'a, 'p, 'e, N, C, A, B>(
    alloc: B,
    list: &'a EdgeList<'e, N, C, A>,
    from: &'p N,
) -> Result<DijkstraReachable<'a, 'p, 'e, N, C, A, B>, PathError>
where
    'e: 'p,
    N: Eq + Hash,
    C: Cost,
    A: Allocator,
    B: Allocator + Copy,
    ensures begins { IfOk result (λ s. (s.list ≡ list.now) × (s.from ≡ from.now) × (s.walk.given ≡ []) × (s.walk.refused ≡ false)) }
    ensures graph { IfOk result (IsCheapestWalkByName N.eq C.value) }
    ensures refused { IfErr result (λ e. e ≡ PathError.OutOfMemory) }
{
    let start = number_or_next(list, from);
    let walk = pf_table_searches::dijkstra_reach(alloc, list, start)?;
    Ok(DijkstraReachable { list, from, walk })
}
