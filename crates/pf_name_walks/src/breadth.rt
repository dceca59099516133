//! The names in reach of a name, one at a time in breadth order.

ghost use Rattle.std.specs.Prelude.{◌≡◌, [], ◌∷◌, false, IfOk, IsOk, length};
ghost use Rattle.std.specs.Iterator.{at_most};
ghost use Rattle.pf_base.specs.Answers.{SameNodes};
ghost use Rattle.pf_name_walks.specs.NameWalks.{IsBreadthWalkByName, BreadthStepByName};
ghost use Rattle.pf_search.specs.Items.{most_items};

use crate::named_node::named_node;
use pf_base::{Cost, PathError};
use pf_edge_lists::EdgeList;
use pf_name_numbers::numbers::number_or_next;
use std::alloc::{Allocator, Global};
use std::hash::Hash;
use std::marker::Model;

/// The names in reach of a name in breadth order, each as a `Result`: made by `bfs_reach`.
#[derive(Drop)]
pub struct BfsReachable<
    'a,
    'p,
    'e,
    N: Eq + Hash,
    C: Cost,
    A: Allocator = Global,
    B: Allocator = Global,
> {
    list: &'a EdgeList<'e, N, C, A>,
    from: &'p N,
    walk: pf_table_searches::BfsReachable<'a, C, EdgeList<'e, N, C, A>, B>,
}

impl<'a, 'p, 'e, N: Eq + Hash, C: Cost, A: Allocator, B: Allocator> Model
    for BfsReachable<'a, 'p, 'e, N, C, A, B> {
    ghost use Rattle.std.specs.Prelude.{◌≡◌, length};
    ghost use Rattle.pf_core.specs.Nodes.{StandsFor};
    ghost use Rattle.pf_edge_lists.specs.EdgeLists.{NamesAndEdges, names_of, places_of};
    ghost use Rattle.pf_name_numbers.specs.Numbered.{names_with};
    ghost use Rattle.pf_name_walks.specs.NameWalks.{NameWalk, breadth_by_name};
    ghost use Rattle.pf_search.specs.Breadth.{BreadthWalk};
    ghost use Rattle.pf_table_searches.specs.TableWalks.{IsBreadthWalkInTable};

    ghost Value = { NameWalk N C (BreadthWalk N (NamesAndEdges N C)) };

    ghost view = { λ s. breadth_by_name N.eq s.list.now s.from.now s.walk.walk };

    ghost invariant = { λ s. (s.walk.table ≡ s.list.now) × StandsFor N.eq (names_with N.eq s.list.now s.from.now) s.walk.start s.from.now × IsBreadthWalkInTable C.value (λ list. length (names_of N.eq list)) (places_of N.eq) s.walk };
}

impl<'a, 'p, 'e, N, C, A, B> Iterator for BfsReachable<'a, 'p, 'e, N, C, A, B>
where
    'e: 'p,
    N: Eq + Hash,
    C: Cost,
    A: Allocator,
    B: Allocator + Copy,
{
    type Item = Result<&'p N, PathError>;

    ghost next_gives = { BreadthStepByName N.eq };

    ghost remaining = { λ s. at_most (most_items (length s.walk.given) s.walk.refused) };

    fn next(&mut self) -> Option<Result<&'p N, PathError>> {
        let node = self.walk.next();
        named_node(self.list, self.from, node)
    }
}

impl<'a, 'p, 'e, N, C, A, B> BfsReachable<'a, 'p, 'e, N, C, A, B>
where
    N: Eq + Hash,
    C: Cost,
    A: Allocator,
    B: Allocator + Copy,
{
    /// Lets the next call of `next` try again the step that was refused. Where no step was refused
    /// since the last call of `resume`, this changes nothing.
    pub fn resume(&mut self)
        ensures lowered { self.new ≡ record self.old { walk = record self.old.walk { refused = false } } }
        ensures graph { IsBreadthWalkByName N.eq self.new }
    {
        self.walk.resume();
    }
}

impl<'a, 'p, 'e, N, C, A, B> BfsReachable<'a, 'p, 'e, N, C, A, B>
where
    N: Eq + Hash,
    C: Cost,
    A: Allocator,
    B: Allocator,
{
    /// The number of names that were found (`from`, and each successor of a given name) and not yet
    /// given, each once. At least so many names are still to come.
    pub fn remaining_nodes_low_bound(&self) -> usize
        ensures { result ≡ length self.now.walk.waiting }
    {
        self.walk.remaining_nodes_low_bound()
    }
}

/// A walk over the names in reach of `from`, lazily, in breadth order: by distance from it; at equal
/// distance by the place of the earliest parent, then by the place in that parent's edges, which are in
/// the order of the list. Each name comes once. What the edges cost plays no part.
///
/// The names are lent, each as it is where it was first met, and names that are equal are one. From a
/// name that the list does not have, the walk gives it alone. A `for` over a walk ends, and the walk can
/// be resumed behind it.
///
/// This call takes no memory.
///
/// # Errors
///
/// This call answers `Ok`. A step is `Err(OutOfMemory)` where a request for memory was refused. It
/// leaves what was found and given as it was; the walk then answers `None` until `resume` is called,
/// and tries the same step again.
///
/// The algorithm is that of `bfs_reach` over the numbers of the names: `from` is looked up, and no name is
/// hashed or compared after that.
pub fn bfs_reach<'a, 'p, 'e, N, C, A, B>(
    alloc: B,
    list: &'a EdgeList<'e, N, C, A>,
    from: &'p N,
) -> Result<BfsReachable<'a, 'p, 'e, N, C, A, B>, PathError>
where
    'e: 'p,
    N: Eq + Hash,
    C: Cost,
    A: Allocator,
    B: Allocator + Copy,
    ensures begins { IfOk result (λ s. (s.list ≡ list.now) × (s.from ≡ from.now) × (s.walk.given ≡ []) × SameNodes N.eq s.walk.waiting (from.now ∷ []) × (s.walk.refused ≡ false)) }
    ensures graph { IfOk result (IsBreadthWalkByName N.eq) }
    ensures good { IsOk result }
{
    let start = number_or_next(list, from);
    let walk = pf_table_searches::bfs_reach(alloc, list, start)?;
    Ok(BfsReachable { list, from, walk })
}
