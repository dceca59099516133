//! The clean paths between two names by rising cost, one at a time.

ghost use Rattle.std.specs.Prelude.{◌≡◌, [], false, IfOk, IfErr};
ghost use Rattle.std.specs.Iterator.{at_most};
ghost use Rattle.pf_name_paths.specs.PathWalks.{IsPathWalkByName, PathStepByName};
ghost use Rattle.pf_yen.specs.Walk.{IsBarred, most_items};

use crate::steps::{is_refusal, name_path, next_numbers};
use pf_base::{Cost, PathError};
use pf_edge_lists::EdgeList;
use pf_name_numbers::numbers::{NameGoal, goal_of, number_or_next};
use std::alloc::{Allocator, Global};
use std::hash::Hash;
use std::marker::Model;
use std::snapshot::Snapshot;

/// The clean paths between two names by rising cost, each as a `Result`: made by `yen_paths`. A step
/// that was refused with `CostOverflow` is refused with it again after each `resume`.
#[derive(Drop)]
pub struct YenPaths<
    'a,
    'p,
    'e,
    N: Eq + Hash,
    C: Cost,
    A: Allocator = Global,
    B: Allocator + Copy = Global,
> {
    alloc: B,
    list: &'a EdgeList<'e, N, C, A>,
    from: &'p N,
    to: Snapshot<N>,
    walk: pf_table_paths::YenPaths<'a, C, EdgeList<'e, N, C, A>, NameGoal, B>,
    /// The numbers of a path that could not be named yet, and what it costs.
    waiting: Option<(Vec<usize, B>, C)>,
    refused: bool,
    ended: bool,
}

impl<'a, 'p, 'e, N: Eq + Hash, C: Cost, A: Allocator, B: Allocator + Copy> Model
    for YenPaths<'a, 'p, 'e, N, C, A, B> {
    ghost use Rattle.pf_name_paths.specs.PathWalks.{IsListed, NamePathWalk, path_walk_by_name, taken_path};

    ghost Value = { NamePathWalk N C };

    ghost view = { λ s. path_walk_by_name N.eq s.list.now s.from.now s.to.value s.walk (taken_path s.waiting) s.refused s.ended };

    ghost invariant = { λ s. IsListed N.eq C.value C.fits s.list.now s.from.now s.to.value s.walk (taken_path s.waiting) s.refused s.ended };
}

impl<'a, 'p, 'e, N, C, A, B> Iterator for YenPaths<'a, 'p, 'e, N, C, A, B>
where
    'e: 'p,
    N: Eq + Hash,
    C: Cost,
    A: Allocator,
    B: Allocator + Copy,
{
    type Item = Result<(Vec<&'p N, B>, C), PathError>;

    ghost next_gives = { PathStepByName N.eq C.value C.fits };

    ghost remaining = { λ s. at_most (most_items s.walk) };

    fn next(&mut self) -> Option<Result<(Vec<&'p N, B>, C), PathError>> {
        if self.refused || self.ended {
            return None;
        }
        let path = next_numbers(&mut self.walk, &mut self.waiting);
        let named = name_path(self.alloc, self.list, self.from, &mut self.waiting, path);
        self.refused = is_refusal(&named);
        self.ended = named.is_none();
        named
    }
}

impl<'a, 'p, 'e, N, C, A, B> YenPaths<'a, 'p, 'e, N, C, A, B>
where
    N: Eq + Hash,
    C: Cost,
    A: Allocator,
    B: Allocator + Copy,
{
    /// Lets the next call of `next` try again the step that was refused. Where no step was refused
    /// since the last call of `resume`, this changes nothing. A step that was refused with
    /// `CostOverflow` is refused with it again.
    pub fn resume(&mut self)
        ensures names { (self.new.list ≡ self.old.list) × (self.new.from ≡ self.old.from) × (self.new.to ≡ self.old.to) }
        ensures lowered { (self.new.walk.given ≡ self.old.walk.given) × (self.new.walk.barred ≡ self.old.walk.barred) × (self.new.walk.ended ≡ self.old.walk.ended) × (self.new.walk.refused ≡ false) }
        ensures graph { IsPathWalkByName N.eq C.value C.fits self.new }
    {
        self.walk.resume();
        self.refused = false;
    }
}

/// The clean paths from the name `from` to the name `to`, lazily, by rising cost: paths along the edges
/// of the list that contain no name twice and of which only the last name equals `to`, each once, with its
/// cost. After any number of paths, no clean path that was not given costs less than one that was. Where
/// no step was refused, `None` comes only when all were given, and for good: no path and no refusal comes
/// after it.
///
/// In which order paths of one cost come is open. Where `from` equals `to`, it is the only path. Where
/// several edges lead from one name to another, a step costs what the cheapest of them costs. A name that
/// stands in no edge is a node without edges. The paths lend their names; of a name that the list does not
/// have, a reference to `from` itself is the path. A `for` over the paths ends, and they can be resumed
/// behind it. What is in reach of `from` is gone through in the first calls of `next`, until one of them is
/// not refused.
///
/// # Errors
///
/// This call answers `OutOfMemory` where a request for memory was refused. A step is
///
/// - `Err(CostOverflow)` only where a path from `from`, in which no name stands twice and none equals
///   `to`, and one step more, by the cheapest of the parallel edges, cost more than `C` can hold; before
///   the first path was given, also only where a cheapest path to some name and one step more cost more
///   than `C` can hold and `to` is no cheaper than that name; after a path was given, also only where that
///   path with its step begins with some of the first names of the path that was given last and goes on to
///   a name to which no given path goes on from them, and no clean path that does so costs less than that
///   path without its step;
/// - `Err(OutOfMemory)` where a request for memory was refused.
///
/// A refused step loses no path; the walk then answers `None` until `resume` is called, and tries the
/// same step again. A step that was refused with `CostOverflow` is refused with it again after each
/// `resume`.
///
/// The algorithm is that of `yen_paths` over the numbers of the names: `from` and `to` are looked up, and
/// no name is hashed or compared after that, save that `from` is compared with `to` where the list has no
/// such name as `to`.
pub fn yen_paths<'a, 'p, 'e, N, C, A, B>(
    alloc: B,
    list: &'a EdgeList<'e, N, C, A>,
    from: &'p N,
    to: &N,
) -> Result<YenPaths<'a, 'p, 'e, N, C, A, B>, PathError>
where
    'e: 'p,
    N: Eq + Hash,
    C: Cost,
    A: Allocator,
    B: Allocator + Copy,
    ensures begins { IfOk result (λ s. (s.list ≡ list.now) × (s.from ≡ from.now) × (s.to ≡ to.now) × (s.walk.given ≡ []) × (s.walk.refused ≡ false) × (s.walk.ended ≡ false) × ¬ (IsBarred s.walk)) }
    ensures graph { IfOk result (IsPathWalkByName N.eq C.value C.fits) }
    ensures refused { IfErr result (λ e. e ≡ PathError.OutOfMemory) }
{
    let start = number_or_next(list, from);
    let goal = goal_of(list, from, to);
    let walk = pf_table_paths::yen_paths(alloc, list, start, goal)?;
    Ok(YenPaths {
        alloc,
        list,
        from,
        to: Snapshot::of(to),
        walk,
        waiting: None,
        refused: false,
        ended: false,
    })
}
