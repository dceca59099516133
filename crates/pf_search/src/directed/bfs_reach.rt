//! The nodes in reach of a start in breadth order, one at a time.

ghost use Rattle.std.specs.Prelude.{◌≡◌, ◌<◌, ◌≤◌, ◌+◌, [], ◌∷◌, ◌++◌, ◌^◌, Ok, Some, None, false, length, take, OnOk, OnErr, IfOk, IfErr, IfSome};
ghost use Rattle.std.specs.Iterator.{MakesProgress, at_most};
ghost use Rattle.pf_base.specs.Answers.{IsLawfulClone, SameNodes};
ghost use Rattle.pf_base.specs.Successors.{OfUnweightedGraph};
ghost use Rattle.pf_base.specs.Orders.{IsNextInBreadth};
ghost use Rattle.pf_search.specs.Breadth.{IsBreadthWalk, IsSomeBreadthWalk, OfBreadthWalk, BreadthStep};
ghost use Rattle.pf_search.specs.Items.{most_items};
ghost use Rattle.pf_search.specs.Internal.Breadth.{BreadthTurn, walk_in, BeginsEmpty, found_or};

use indexmap::IndexSet;
use pf_base::{PathError, SuccessorFunction};
use pf_core::numbered::NumberedGraph;
use pf_core::row::NoRow;
use pf_discovery::discovery::{DiscoveryBy, Nodes};
use pf_discovery::numbering::Numbering;
use pf_discovery::source::Unweighted;
use std::alloc::{Allocator, Global};
use std::hash::Hash;
use std::marker::Model;

/// Gives the start a number, unless that was done. Where memory is refused, all stays.
pub(crate) fn put_start<N, M>(start: &mut Option<N>, nodes: &mut M) -> Result<(), PathError>
where
    N: Eq + Drop,
    M: Numbering<Node = N>,
    requires { BeginsEmpty start.old (M.keys nodes.old) }
    ensures put { OnOk result ((start.new ≡ None) × (M.keys nodes.new ≡ found_or start.old (M.keys nodes.old))) }
    ensures stays { OnErr result ((node : N) × (start.old ≡ Some node) × (start.new ≡ start.old) × (M.keys nodes.new ≡ M.keys nodes.old)) }
    ensures refused { IfErr result (λ e. e ≡ PathError.OutOfMemory) }
{
    let Some(node) = start.take() else {
        return Ok(());
    };
    match nodes.number_of(node) {
        Ok(_) => Ok(()),
        Err(refusal) => {
            *start = Some(refusal.value);
            Err(PathError::OutOfMemory)
        }
    }
}

/// A clone of the node of this number, whose successors are numbered. Where memory is refused, the
/// nodes stay as they were.
fn give<N, M, F>(
    discovery: &mut DiscoveryBy<M, Unweighted<F>>,
    number: usize,
) -> Result<N, PathError>
where
    N: Eq + Clone + Drop,
    M: Numbering<Node = N>,
    F: SuccessorFunction<N>,
    requires inside { number < length (M.keys discovery.old.nodes) }
    requires clones { IsLawfulClone N.eq N.is_clone }
    requires walk { IsSomeBreadthWalk N.eq F.answers (walk_in M.keys discovery.old number) }
    ensures walk { OfBreadthWalk N.eq F.answers (walk_in M.keys discovery.old number) (λ next start.
        IfOk result (λ node. IsBreadthWalk N.eq F.answers next start (walk_in M.keys discovery.new (number + 1))
        × IsNextInBreadth N.eq next start (take number (M.keys discovery.old.nodes)) node)
        × OnErr result (IsBreadthWalk N.eq F.answers next start (walk_in M.keys discovery.new number))) }
    ensures given { IfOk result (λ node. SameNodes N.eq (take (number + 1) (M.keys discovery.new.nodes)) (take number (M.keys discovery.old.nodes) ++ node ∷ [])) }
    ensures stays { OnErr result (SameNodes N.eq (M.keys discovery.new.nodes) (M.keys discovery.old.nodes)) }
    ensures more { length (M.keys discovery.old.nodes) ≤ length (M.keys discovery.new.nodes) }
    ensures refused { IfErr result (λ e. e ≡ PathError.OutOfMemory) }
{
    let node = discovery.nodes.as_slice()[number].clone()?;
    NumberedGraph::<u8>::expand(discovery, number, &mut NoRow)?;
    Ok(node)
}

/// The nodes in reach of a start in breadth order, each as a `Result`, with numbers by `M`.
#[derive(Drop)]
pub struct BfsReachableBy<M: Numbering, F> {
    start: Option<M::Node>,
    discovery: DiscoveryBy<M, Unweighted<F>>,
    given: usize,
    refused: bool,
}

/// The nodes in reach of a start in breadth order, each as a `Result`: made by `bfs_reach`.
pub type BfsReachable<N, F, A = Global> = BfsReachableBy<Nodes<N, A>, F>;

impl<M: Numbering, F> Model for BfsReachableBy<M, F> {
    ghost use Rattle.pf_search.specs.Breadth.{BreadthWalk, breadth_walk_code};
    ghost use Rattle.pf_search.specs.Internal.Breadth.{walk_at, found_or, IsPlace};

    ghost Value = { BreadthWalk M.Node F };

    ghost coded = { breadth_walk_code M.Node.code F.code };

    ghost view = { λ s. walk_at (found_or s.start (M.keys s.discovery.nodes)) s.given s.refused s.discovery.source.function };

    ghost invariant = { λ s. IsPlace s.start (M.keys s.discovery.nodes) s.given };
}

impl<N, M, F> Iterator for BfsReachableBy<M, F>
where
    N: Eq + Clone + Drop,
    M: Numbering<Node = N> + Drop,
    F: SuccessorFunction<N>,
{
    type Item = Result<N, PathError>;

    ghost can_next = { λ s. IsLawfulClone N.eq N.is_clone × IsSomeBreadthWalk N.eq F.answers s };

    ghost next_gives = { λ s r t. OfBreadthWalk N.eq F.answers s (λ next start.
        IsBreadthWalk N.eq F.answers next start t × BreadthStep N.eq next start s r t) };

    ghost remaining = { λ s. at_most (most_items (length s.given) s.refused) };

    fn next(&mut self) -> Option<Result<N, PathError>>
        requires { ⟦<BfsReachableBy<M, F> as Iterator>⟧.can_next self.old }
        ensures steps { ⟦<BfsReachableBy<M, F> as Iterator>⟧.next_gives self.old result self.new }
        ensures goes { MakesProgress ⟦<BfsReachableBy<M, F> as Iterator>⟧.can_next ⟦<BfsReachableBy<M, F> as Iterator>⟧.remaining self.old result self.new }
        ensures again { ⟦<BfsReachableBy<M, F> as Iterator>⟧.can_next self.new }
    {
        if self.refused {
            return None;
        }
        let step = self.step();
        self.refused = step.is_err();
        step.transpose()
    }
}

impl<N, M, F> BfsReachableBy<M, F>
where
    N: Eq + Clone + Drop,
    M: Numbering<Node = N>,
    F: SuccessorFunction<N>,
{
    /// A walk as `bfs_reach` makes it, over any function of the trait, whose nodes are numbered by any
    /// numbering that has none yet. This call takes no memory.
    pub fn over(nodes: M, start: N, successors: F) -> BfsReachableBy<M, F>
        requires empty { M.keys nodes ≡ [] }
        ensures begins { result ≡ record { given = []; waiting = start ∷ []; refused = false; successors = successors } }
        ensures graph { OfUnweightedGraph N.eq (start ∷ []) (F.answers successors) (λ next. IsBreadthWalk N.eq F.answers next start result) }
    {
        BfsReachableBy {
            start: Some(start),
            discovery: DiscoveryBy {
                nodes,
                source: Unweighted {
                    function: successors,
                },
            },
            given: 0,
            refused: false,
        }
    }

    /// Lets the next call of `next` try again the step that was refused. Where no step was refused
    /// since the last call of `resume`, this changes nothing.
    pub fn resume(&mut self)
        ensures lowered { self.new ≡ record self.old { refused = false } }
        ensures graph { OfBreadthWalk N.eq F.answers self.old (λ next start. IsBreadthWalk N.eq F.answers next start self.new) }
    {
        self.refused = false;
    }

    /// The next node, or `None` where all that was found was given. Where memory is refused, the given
    /// and the waiting nodes stay as they were.
    fn step(&mut self) -> Result<Option<N>, PathError>
        requires clones { IsLawfulClone N.eq N.is_clone }
        requires walk { IsSomeBreadthWalk N.eq F.answers self.old }
        ensures steps { OfBreadthWalk N.eq F.answers self.old (λ next start.
            IsBreadthWalk N.eq F.answers next start self.new × BreadthTurn N.eq next start self.old result self.new) }
        ensures few { IfOk result (λ given. IfSome given (λ _. length self.new.given < 2 ^ 63)) }
        ensures same { self.new.refused ≡ self.old.refused }
        ensures refused { IfErr result (λ e. e ≡ PathError.OutOfMemory) }
    {
        put_start(&mut self.start, &mut self.discovery.nodes)?;
        if self.given >= self.discovery.nodes.len() {
            return Ok(None);
        }
        let node = give(&mut self.discovery, self.given)?;
        self.given += 1;
        Ok(Some(node))
    }
}

impl<N, M, F> BfsReachableBy<M, F>
where
    N: Eq,
    M: Numbering<Node = N>,
{
    /// The number of nodes that were found (the start, and each successor of a given node) and not
    /// yet given, each once. At least so many nodes are still to come.
    pub fn remaining_nodes_low_bound(&self) -> usize
        ensures { result ≡ length self.now.waiting }
    {
        let found = match &self.start {
            Some(_) => 1,
            None => self.discovery.nodes.len(),
        };
        found - self.given
    }
}

impl<N, F, A> BfsReachable<N, F, A>
where
    N: Eq + Hash + Clone + Drop,
    F: SuccessorFunction<N>,
    A: Allocator + Copy,
{
    /// A walk as `bfs_reach` makes it, over any function of the trait: a closure, or a type of the
    /// caller's own that implements it.
    ///
    /// # Errors
    ///
    /// This call answers `Ok`.
    pub fn new(alloc: A, start: N, successors: F) -> Result<BfsReachable<N, F, A>, PathError>
        ensures begins { result ≡ Ok (record { given = []; waiting = start ∷ []; refused = false; successors = successors }) }
        ensures graph { IfOk result (λ walk. OfUnweightedGraph N.eq (start ∷ []) (F.answers successors) (λ next. IsBreadthWalk N.eq F.answers next start walk)) }
    {
        Ok(BfsReachableBy::over(IndexSet::new(alloc), start, successors))
    }
}

/// A walk over the nodes in reach of `start`, lazily, in breadth order: by distance from the start;
/// at equal distance by the place of the earliest parent, then by the place in that parent's answer.
///
/// `successors` lists the nodes that follow a node. It must answer alike for equal nodes at every
/// call, and is asked of nodes in reach alone. Each node comes once, as a clone.
///
/// No finite reach is asked. A `for` over a walk ends, since the walk holds the nodes that it found: on
/// an endless graph it ends with a refusal, unless a limit, as of `take`, comes first.
///
/// This call takes no memory. The start is put in by the first step.
///
/// # Errors
///
/// This call answers `Ok`. A step is `Err(OutOfMemory)` where a request for memory was refused. It
/// leaves the walk as it was before the step, save what `successors` changes when it is called; the
/// walk then answers `None` until `resume` is called, and tries the same step again.
///
/// The algorithm is breadth-first search (E. F. Moore, "The shortest path through a maze", 1959).
pub fn bfs_reach<N, IN, FN, A>(
    alloc: A,
    start: N,
    successors: FN,
) -> Result<BfsReachable<N, FN, A>, PathError>
where
    N: Eq + Hash + Clone + Drop,
    IN: IntoIterator<Item = N>,
    FN: FnMut(&N) -> IN,
    A: Allocator + Copy,
    ensures begins { result ≡ Ok (record { given = []; waiting = start ∷ []; refused = false; successors = successors }) }
    ensures graph { IfOk result (λ walk. OfUnweightedGraph N.eq (start ∷ []) (⟦<FN as SuccessorFunction<N>>⟧.answers successors) (λ next.
        IsBreadthWalk N.eq (⟦<FN as SuccessorFunction<N>>⟧.answers) next start walk)) }
{
    BfsReachable::new(alloc, start, successors)
}
