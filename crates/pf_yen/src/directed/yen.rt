//! The cheapest paths to goals, one after the other (Yen 1971, Lawler 1972).

ghost use Rattle.std.specs.Prelude.{◌≡◌, ◌≤◌, ◌<◌, ◌^◌, true, false, None, [], ◌∷◌, length, OnOk, OnErr, IfOk, IfErr, IsErrOf, IsOkAnd};
ghost use Rattle.std.specs.Iterator.{MakesProgress, at_most};
ghost use Rattle.pf_base.specs.Answers.{IsLawfulClone};
ghost use Rattle.pf_base.specs.Edges.{OfWeightedSearch};
ghost use Rattle.pf_base.specs.Walks.{HasNode};
ghost use Rattle.pf_yen.specs.CleanPaths.{RefusedFor};
ghost use Rattle.pf_yen.specs.Walk.{IsPathWalk, IsSomePathWalk, OfPathWalk, most_items, IsEnded, IsBarred, PathStep, StepKeepsBar};
ghost use Rattle.pf_yen.specs.Internal.PathTurns.{PathTurn};

use crate::adjacency::Adjacency;
use crate::candidates::Candidates;
pub use crate::directed::k_cheapest::yen;
use crate::explore::explore;
use crate::given::Given;
use crate::standing::Standing;
use pf_base::{Cost, EdgeFunction, NodeTest, PathError};
use pf_discovery::discovery::{DiscoveryBy, Nodes, clone_of};
use pf_discovery::numbering::Numbering;
use pf_discovery::source::Weighted;
use pf_discovery::tested::TestedBy;
use std::alloc::{Allocator, Global};
use std::collections::BinaryHeap;
use std::hash::Hash;
use std::marker::Model;

/// The clean paths by rising cost, each as a `Result`, over nodes with numbers by `M`. A step that was
/// refused with `CostOverflow` is refused with it again after each `resume`.
///
/// The paths that branch off a path are looked for when the path after it is asked for, and not before.
#[derive(Drop)]
pub struct YenPathsBy<M: Numbering, C: Cost, F, T, A: Allocator>
where
    M::Node: Drop,
{
    graph: TestedBy<M, Weighted<F>, T>,
    adjacency: Adjacency<C, A>,
    plans: Candidates<C, A>,
    given: Given<M::Node, C, A>,
    standing: Standing,
    alloc: A,
}

/// The clean paths by rising cost, each as a `Result`: made by `yen_paths`. Nodes are numbered by their
/// hashes.
pub type YenPaths<N, C, F, T, A = Global> = YenPathsBy<Nodes<N, A>, C, F, T, A>;

impl<M: Numbering, C: Cost, F, T, A: Allocator> Model for YenPathsBy<M, C, F, T, A>
where
    M::Node: Drop,
{
    ghost use Rattle.std.specs.BinaryHeap.{IsHeap, heap_items};
    ghost use Rattle.pf_yen.specs.Internal.PathPlans.{has_ended, path_plans};
    ghost use Rattle.pf_yen.specs.Internal.PlanChanges.{first_cmp};
    ghost use Rattle.pf_yen.specs.Internal.Standing.{is_barred, was_refused};
    ghost use Rattle.pf_yen.specs.Walk.{PathWalk, path_walk_code};

    ghost Value = { PathWalk M.Node C F T };

    ghost coded = { path_walk_code M.Node.code C.code F.code T.code };

    ghost view = { λ s. record {
      given = s.given;
      refused = was_refused s.standing;
      barred = is_barred s.standing;
      ended = has_ended (path_plans (M.keys s.graph.discovery.nodes) s.adjacency s.plans);
      successors = s.graph.discovery.source.function;
      success = s.graph.success;
      plans = path_plans (M.keys s.graph.discovery.nodes) s.adjacency s.plans;
    } };

    ghost invariant = { λ s. IsHeap (first_cmp C.cmp) (heap_items s.plans.waiting) };
}

impl<N, M, C, F, T, A> Iterator for YenPathsBy<M, C, F, T, A>
where
    N: Eq + Clone + Drop,
    M: Numbering<Node = N> + Drop,
    C: Cost,
    F: EdgeFunction<N, C>,
    T: NodeTest<N>,
    A: Allocator + Copy,
{
    type Item = Result<(Vec<N, A>, C), PathError>;

    ghost remaining = { λ s. at_most (most_items s) };

    ghost can_next = { λ s. IsLawfulClone N.eq N.is_clone × IsSomePathWalk N.eq C.value C.fits F.answers T.answers s };

    ghost next_gives = { λ s r t. OfPathWalk N.eq C.value C.fits F.answers T.answers s (λ edges start test.
        IsPathWalk N.eq C.value edges start test C.fits F.answers T.answers t × PathStep N.eq C.value edges start test C.fits s r t × StepKeepsBar s r t) };

    fn next(&mut self) -> Option<Result<(Vec<N, A>, C), PathError>>
        requires { ⟦<YenPathsBy<M, C, F, T, A> as Iterator>⟧.can_next self.old }
        ensures steps { ⟦<YenPathsBy<M, C, F, T, A> as Iterator>⟧.next_gives self.old result self.new }
        ensures goes { MakesProgress ⟦<YenPathsBy<M, C, F, T, A> as Iterator>⟧.can_next ⟦<YenPathsBy<M, C, F, T, A> as Iterator>⟧.remaining self.old result self.new }
        ensures again { ⟦<YenPathsBy<M, C, F, T, A> as Iterator>⟧.can_next self.new }
    {
        if self.standing.was_refused() {
            return None;
        }
        let step = self.step();
        self.standing = Standing::after(&step);
        step.transpose()
    }
}

impl<N, C, F, T, A> YenPaths<N, C, F, T, A>
where
    N: Eq + Hash + Clone + Drop,
    C: Cost,
    F: EdgeFunction<N, C>,
    T: NodeTest<N>,
    A: Allocator + Copy,
{
    /// A walk as `yen_paths` makes it, over any functions of the traits: closures, or types of the
    /// caller's own that implement them.
    ///
    /// # Errors
    ///
    /// This call answers `OutOfMemory` where a request for memory was refused.
    pub fn new(
        alloc: A,
        start: &N,
        successors: F,
        success: T,
    ) -> Result<YenPaths<N, C, F, T, A>, PathError>
        requires clones { IsLawfulClone N.eq N.is_clone }
        ensures begins { IfOk result (λ walk. (walk.given ≡ []) × (walk.refused ≡ false) × ¬ (IsBarred walk) × (walk.successors ≡ successors) × (walk.success ≡ success)) }
        ensures graph { IfOk result (λ walk. OfWeightedSearch N.eq (start.now ∷ []) (F.answers successors) (T.answers success) (λ edges test.
            IsPathWalk N.eq C.value edges start.now test C.fits F.answers T.answers walk)) }
        ensures refused { IfErr result (λ e. e ≡ PathError.OutOfMemory) }
    {
        let nodes = clone_of(alloc, start)?;
        Ok(YenPathsBy::over(alloc, nodes, successors, success))
    }
}

impl<N, M, C, F, T, A> YenPathsBy<M, C, F, T, A>
where
    N: Eq + Clone + Drop,
    M: Numbering<Node = N> + Drop,
    C: Cost,
    F: EdgeFunction<N, C>,
    T: NodeTest<N>,
    A: Allocator + Copy,
{
    /// A walk as `yen_paths` makes it, whatever numbers the nodes: `nodes` has the start alone. This
    /// takes no memory, and no node is hashed unless `nodes` does so.
    pub fn over(alloc: A, nodes: M, successors: F, success: T) -> Self
        requires one { length (M.keys nodes) ≡ 1 }
        ensures begins { (result.given ≡ []) × (result.refused ≡ false) × ¬ (IsBarred result) × (result.successors ≡ successors) × (result.success ≡ success) }
        ensures graph { (start : N) → HasNode N.eq (M.keys nodes) start → OfWeightedSearch N.eq (start ∷ []) (F.answers successors) (T.answers success) (λ edges test.
            IsPathWalk N.eq C.value edges start test C.fits F.answers T.answers result) }
    {
        let discovery = DiscoveryBy {
            nodes,
            source: Weighted {
                function: successors,
            },
        };
        YenPathsBy {
            graph: TestedBy { discovery, success },
            adjacency: Adjacency::new(alloc),
            plans: Candidates {
                waiting: BinaryHeap::new(alloc),
                chosen: None,
                is_given: false,
                has_begun: false,
            },
            given: Given::nothing(),
            standing: Standing::GoesOn,
            alloc,
        }
    }

    /// Lets the next call of `next` try again the step that was refused. Where no step was refused
    /// since the last call of `resume`, this changes nothing. A step that was refused with
    /// `CostOverflow` is refused with it again.
    pub fn resume(&mut self)
        ensures lowered { self.new ≡ record self.old { refused = false } }
        ensures graph { OfPathWalk N.eq C.value C.fits F.answers T.answers self.old (λ edges start test.
            IsPathWalk N.eq C.value edges start test C.fits F.answers T.answers self.new) }
    {
        self.standing = self.standing.resumed();
    }

    /// Learns of the graph, unless a path was looked for before. Once a path was given, what remains
    /// from each node is looked for, which the further paths are found by.
    fn explore_graph(&mut self) -> Result<(), PathError>
        requires walk { IsSomePathWalk N.eq C.value C.fits F.answers T.answers self.old }
        ensures walk { OfPathWalk N.eq C.value C.fits F.answers T.answers self.old (λ edges start test.
            IsPathWalk N.eq C.value edges start test C.fits F.answers T.answers self.new) }
        ensures adjacency { OfPathWalk N.eq C.value C.fits F.answers T.answers self.old (λ edges start test.
            OnOk result ((length self.new.plans.nodes ≤ length self.new.plans.adjacency.rows) × (length self.new.plans.adjacency.rows < 2 ^ 64))) }
        ensures ended { IsEnded self.old → IsOkAnd result (λ _. IsEnded self.new) }
        ensures open { OnErr result (¬ (IsEnded self.new)) }
        ensures given { self.new.given ≡ self.old.given }
        ensures same { self.new.refused ≡ self.old.refused }
        ensures bar { self.new.barred ≡ self.old.barred }
        ensures refused { IfErr result (λ e. e ≡ PathError.OutOfMemory) }
    {
        if self.plans.is_given {
            return self.adjacency.note_remaining(self.alloc);
        }
        if self.plans.has_begun {
            return Ok(());
        }
        explore(self.alloc, &mut self.graph, &mut self.adjacency)
    }

    /// Chooses the plan whose path is to be given next, if there is one.
    fn choose(&mut self) -> Result<(), PathError>
        requires walk { IsSomePathWalk N.eq C.value C.fits F.answers T.answers self.old }
        requires adjacency { (length self.old.plans.nodes ≤ length self.old.plans.adjacency.rows) × (length self.old.plans.adjacency.rows < 2 ^ 64) }
        requires free { ¬ (IsBarred self.old) }
        ensures walk { OfPathWalk N.eq C.value C.fits F.answers T.answers self.old (λ edges start test.
            IsPathWalk N.eq C.value edges start test C.fits F.answers T.answers self.new × IfErr result (RefusedFor N.eq edges start test C.value C.fits self.old.given)) }
        ensures given { self.new.given ≡ self.old.given }
        ensures same { self.new.refused ≡ self.old.refused }
        ensures bar { self.new.barred ≡ self.old.barred }
        ensures begun { OnOk result ((self.new.plans.has_begun ≡ true) × (self.new.plans.is_given ≡ false)) }
        ensures none { OnOk result (self.new.plans.chosen ≡ None → self.new.plans.waiting ≡ []) }
        ensures ended { IsEnded self.old → IsOkAnd result (λ _. IsEnded self.new) }
        ensures open { OnErr result (¬ (IsEnded self.new)) }
    {
        self.plans.choose(self.alloc, &self.adjacency)
    }

    /// Gives the path of the chosen plan, or `None` where there is none.
    fn give(&mut self) -> Result<Option<(Vec<N, A>, C)>, PathError>
        requires clones { IsLawfulClone N.eq N.is_clone }
        requires walk { IsSomePathWalk N.eq C.value C.fits F.answers T.answers self.old }
        requires ready { (self.old.plans.has_begun ≡ true) × (self.old.plans.is_given ≡ false) }
        requires none { self.old.plans.chosen ≡ None → self.old.plans.waiting ≡ [] }
        requires free { ¬ (IsBarred self.old) }
        ensures steps { OfPathWalk N.eq C.value C.fits F.answers T.answers self.old (λ edges start test.
            IsPathWalk N.eq C.value edges start test C.fits F.answers T.answers self.new × PathTurn N.eq C.value edges start test C.fits self.old result self.new) }
        ensures same { self.new.refused ≡ self.old.refused }
        ensures bar { self.new.barred ≡ self.old.barred }
    {
        let Some(chosen) = &self.plans.chosen else {
            return Ok(None);
        };
        let path = self.graph.nodes_at(self.alloc, &chosen.path)?;
        let cost = chosen.cost;
        self.given = self.given.and(&path, &cost);
        self.plans.is_given = true;
        Ok(Some((path, cost)))
    }

    /// The next path, or `None` where each was given. Where the step is refused, no plan is lost.
    pub(crate) fn step(&mut self) -> Result<Option<(Vec<N, A>, C)>, PathError>
        requires clones { IsLawfulClone N.eq N.is_clone }
        requires walk { IsSomePathWalk N.eq C.value C.fits F.answers T.answers self.old }
        ensures steps { OfPathWalk N.eq C.value C.fits F.answers T.answers self.old (λ edges start test.
            IsPathWalk N.eq C.value edges start test C.fits F.answers T.answers self.new × PathTurn N.eq C.value edges start test C.fits self.old result self.new) }
        ensures bars { IsBarred self.old → IsErrOf result PathError.CostOverflow }
        ensures same { self.new.refused ≡ self.old.refused }
        ensures bar { self.new.barred ≡ self.old.barred }
    {
        if self.standing.is_barred() {
            // The same search would come to the same sum.
            return Err(PathError::CostOverflow);
        }
        self.explore_graph()?;
        self.choose()?;
        self.give()
    }
}

/// The clean paths of `start`, lazily, by rising cost: paths from `start` that contain no node twice
/// and meet a node that passes `success` at their end alone, each once, as clones of nodes, with its
/// cost. After any number of paths, no clean path that was not given costs less than one that was.
/// Where no step was refused, `None` comes only when all were given, and for good: no path and no
/// refusal comes after it. In which order paths of one cost come is open.
///
/// `successors` lists the edges of a node, each as the node that it leads to and its cost; where
/// several edges lead to one node, a step costs what the cheapest of them costs. It must answer alike
/// for equal nodes at every call, and no cost in reach of `start` may be negative; `success` must
/// answer alike too. Both are asked of nodes in reach alone, in the first calls of `next`, until one of
/// them is not refused: it goes through every node to which a walk leads whose nodes before it do not
/// pass, whether or not a clean path goes over it, so that the reach must be finite.
///
/// # Errors
///
/// This call answers `OutOfMemory` where a request for memory was refused. A step is
///
/// - `Err(CostOverflow)` only where a path from `start`, in which no node stands twice and none passes
///   `success`, and one step more, by the cheapest of the parallel edges, cost more than `C` can hold;
///   before the first path was given, also only where a cheapest path to some node and one step more
///   cost more than `C` can hold and no node that passes is cheaper than that node, as for `dijkstra`;
///   after a path was given, also only where that path with its step begins with some of the first
///   nodes of the path that was given last and goes on to a node to which no given path goes on from
///   them, and no clean path that does so costs less than that path without its step;
/// - `Err(OutOfMemory)` where a request for memory was refused.
///
/// A refused step loses no path; the walk then answers `None` until `resume` is called, and tries the
/// same step again. A step that was refused with `CostOverflow` is refused with it again after each
/// `resume`.
///
/// The algorithm is Yen's (J. Y. Yen, "Finding the k shortest loopless paths in a network", 1971),
/// with the classes of E. L. Lawler, "A procedure for computing the k best solutions", 1972.
pub fn yen_paths<N, C, IN, FN, FS, A>(
    alloc: A,
    start: &N,
    successors: FN,
    success: FS,
) -> Result<YenPaths<N, C, FN, FS, A>, PathError>
where
    N: Eq + Hash + Clone + Drop,
    C: Cost,
    IN: IntoIterator<Item = (N, C)>,
    FN: FnMut(&N) -> IN,
    FS: FnMut(&N) -> bool,
    A: Allocator + Copy,
    requires clones { IsLawfulClone N.eq N.is_clone }
    ensures begins { IfOk result (λ walk. (walk.given ≡ []) × (walk.refused ≡ false) × ¬ (IsBarred walk) × (walk.successors ≡ successors) × (walk.success ≡ success)) }
    ensures graph { IfOk result (λ walk. OfWeightedSearch N.eq (start.now ∷ []) (⟦<FN as EdgeFunction<N, C>>⟧.answers successors) (⟦<FS as NodeTest<N>>⟧.answers success) (λ edges test.
        IsPathWalk N.eq C.value edges start.now test C.fits ⟦<FN as EdgeFunction<N, C>>⟧.answers ⟦<FS as NodeTest<N>>⟧.answers walk)) }
    ensures refused { IfErr result (λ e. e ≡ PathError.OutOfMemory) }
{
    YenPaths::new(alloc, start, successors, success)
}
