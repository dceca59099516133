//! Nodes in preorder (depth-first search), one at a time.

ghost use Rattle.std.specs.Prelude.{◌≡◌, ◌<◌, ◌∷◌, ◌-◌, [], ℕ, List, Some, None, false, IfOk, IfErr, IfSome, IsOk, length, Contains};
ghost use Rattle.std.specs.Iterator.{MakesProgress, at_most};
ghost use Rattle.std.specs.List.{AllZip};
ghost use Rattle.pf_base.specs.Answers.{IsLawfulClone};
ghost use Rattle.pf_base.specs.Orders.{found_from, last_nodes};
ghost use Rattle.pf_base.specs.Successors.{OfUnweightedGraph};
ghost use Rattle.pf_core.specs.Nodes.{StandsFor};
ghost use Rattle.pf_search.specs.DepthWalks.{DepthWalk, IsDepthWalk, IsSomeDepthWalk, OfDepthWalk, DepthStep, StandsAt};
ghost use Rattle.pf_search.specs.Internal.DepthTurns.{DepthGoes};
ghost use Rattle.pf_search.specs.Items.{most_items};

use crate::directed::bfs_reach::put_start;
use indexmap::IndexSet;
use pf_base::{PathError, SuccessorFunction};
use pf_core::numbered::NumberedGraph;
use pf_discovery::depth_first::DepthFirst;
use pf_discovery::discovery::{DiscoveryBy, Nodes};
use pf_discovery::numbering::Numbering;
use pf_discovery::source::Unweighted;
use std::alloc::{Allocator, Global};
use std::hash::Hash;
use std::marker::Model;

/// The nodes in reach of a start in preorder, each as a `Result`, with numbers by `M`.
#[derive(Drop)]
pub struct DfsReachableBy<M: Numbering, F, A: Allocator> {
    start: Option<M::Node>,
    graph: DiscoveryBy<M, Unweighted<F>>,
    walk: DepthFirst<A>,
    refused: bool,
}

/// The nodes in reach of a start in preorder, each as a `Result`: made by `dfs_reach`.
pub type DfsReachable<N, F, A = Global> = DfsReachableBy<Nodes<N, A>, F, A>;

/// Clones of the nodes that the numbers of a path stand for.
pub(crate) fn clones_along<N, A>(
    alloc: A,
    nodes: &[N],
    numbers: &[u32],
) -> Result<Vec<N, A>, PathError>
where
    N: Eq + Clone + Drop,
    A: Allocator + Copy,
    requires inside { (k : ℕ) → Contains numbers.now k → k < length nodes.now }
    requires clones { IsLawfulClone N.eq N.is_clone }
    ensures nodes { IfOk result (λ path. AllZip (StandsFor N.eq nodes.now) numbers.now path.items) }
    ensures refused { IfErr result (λ e. e ≡ PathError.OutOfMemory) }
{
    let mut path = Vec::with_capacity(alloc, numbers.len())?;
    'numbers: for number in numbers {
        let node = nodes[*number as usize].clone()?;
        path.push(node)?;
    }
    Ok(path)
}

impl<M: Numbering, F, A: Allocator> Model for DfsReachableBy<M, F, A> {
    ghost use Rattle.std.specs.Prelude.{◌<◌, ◌^◌, length};
    ghost use Rattle.pf_search.specs.DepthWalks.{DepthWalk, walk_code};
    ghost use Rattle.pf_search.specs.Internal.Breadth.{found_or};
    ghost use Rattle.pf_search.specs.Internal.Depth.{stack_of, walk_with, ArePlaces};

    ghost Value = { DepthWalk M.Node F };

    ghost coded = { walk_code M.Node.code F.code };

    ghost view = { λ s. walk_with (found_or s.start (M.keys s.graph.nodes)) (stack_of s.walk) s.refused s.graph.source.function };

    ghost invariant = { λ s. ArePlaces s.start (M.keys s.graph.nodes) s.walk.given × (length s.walk.given < 2 ^ 32) };
}

impl<N, M, F, A> DfsReachableBy<M, F, A>
where
    N: Eq + Clone + Drop,
    M: Numbering<Node = N>,
    F: SuccessorFunction<N>,
    A: Allocator + Copy,
{
    /// A walk as `dfs_reach` makes it, over any function of the trait, whose nodes are numbered by any
    /// numbering that has none yet. This call takes no memory.
    pub fn over(alloc: A, nodes: M, start: N, successors: F) -> DfsReachableBy<M, F, A>
        requires empty { M.keys nodes ≡ [] }
        ensures ready { result.refused ≡ false }
        ensures graph { OfUnweightedGraph N.eq (start ∷ []) (F.answers successors) (λ next. IsDepthWalk N.eq F.answers next start [] result) }
    {
        DfsReachableBy {
            start: Some(start),
            graph: DiscoveryBy {
                nodes,
                source: Unweighted {
                    function: successors,
                },
            },
            walk: DepthFirst::new(alloc),
            refused: false,
        }
    }

    /// Goes along the next tree path, and answers a clone of its last node. Where memory is refused, the
    /// walk stays where it is.
    pub(crate) fn step(&mut self) -> Result<Option<N>, PathError>
        requires clones { IsLawfulClone N.eq N.is_clone }
        requires graph { IsSomeDepthWalk N.eq F.answers self.old }
        ensures same { self.new.refused ≡ self.old.refused }
        ensures walks { OfDepthWalk N.eq F.answers self.old (λ next start paths.
            DepthGoes N.eq next start (λ done. IsDepthWalk N.eq F.answers next start done self.new) paths result) }
        ensures refused { IfErr result (λ e. e ≡ PathError.OutOfMemory) }
    {
        put_start(&mut self.start, &mut self.graph.nodes)?;
        match self.walk.next_branch() {
            None => Ok(None),
            Some(branch) => {
                let node = self.graph.nodes.as_slice()[branch.number as usize].clone()?;
                self.walk.visit(&mut self.graph, branch)?;
                Ok(Some(node))
            }
        }
    }
}

impl<N, M, F, A> Iterator for DfsReachableBy<M, F, A>
where
    N: Eq + Clone + Drop,
    M: Numbering<Node = N> + Drop,
    F: SuccessorFunction<N>,
    A: Allocator + Copy,
{
    type Item = Result<N, PathError>;

    ghost can_next = { λ s. IsLawfulClone N.eq N.is_clone × IsSomeDepthWalk N.eq F.answers s };

    ghost next_gives = { λ s r t. OfDepthWalk N.eq F.answers s (λ next start paths.
        DepthStep N.eq next start (IsDepthWalk N.eq F.answers next start) paths s r t) };

    ghost remaining = { λ s. at_most (most_items (length s.given) s.refused) };

    /// The last node of the next tree path in preorder: the deepest node of the last tree path that has a
    /// successor not yet given is followed by the first such successor. `None` where no node of the path
    /// has one, and from then on.
    ///
    /// After an `Err` the walk is as before that step, and answers `None` until `resume` is called.
    fn next(&mut self) -> Option<Result<N, PathError>>
        requires { ⟦<DfsReachableBy<M, F, A> as Iterator>⟧.can_next self.old }
        ensures steps { ⟦<DfsReachableBy<M, F, A> as Iterator>⟧.next_gives self.old result self.new }
        ensures goes { MakesProgress ⟦<DfsReachableBy<M, F, A> as Iterator>⟧.can_next ⟦<DfsReachableBy<M, F, A> as Iterator>⟧.remaining self.old result self.new }
        ensures again { ⟦<DfsReachableBy<M, F, A> as Iterator>⟧.can_next self.new }
        ensures refused { IfSome result (λ item. IfErr item (λ e. e ≡ PathError.OutOfMemory)) }
    {
        if self.refused {
            return None;
        }
        let step = self.step();
        self.refused = step.is_err();
        step.transpose()
    }
}

impl<N, F, A> DfsReachable<N, F, A>
where
    N: Eq + Hash + Clone + Drop,
    F: SuccessorFunction<N>,
    A: Allocator + Copy,
{
    /// A walk as `dfs_reach` makes it, over any function of the trait: a closure, or a type of the
    /// caller's own that implements it.
    ///
    /// # Errors
    ///
    /// None, as of `dfs_reach`.
    pub fn new(alloc: A, start: N, successors: F) -> Result<DfsReachable<N, F, A>, PathError>
        ensures ready { IfOk result (λ walk. walk.refused ≡ false) }
        ensures graph { OfUnweightedGraph N.eq (start ∷ []) (F.answers successors) (λ next.
            IfOk result (λ walk. IsDepthWalk N.eq F.answers next start [] walk)) }
        ensures good { IsOk result }
    {
        Ok(DfsReachableBy::over(alloc, IndexSet::new(alloc), start, successors))
    }
}

/// The nodes in reach of the start, one at a time in the order in which a recursive depth-first search
/// first meets them (preorder), successors in the order in which they are answered.
///
/// `successors` lists the nodes that follow a node. It must answer alike for equal nodes at every
/// call; it is asked of nodes in reach of the start alone, and of a node only when that is given. An
/// item is a clone of a node, or a refusal: see `DfsReachable`.
///
/// No finite reach is asked. A `for` over a walk ends, since the walk holds the nodes that it found: on
/// an endless graph it ends with a refusal, unless a limit, as of `take`, comes first.
///
/// # Errors
///
/// None: the start is moved in by the first call of `next`, and memory is taken from then on.
///
/// The order is that of depth-first search (R. Tarjan, "Depth-first search and linear graph algorithms",
/// 1972). A step takes the time of its node's successors, and of branches to visited nodes, each once.
pub fn dfs_reach<N, IN, FN, A>(
    alloc: A,
    start: N,
    successors: FN,
) -> Result<DfsReachable<N, FN, A>, PathError>
where
    N: Eq + Hash + Clone + Drop,
    IN: IntoIterator<Item = N>,
    FN: FnMut(&N) -> IN,
    A: Allocator + Copy,
    ensures ready { IfOk result (λ walk. walk.refused ≡ false) }
    ensures graph { OfUnweightedGraph N.eq (start ∷ []) (⟦<FN as SuccessorFunction<N>>⟧.answers successors) (λ next.
        IfOk result (λ walk. IsDepthWalk N.eq (⟦<FN as SuccessorFunction<N>>⟧.answers) next start [] walk)) }
    ensures good { IsOk result }
{
    DfsReachable::new(alloc, start, successors)
}

impl<N, M, F, A> DfsReachableBy<M, F, A>
where
    N: Eq,
    M: Numbering<Node = N>,
    F: SuccessorFunction<N>,
    A: Allocator,
{
    /// Lets the next call of `next` try again the step that was refused. Where no step was refused
    /// since the last call of `resume`, this changes nothing.
    pub fn resume(&mut self)
        ensures lowered { self.new ≡ record self.old { refused = false } }
        ensures graph { OfDepthWalk N.eq F.answers self.old (λ next start paths. IsDepthWalk N.eq F.answers next start paths self.new) }
    {
        self.refused = false;
    }
}

impl<N, M, F, A> DfsReachableBy<M, F, A>
where
    N: Eq,
    M: Numbering<Node = N>,
    A: Allocator,
{
    /// The number of nodes that were found (the start, and each successor of a given node) and not
    /// yet given, each once. At least so many nodes are still to come.
    pub fn remaining_nodes_low_bound(&self) -> usize
        ensures left { result ≡ length self.now.found - length self.now.given }
        ensures graph { (next : N → List N) (start : N) (paths : List (List N))
            → StandsAt N.eq next start paths self.now
            → result ≡ length (found_from N.eq next start (last_nodes paths)) - length paths }
    {
        let found = match &self.start {
            Some(_) => 1,
            None => self.graph.nodes.len(),
        };
        found.saturating_sub(self.walk.given.len())
    }
}
