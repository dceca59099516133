//! The nodes in reach of a start by rising cost, one at a time.

ghost use Rattle.std.specs.Prelude.{◌≡◌, ◌<◌, ◌+◌, [], ◌∷◌, List, ℤ, None, false, length, IfOk, IfErr, IfSome, MatchOption};
ghost use Rattle.std.specs.Iterator.{MakesProgress, at_most};
ghost use Rattle.pf_base.specs.Answers.{IsLawfulClone};
ghost use Rattle.pf_base.specs.Edges.{OfWeightedGraph};
ghost use Rattle.pf_base.specs.NodeRefs.{HasSameNodes};
ghost use Rattle.pf_core.specs.declared.labels.Label.{Label};
ghost use Rattle.pf_core.specs.Labels.{HasLabel};
ghost use Rattle.pf_core.specs.Nodes.{StandsFor};
ghost use Rattle.pf_search.specs.CheapestFirst.{IsCheapestWalk, IsSomeCheapestWalk, OfCheapestWalk, IsBarred, CheapestStep, StepKeepsBar};
ghost use Rattle.pf_search.specs.Internal.CheapestTurns.{CheapestTurn, TurnKeepsBar};
ghost use Rattle.pf_search.specs.Items.{most_items};

use pf_base::{Cost, EdgeFunction, PathError};
use pf_core::labels::label_of;
use pf_core::search::Search;
use pf_core::slot::Slot;
use pf_discovery::discovery::{DiscoveryBy, Nodes, clone_of};
use pf_discovery::numbering::Numbering;
use pf_discovery::source::Weighted;
use std::alloc::{Allocator, Global};
use std::hash::Hash;
use std::marker::Model;

/// A node that a walk by rising cost gives, the node before it on a cheapest path to it (the start
/// has none), and what that path costs.
#[derive(Clone, Debug, PartialEq, Eq, Hash, Drop)]
pub struct DijkstraReachableItem<N, C> {
    pub node: N,
    pub parent: Option<N>,
    pub total_cost: C,
}

/// What is given for the node of a number that has a label.
fn item_at<N, C, A>(
    nodes: &[N],
    labels: &Vec<Slot<C>, A>,
    number: usize,
) -> Result<DijkstraReachableItem<N, C>, PathError>
where
    N: Eq + Clone + Drop,
    C: Cost,
    A: Allocator,
    requires clones { IsLawfulClone N.eq N.is_clone }
    requires labelled { (l : Label C) × HasLabel labels.now.items number l }
    requires inside { number < length nodes.now }
    requires behind { (l : Label C) → HasLabel labels.now.items number l → 0 < l.depth → l.parent < length nodes.now }
    ensures item { IfOk result (λ item. (l : Label C) × HasLabel labels.now.items number l × (item.total_cost ≡ l.cost) × StandsFor N.eq nodes.now number item.node
        × MatchOption item.parent (l.depth ≡ 0) (λ parent. (0 < l.depth) × StandsFor N.eq nodes.now l.parent parent)) }
    ensures refused { IfErr result (λ e. e ≡ PathError.OutOfMemory) }
{
    let node = nodes[number].clone()?;
    let parent = match labels[number].parent() {
        Some(parent) => Some(nodes[parent].clone()?),
        None => None,
    };
    let label = label_of(labels, number);
    Ok(DijkstraReachableItem {
        node,
        parent,
        total_cost: label.cost,
    })
}

/// The nodes in reach of a start by rising cost, each as a `Result`, with numbers by `M`.
#[derive(Drop)]
pub struct DijkstraReachableBy<M: Numbering, C: Cost, F, A: Allocator> {
    discovery: DiscoveryBy<M, Weighted<F>>,
    search: Search<C, A>,
    refused: bool,
}

/// The nodes in reach of a start by rising cost, each as a `Result`: made by `dijkstra_reach`.
pub type DijkstraReachable<N, C, F, A = Global> = DijkstraReachableBy<Nodes<N, A>, C, F, A>;

impl<M: Numbering, C: Cost, F, A: Allocator> Model for DijkstraReachableBy<M, C, F, A> {
    ghost use Rattle.std.specs.Prelude.{◌≡◌, length};
    ghost use Rattle.pf_core.specs.Search.{IsSound};
    ghost use Rattle.pf_search.specs.CheapestFirst.{CheapestWalk, cheapest_walk_code};
    ghost use Rattle.pf_search.specs.Internal.CheapestSearch.{given_of, next_of};

    ghost Value = { CheapestWalk M.Node C F };

    ghost coded = { cheapest_walk_code M.Node.code C.code F.code };

    ghost view = { λ s. record {
      given = given_of (M.keys s.discovery.nodes) s.search.labels.items;
      refused = s.refused;
      successors = s.discovery.source.function;
      search = record { nodes = M.keys s.discovery.nodes; labels = s.search.labels.items; next = next_of s.search.labels.items s.search.queue.front };
    } };

    ghost invariant = { λ s. IsSound C.value s.search.labels.items s.search.queue.items × (length s.search.labels.items ≡ length (M.keys s.discovery.nodes)) };
}

impl<N, M, C, F, A> Iterator for DijkstraReachableBy<M, C, F, A>
where
    N: Eq + Clone + Drop,
    M: Numbering<Node = N> + Drop,
    C: Cost,
    F: EdgeFunction<N, C>,
    A: Allocator + Copy,
{
    type Item = Result<DijkstraReachableItem<N, C>, PathError>;

    ghost can_next = { λ s. IsLawfulClone N.eq N.is_clone × IsSomeCheapestWalk N.eq C.value F.answers s };

    ghost next_gives = { λ s r t. OfCheapestWalk N.eq C.value F.answers s (λ edges start.
        IsCheapestWalk N.eq C.value edges start F.answers t
        × CheapestStep N.eq C.value edges start C.fits s r t
        × StepKeepsBar N.eq C.value edges start C.fits s r t) };

    ghost remaining = { λ s. at_most (most_items (length s.given) s.refused) };

    fn next(&mut self) -> Option<Result<DijkstraReachableItem<N, C>, PathError>>
        requires { ⟦<DijkstraReachableBy<M, C, F, A> as Iterator>⟧.can_next self.old }
        ensures steps { ⟦<DijkstraReachableBy<M, C, F, A> as Iterator>⟧.next_gives self.old result self.new }
        ensures goes { MakesProgress ⟦<DijkstraReachableBy<M, C, F, A> as Iterator>⟧.can_next ⟦<DijkstraReachableBy<M, C, F, A> as Iterator>⟧.remaining self.old result self.new }
        ensures again { ⟦<DijkstraReachableBy<M, C, F, A> as Iterator>⟧.can_next self.new }
    {
        if self.refused {
            return None;
        }
        let step = self.step();
        self.refused = step.is_err();
        step.transpose()
    }
}

impl<N, M, C, F, A> DijkstraReachableBy<M, C, F, A>
where
    N: Eq + Clone + Drop,
    M: Numbering<Node = N>,
    C: Cost,
    F: EdgeFunction<N, C>,
    A: Allocator + Copy,
{
    /// A walk as `dijkstra_reach` makes it, over any function of the trait, whose nodes are numbered by
    /// any numbering that has the start and no other node.
    ///
    /// # Errors
    ///
    /// `OutOfMemory`: a request for memory was refused.
    pub fn over(
        alloc: A,
        nodes: M,
        successors: F,
    ) -> Result<DijkstraReachableBy<M, C, F, A>, PathError>
    where
        M: Drop,
        requires one { length (M.keys nodes) ≡ 1 }
        ensures begins { IfOk result (λ walk. (walk.given ≡ []) × (walk.refused ≡ false) × (walk.successors ≡ successors)) }
        ensures graph { (start : N) → HasSameNodes N.eq (M.keys nodes) (start ∷ [])
            → IfOk result (λ walk. OfWeightedGraph N.eq (start ∷ []) (F.answers successors) (λ edges.
            IsCheapestWalk N.eq C.value edges start F.answers walk)) }
        ensures refused { IfErr result (λ e. e ≡ PathError.OutOfMemory) }
    {
        let search = Search::begin(alloc, nodes.len(), 0)?;
        Ok(DijkstraReachableBy {
            discovery: DiscoveryBy {
                nodes,
                source: Weighted {
                    function: successors,
                },
            },
            search,
            refused: false,
        })
    }

    /// Lets the next call of `next` try again the step that was refused. Where no step was refused
    /// since the last call of `resume`, this changes nothing.
    pub fn resume(&mut self)
        ensures lowered { self.new ≡ record self.old { refused = false } }
        ensures graph { OfCheapestWalk N.eq C.value F.answers self.old (λ edges start. IsCheapestWalk N.eq C.value edges start F.answers self.new) }
        ensures bar { (edges : N → List (N × ℤ)) (start : N)
            → IsBarred N.eq C.value edges start C.fits self.old → IsBarred N.eq C.value edges start C.fits self.new }
    {
        self.refused = false;
    }

    /// The next item, or `None` where all that was found was given. Where the step is refused, what
    /// was found and given stays as it was.
    fn step(&mut self) -> Result<Option<DijkstraReachableItem<N, C>>, PathError>
        requires clones { IsLawfulClone N.eq N.is_clone }
        requires walk { IsSomeCheapestWalk N.eq C.value F.answers self.old }
        ensures steps { OfCheapestWalk N.eq C.value F.answers self.old (λ edges start.
            IsCheapestWalk N.eq C.value edges start F.answers self.new
            × CheapestTurn N.eq C.value edges start C.fits self.old result self.new) }
        ensures bars { OfCheapestWalk N.eq C.value F.answers self.old (λ edges start.
            TurnKeepsBar N.eq C.value edges start C.fits self.old result self.new) }
        ensures counts { IfOk result (λ given. IfSome given (λ _. length self.new.given ≡ length self.old.given + 1)) }
        ensures same { self.new.refused ≡ self.old.refused }
    {
        let Some(number) = self.search.least() else {
            return Ok(None);
        };
        let item = item_at(self.discovery.nodes.as_slice(), &self.search.labels, number)?;
        self.search.turn(&mut self.discovery, number)?;
        Ok(Some(item))
    }
}

impl<N, C, F, A> DijkstraReachable<N, C, F, A>
where
    N: Eq + Hash + Clone + Drop,
    C: Cost,
    F: EdgeFunction<N, C>,
    A: Allocator + Copy,
{
    /// A walk as `dijkstra_reach` makes it, over any function of the trait: a closure, or a type of
    /// the caller's own that implements it.
    ///
    /// # Errors
    ///
    /// `OutOfMemory`: a request for memory was refused.
    pub fn new(
        alloc: A,
        start: &N,
        successors: F,
    ) -> Result<DijkstraReachable<N, C, F, A>, PathError>
        requires clones { IsLawfulClone N.eq N.is_clone }
        ensures begins { IfOk result (λ walk. (walk.given ≡ []) × (walk.refused ≡ false) × (walk.successors ≡ successors)) }
        ensures graph { IfOk result (λ walk. OfWeightedGraph N.eq (start.now ∷ []) (F.answers successors) (λ edges.
            IsCheapestWalk N.eq C.value edges start.now F.answers walk)) }
        ensures refused { IfErr result (λ e. e ≡ PathError.OutOfMemory) }
    {
        let nodes = clone_of(alloc, start)?;
        DijkstraReachableBy::over(alloc, nodes, successors)
    }
}

/// A walk over the nodes in reach of `start`, lazily, by rising cost: each node once, as a clone, at
/// the cost of a cheapest path to it, with the node before it on such a path, which was given before.
///
/// `successors` lists the edges of a node, each as the node that it leads to and its cost; where
/// several edges lead to one node, a step costs what the cheapest of them costs. It must answer alike
/// for equal nodes at every call, and no cost in reach of `start` may be negative. It is asked of
/// nodes in reach alone. In which order nodes of one cost come, and which of several parents is named,
/// is open.
///
/// No finite reach is asked. A `for` over a walk ends, since the walk holds the nodes that it found: on
/// an endless graph it ends with a refusal, unless a limit, as of `take`, comes first.
///
/// # Errors
///
/// This call answers `OutOfMemory` where a request for memory was refused. A step is
///
/// - `Err(CostOverflow)` only where a cheapest path to a cheapest node that was not given and one step
///   more, by the cheapest of the parallel edges, cost more than `C` can hold;
/// - `Err(OutOfMemory)` where a request for memory was refused.
///
/// A refused step leaves what was found and given as it was, save what `successors` changes when it is
/// called; the walk then answers `None` until `resume` is called, and tries the same step again. A step
/// that was refused with `CostOverflow` is refused again after each `resume`.
///
/// The algorithm is Dijkstra's (E. W. Dijkstra, "A note on two problems in connexion with graphs",
/// 1959), with a queue that is sorted only as far as it is read.
pub fn dijkstra_reach<N, C, IN, FN, A>(
    alloc: A,
    start: &N,
    successors: FN,
) -> Result<DijkstraReachable<N, C, FN, A>, PathError>
where
    N: Eq + Hash + Clone + Drop,
    C: Cost,
    IN: IntoIterator<Item = (N, C)>,
    FN: FnMut(&N) -> IN,
    A: Allocator + Copy,
    requires clones { IsLawfulClone N.eq N.is_clone }
    ensures begins { IfOk result (λ walk. (walk.given ≡ []) × (walk.refused ≡ false) × (walk.successors ≡ successors)) }
    ensures graph { IfOk result (λ walk. OfWeightedGraph N.eq (start.now ∷ []) (⟦<FN as EdgeFunction<N, C>>⟧.answers successors) (λ edges.
        IsCheapestWalk N.eq C.value edges start.now (⟦<FN as EdgeFunction<N, C>>⟧.answers) walk)) }
    ensures refused { IfErr result (λ e. e ≡ PathError.OutOfMemory) }
{
    DijkstraReachable::new(alloc, start, successors)
}
