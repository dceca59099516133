//! All cheapest paths, led by an estimate of the cost that remains.

ghost use Rattle.std.specs.Prelude.{◌≡◌, ◌⊎◌, ◌≤◌, ℤ, List, Bool, [], ◌∷◌, Err, false, ⊤, IfOk, IfErr, MatchOption, length};
ghost use Rattle.std.specs.Iterator.{MakesProgress, at_most};
ghost use Rattle.pf_base.specs.Answers.{IsLawfulClone};
ghost use Rattle.pf_informed.specs.CheapestPaths.{AreCheapestCleanPathsOrNone, IsPathsClone, PathsStep, lists_in, most_items};
ghost use Rattle.pf_informed.specs.Estimates.{AnswersInformedSearch, MayOverflow, OfInformedSearch};
ghost use Rattle.pf_informed.specs.Internal.Led.{AnswersLedSearch, IsNew, OfLedSearch};
ghost use Rattle.pf_informed.specs.Internal.Ways.{AreGathered, AreWaysIn, PathsTurn, paths_in};

use crate::cheapest_labels::label_cheapest;
use crate::discovered::astar_bag_of;
use crate::functions::EstimateFunction;
use crate::search::Search;
use crate::tight::tight_edges;
use crate::ways::Ways;
use pf_base::{Cost, EdgeFunction, NodeTest, PathError};
use pf_core::clones::clones_at;
use pf_discovery::discovery::{Discovery, Nodes, clone_of};
use pf_discovery::numbering::{CloneNumbering, Numbering};
use pf_discovery::source::{EdgeSource, Weighted};
use pf_discovery::tested::{Tested, TestedBy};
use std::alloc::{AllocError, Allocator, Global};
use std::hash::Hash;
use std::marker::Model;

/// All cheapest clean paths, each as a `Result`, once: made by `astar_bag`. The nodes are numbered by `M`.
#[derive(Drop)]
pub struct AstarSolutionBy<M: Numbering, A: Allocator = Global> {
    alloc: A,
    nodes: M,
    ways: Ways<A>,
    refused: bool,
}

/// All cheapest clean paths, of nodes that are numbered by their hashes.
pub type AstarSolution<N, A = Global> = AstarSolutionBy<Nodes<N, A>, A>;

impl<M: Numbering, A: Allocator> Model for AstarSolutionBy<M, A> {
    ghost use Rattle.std.specs.Prelude.{◌≤◌, length};
    ghost use Rattle.pf_informed.specs.CheapestPaths.{PathsToCome, paths_to_come_code};
    ghost use Rattle.pf_informed.specs.Internal.Ways.{AreWaysIn, nothing_waits, paths_in};

    ghost Value = { PathsToCome M.Node };

    ghost coded = { paths_to_come_code M.Node.code };

    ghost view = { λ s. record { left = paths_in (M.keys s.nodes) s.ways; refused = s.refused; ended = nothing_waits s.ways.waiting.items } };

    ghost invariant = { λ s. AreWaysIn s.ways × (length s.ways.before ≤ length (M.keys s.nodes)) };
}

/// A clone has the paths to come that the original has, in the same order, of clones of the nodes; it
/// was refused where the original was, and is at its end where the original is. The only error is a
/// refused request for memory.
impl<N, M, A> Clone for AstarSolutionBy<M, A>
where
    N: Eq + Clone + Drop,
    M: Numbering<Node = N> + CloneNumbering<N> + Drop,
    A: Allocator + Copy,
{
    ghost is_clone = { IsPathsClone N.is_clone };

    fn clone(&self) -> Result<Self, AllocError> {
        let nodes = self.nodes.clone()?;
        let ways = self.ways.clone()?;
        Ok(AstarSolutionBy {
            alloc: self.alloc,
            nodes,
            ways,
            refused: self.refused,
        })
    }
}

impl<N, M, A> Iterator for AstarSolutionBy<M, A>
where
    N: Eq + Clone + Drop,
    M: Numbering<Node = N> + Drop,
    A: Allocator + Copy,
{
    type Item = Result<Vec<N, A>, PathError>;

    ghost remaining = { λ s. at_most (most_items s) };

    ghost can_next = { λ s. IsLawfulClone N.eq N.is_clone };

    ghost next_gives = { PathsStep N.eq };

    fn next(&mut self) -> Option<Result<Vec<N, A>, PathError>>
        requires { ⟦<AstarSolutionBy<M, A> as Iterator>⟧.can_next self.old }
        ensures steps { ⟦<AstarSolutionBy<M, A> as Iterator>⟧.next_gives self.old result self.new }
        ensures goes { MakesProgress ⟦<AstarSolutionBy<M, A> as Iterator>⟧.can_next ⟦<AstarSolutionBy<M, A> as Iterator>⟧.remaining self.old result self.new }
        ensures again { ⟦<AstarSolutionBy<M, A> as Iterator>⟧.can_next self.new }
    {
        if self.refused {
            return None;
        }
        let step = self.step();
        self.refused = step.is_err();
        step.transpose()
    }
}

impl<N, M, A> AstarSolutionBy<M, A>
where
    N: Eq + Clone + Drop,
    M: Numbering<Node = N> + Drop,
    A: Allocator + Copy,
{
    /// Lets the next call of `next` try again the step that was refused. Where no step was refused
    /// since the last call of `resume`, this changes nothing.
    pub fn resume(&mut self)
        ensures { self.new ≡ record self.old { refused = false } }
    {
        self.refused = false;
    }

    /// The next path, or `None` where no path is to come. Where memory is refused, the same paths are
    /// to come.
    fn step(&mut self) -> Result<Option<Vec<N, A>>, PathError>
        requires { IsLawfulClone N.eq N.is_clone }
        ensures turn { PathsTurn N.eq self.old result self.new }
        ensures same { self.new.refused ≡ self.old.refused }
        ensures refused { IfErr result (λ e. e ≡ PathError.OutOfMemory) }
    {
        if !self.ways.find()? {
            return Ok(None);
        }
        let mut path = clones_at(self.alloc, self.nodes.as_slice(), &self.ways.way)?;
        path.reverse();
        self.ways.drop_branch();
        Ok(Some(path))
    }
}

/// Searches from the only node that was found, with nothing known of it yet, for all cheapest ways back
/// from goals, and their cost.
pub(crate) fn find_ways<N, M, C, S, T, H, A>(
    alloc: A,
    graph: &mut TestedBy<M, S, T>,
    estimate: &mut H,
    search: &mut Search<C, A>,
) -> Result<Option<(Ways<A>, C)>, PathError>
where
    N: Eq + Drop,
    M: Numbering<Node = N>,
    C: Cost,
    S: EdgeSource<N, C>,
    T: NodeTest<N>,
    H: EstimateFunction<N, C>,
    A: Allocator + Copy,
    requires one { length (M.keys graph.old.discovery.nodes) ≡ 1 }
    requires new { IsNew search.old }
    requires graph { AnswersLedSearch M.keys N.eq C.value S.answers T.answers H.answers graph.old estimate.old search.old.estimates.items }

    ensures all { OfLedSearch M.keys N.eq C.value S.answers T.answers H.answers graph.old estimate.old search.old.estimates.items (λ start edges test least.
        IfOk result (AreCheapestCleanPathsOrNone N.eq edges (start ∷ []) test (paths_in (M.keys graph.new.discovery.nodes)) C.value)) }

    ensures ways { IfOk result (λ answer. MatchOption answer ⊤
        (λ found. AreWaysIn found.0 × (length found.0.before ≤ length (M.keys graph.new.discovery.nodes)))) }

    ensures overflow { OfLedSearch M.keys N.eq C.value S.answers T.answers H.answers graph.old estimate.old search.old.estimates.items (λ start edges test least.
        result ≡ Err PathError.CostOverflow → MayOverflow N.eq edges (start ∷ []) test least C.fits) }

    ensures errors { IfErr result (λ e. (e ≡ PathError.OutOfMemory) ⊎ (e ≡ PathError.CostOverflow)) }
{
    let Some(best) = label_cheapest(graph, estimate, search)? else {
        return Ok(None);
    };
    let tight = tight_edges(alloc, graph, &search.labels, &mut search.row, best)?;
    let ways = Ways::new(alloc, tight.before, &tight.goals)?;
    Ok(Some((ways, best)))
}

/// The paths over nodes of the ways that were found, and their cost.
pub(crate) fn solution_of<N, M, C, A>(
    alloc: A,
    nodes: M,
    found: Result<Option<(Ways<A>, C)>, PathError>,
) -> Result<Option<(AstarSolutionBy<M, A>, C)>, PathError>
where
    N: Eq + Drop,
    M: Numbering<Node = N> + Drop,
    C: Copy,
    A: Allocator,
    requires { IfOk found (λ answer. MatchOption answer ⊤
        (λ found. AreWaysIn found.0 × (length found.0.before ≤ length (M.keys nodes)))) }

    ensures all { (value : C → ℤ) (start : N) (edges : N → List (N × ℤ)) (test : N → Bool)
        → IfOk found (AreCheapestCleanPathsOrNone N.eq edges (start ∷ []) test (paths_in (M.keys nodes)) value)
        → IfOk result (AreCheapestCleanPathsOrNone N.eq edges (start ∷ []) test (λ paths. paths.left) value) }

    ensures ready { IfOk result (λ answer. MatchOption answer ⊤ (λ found. found.0.refused ≡ false)) }
    ensures errors { (e : PathError) → result ≡ Err e → found ≡ Err e }
{
    match found {
        Ok(Some((ways, best))) => {
            let solution = AstarSolutionBy {
                alloc,
                nodes,
                ways,
                refused: false,
            };
            Ok(Some((solution, best)))
        }
        Ok(None) => Ok(None),
        Err(refusal) => Err(refusal),
    }
}

/// All cheapest clean paths from `start` to nodes that pass `success`, each once, and their cost, or
/// `None` exactly where no walk leads from `start` to such a node.
///
/// A clean path begins at `start`, contains no node twice, and only its last node passes. A cheapest
/// one costs at most what every walk from `start` to a node that passes costs. Where several edges
/// lead to one node, they are one step, which costs what the cheapest of them costs; two paths of
/// equal nodes are one path. In which order the paths come is open.
///
/// `successors`, `estimate` and `success` are as for `astar`: they answer alike for equal nodes at
/// every call and are asked of nodes in reach of `start` alone, no cost in reach is negative, and the
/// estimate is never negative and never above the cost of a walk to a node that passes.
///
/// The iterator keeps one path and its choices, not all paths. Where all costs are above zero, no
/// choice ends without a path, so that the time between two paths is at most linear in the steps that
/// lie on cheapest paths at its nodes; with cycles that cost nothing, a choice may lead back to the
/// path alone, and such choices are tried too.
///
/// `pf_search/CALLING.md` has the lemmas by which a caller proves the clause `graph`.
///
/// # Errors
///
/// - `CostOverflow`: only where the cost of some path from `start`, in which no node stands twice, and
///   the estimate of its last node do not fit `C` together, and no walk to a node that passes has a
///   cost that fits.
/// - `OutOfMemory`: a request for memory was refused. A step of the iterator that is refused leaves the
///   paths to come as they were; the iterator then answers `None` until `resume` is called, and tries
///   the same step again. Where no path is left, `None` comes for good, though with cycles that cost
///   nothing a step before the first such `None` can be refused still.
///
/// The algorithm is A* (P. E. Hart, N. J. Nilsson, B. Raphael, "A formal basis for the heuristic
/// determination of minimum cost paths", 1968), which goes on until all that waits costs more than
/// the first goal; then the paths are walked back over the steps that keep the least costs. For these
/// each node that was found at a cost of at most that of the paths is tested, and where it does not pass
/// asked for its edges, whether or not it was before.
pub fn astar_bag<N, C, IN, FN, FH, FS, A>(
    alloc: A,
    start: &N,
    successors: FN,
    estimate: FH,
    success: FS,
) -> Result<Option<(AstarSolution<N, A>, C)>, PathError>
where
    N: Eq + Hash + Clone + Drop,
    C: Cost,
    IN: IntoIterator<Item = (N, C)>,
    FN: FnMut(&N) -> IN,
    FH: FnMut(&N) -> C,
    FS: FnMut(&N) -> bool,
    A: Allocator + Copy,
    requires clones { IsLawfulClone N.eq N.is_clone }
    requires graph { AnswersInformedSearch N.eq (start.now ∷ [])
        (⟦<FN as EdgeFunction<N, C>>⟧.answers successors) (⟦<FS as NodeTest<N>>⟧.answers success) (⟦<FH as EstimateFunction<N, C>>⟧.answers estimate) }

    ensures all { OfInformedSearch N.eq (start.now ∷ [])
        (⟦<FN as EdgeFunction<N, C>>⟧.answers successors) (⟦<FS as NodeTest<N>>⟧.answers success) (⟦<FH as EstimateFunction<N, C>>⟧.answers estimate) (λ edges test least.
        IfOk result (AreCheapestCleanPathsOrNone N.eq edges (start.now ∷ []) test (λ paths. paths.left) C.value)) }

    ensures ready { IfOk result (λ answer. MatchOption answer ⊤ (λ found. found.0.refused ≡ false)) }

    ensures overflow { OfInformedSearch N.eq (start.now ∷ [])
        (⟦<FN as EdgeFunction<N, C>>⟧.answers successors) (⟦<FS as NodeTest<N>>⟧.answers success) (⟦<FH as EstimateFunction<N, C>>⟧.answers estimate) (λ edges test least.
        result ≡ Err PathError.CostOverflow → MayOverflow N.eq edges (start.now ∷ []) test least C.fits) }

    ensures errors { IfErr result (λ e. (e ≡ PathError.OutOfMemory) ⊎ (e ≡ PathError.CostOverflow)) }
{
    let discovery = Discovery {
        nodes: clone_of(alloc, start)?,
        source: Weighted {
            function: successors,
        },
    };
    astar_bag_of(alloc, Tested { discovery, success }, estimate)
}

/// The paths that an iterator gives.
fn gather<N, M, A>(
    alloc: A,
    solution: &mut AstarSolutionBy<M, A>,
) -> Result<Vec<Vec<N, A>, A>, PathError>
where
    N: Eq + Clone + Drop,
    M: Numbering<Node = N> + Drop,
    A: Allocator + Copy,
    requires clones { IsLawfulClone N.eq N.is_clone }
    requires ready { solution.old.refused ≡ false }
    ensures all { IfOk result (λ paths. AreGathered N.eq paths.items solution.old.left) }
    ensures refused { IfErr result (λ e. e ≡ PathError.OutOfMemory) }
{
    let mut paths = Vec::new(alloc);
    'paths: while let Some(path) = solution.next() {
        paths.push(path?)?;
    }
    Ok(paths)
}

/// The paths of an iterator, if there is one, and their cost.
pub(crate) fn collected<N, M, C, A>(
    alloc: A,
    found: Result<Option<(AstarSolutionBy<M, A>, C)>, PathError>,
) -> Result<Option<(Vec<Vec<N, A>, A>, C)>, PathError>
where
    N: Eq + Clone + Drop,
    M: Numbering<Node = N> + Drop,
    C: Copy,
    A: Allocator + Copy,
    requires clones { IsLawfulClone N.eq N.is_clone }
    requires ready { IfOk found (λ answer. MatchOption answer ⊤ (λ found. found.0.refused ≡ false)) }

    ensures all { (value : C → ℤ) (start : N) (edges : N → List (N × ℤ)) (test : N → Bool)
        → IfOk found (AreCheapestCleanPathsOrNone N.eq edges (start ∷ []) test (λ paths. paths.left) value)
        → IfOk result (AreCheapestCleanPathsOrNone N.eq edges (start ∷ []) test (λ paths. lists_in paths.items) value) }

    ensures errors { IfErr result (λ e. (found ≡ Err e) ⊎ (e ≡ PathError.OutOfMemory)) }
{
    let Some((mut solution, cost)) = found? else {
        return Ok(None);
    };
    let paths = gather(alloc, &mut solution);
    drop(solution);
    let paths = paths?;
    Ok(Some((paths, cost)))
}

/// All cheapest clean paths from `start` to nodes that pass `success`, each once, and their cost: what
/// `astar_bag` answers, gathered. Their number can be exponential in that of the nodes.
///
/// `pf_search/CALLING.md` has the lemmas by which a caller proves the clause `graph`.
///
/// # Errors
///
/// As those of `astar_bag`.
pub fn astar_bag_collect<N, C, IN, FN, FH, FS, A>(
    alloc: A,
    start: &N,
    successors: FN,
    estimate: FH,
    success: FS,
) -> Result<Option<(Vec<Vec<N, A>, A>, C)>, PathError>
where
    N: Eq + Hash + Clone + Drop,
    C: Cost,
    IN: IntoIterator<Item = (N, C)>,
    FN: FnMut(&N) -> IN,
    FH: FnMut(&N) -> C,
    FS: FnMut(&N) -> bool,
    A: Allocator + Copy,
    requires clones { IsLawfulClone N.eq N.is_clone }
    requires graph { AnswersInformedSearch N.eq (start.now ∷ [])
        (⟦<FN as EdgeFunction<N, C>>⟧.answers successors) (⟦<FS as NodeTest<N>>⟧.answers success) (⟦<FH as EstimateFunction<N, C>>⟧.answers estimate) }

    ensures all { OfInformedSearch N.eq (start.now ∷ [])
        (⟦<FN as EdgeFunction<N, C>>⟧.answers successors) (⟦<FS as NodeTest<N>>⟧.answers success) (⟦<FH as EstimateFunction<N, C>>⟧.answers estimate) (λ edges test least.
        IfOk result (AreCheapestCleanPathsOrNone N.eq edges (start.now ∷ []) test (λ paths. lists_in paths.items) C.value)) }

    ensures overflow { OfInformedSearch N.eq (start.now ∷ [])
        (⟦<FN as EdgeFunction<N, C>>⟧.answers successors) (⟦<FS as NodeTest<N>>⟧.answers success) (⟦<FH as EstimateFunction<N, C>>⟧.answers estimate) (λ edges test least.
        result ≡ Err PathError.CostOverflow → MayOverflow N.eq edges (start.now ∷ []) test least C.fits) }

    ensures errors { IfErr result (λ e. (e ≡ PathError.OutOfMemory) ⊎ (e ≡ PathError.CostOverflow)) }
{
    let found = astar_bag(alloc, start, successors, estimate, success);
    collected(alloc, found)
}
