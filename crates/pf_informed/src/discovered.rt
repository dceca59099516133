//! Searches over what a discovery finds that holds its start alone, whatever numbers the nodes.

ghost use Rattle.std.specs.Prelude.{◌≡◌, ◌⊎◌, [], ◌∷◌, Err, IfOk, IfErr, MatchOption, false, ⊤, length};
ghost use Rattle.pf_base.specs.Edges.{IsCheapestOrNone};
ghost use Rattle.pf_base.specs.Answers.{IsLawfulClone};
ghost use Rattle.pf_informed.specs.CheapestPaths.{AreCheapestCleanPathsOrNone, lists_in};
ghost use Rattle.pf_informed.specs.Estimates.{MayOverflow};
ghost use Rattle.pf_informed.specs.Internal.Led.{AnswersLedSearch, OfLedSearch};

use crate::directed::astar_bag::{AstarSolutionBy, collected, find_ways, solution_of};
use crate::directed::idastar::known::Known;
use crate::directed::{astar, fringe, idastar};
use crate::fringe_lists::FringeLists;
use crate::functions::EstimateFunction;
use crate::search::Search;
use pf_base::{Cost, NodeTest, PathError};
use pf_discovery::numbering::Numbering;
use pf_discovery::source::EdgeSource;
use pf_discovery::tested::TestedBy;
use std::alloc::Allocator;

/// A cheapest path from the start of a discovery to a node that passes its test, with its cost, by the
/// search of `astar`.
pub fn astar_of<N, M, C, S, T, H, A>(
    alloc: A,
    mut graph: TestedBy<M, S, T>,
    mut estimate: H,
) -> Result<Option<(Vec<N, A>, C)>, PathError>
where
    N: Eq + Clone + Drop,
    M: Numbering<Node = N> + Drop,
    C: Cost,
    S: EdgeSource<N, C>,
    T: NodeTest<N>,
    H: EstimateFunction<N, C>,
    A: Allocator + Copy,
    requires clones { IsLawfulClone N.eq N.is_clone }
    requires one { length (M.keys graph.discovery.nodes) ≡ 1 }
    requires graph { AnswersLedSearch M.keys N.eq C.value S.answers T.answers H.answers graph estimate [] }

    ensures best { OfLedSearch M.keys N.eq C.value S.answers T.answers H.answers graph estimate [] (λ start edges test least.
        IfOk result (IsCheapestOrNone N.eq edges (start ∷ []) test C.value)) }

    ensures overflow { OfLedSearch M.keys N.eq C.value S.answers T.answers H.answers graph estimate [] (λ start edges test least.
        result ≡ Err PathError.CostOverflow → MayOverflow N.eq edges (start ∷ []) test least C.fits) }

    ensures errors { IfErr result (λ e. (e ≡ PathError.OutOfMemory) ⊎ (e ≡ PathError.CostOverflow)) }
{
    let mut search = Search::new(alloc);
    astar::search_on(alloc, &mut graph, &mut estimate, &mut search)
}

/// A cheapest path from the start of a discovery to a node that passes its test, with its cost, by the
/// search of `fringe`.
pub fn fringe_of<N, M, C, S, T, H, A>(
    alloc: A,
    mut graph: TestedBy<M, S, T>,
    mut estimate: H,
) -> Result<Option<(Vec<N, A>, C)>, PathError>
where
    N: Eq + Clone + Drop,
    M: Numbering<Node = N> + Drop,
    C: Cost,
    S: EdgeSource<N, C>,
    T: NodeTest<N>,
    H: EstimateFunction<N, C>,
    A: Allocator + Copy,
    requires clones { IsLawfulClone N.eq N.is_clone }
    requires one { length (M.keys graph.discovery.nodes) ≡ 1 }
    requires graph { AnswersLedSearch M.keys N.eq C.value S.answers T.answers H.answers graph estimate [] }

    ensures best { OfLedSearch M.keys N.eq C.value S.answers T.answers H.answers graph estimate [] (λ start edges test least.
        IfOk result (IsCheapestOrNone N.eq edges (start ∷ []) test C.value)) }

    ensures overflow { OfLedSearch M.keys N.eq C.value S.answers T.answers H.answers graph estimate [] (λ start edges test least.
        result ≡ Err PathError.CostOverflow → MayOverflow N.eq edges (start ∷ []) test least C.fits) }

    ensures errors { IfErr result (λ e. (e ≡ PathError.OutOfMemory) ⊎ (e ≡ PathError.CostOverflow)) }
{
    let mut search = Search::new(alloc);
    let mut lists = FringeLists::new(alloc, C::zero());
    fringe::search_on(alloc, &mut graph, &mut estimate, &mut search, &mut lists)
}

/// A cheapest path from the start of a discovery to a node that passes its test, with its cost, by the
/// search of `idastar`.
pub fn idastar_of<N, M, C, S, T, H, A>(
    alloc: A,
    graph: TestedBy<M, S, T>,
    estimate: H,
) -> Result<Option<(Vec<N, A>, C)>, PathError>
where
    N: Eq + Clone + Drop,
    M: Numbering<Node = N> + Drop,
    C: Cost,
    S: EdgeSource<N, C>,
    T: NodeTest<N>,
    H: EstimateFunction<N, C>,
    A: Allocator + Copy,
    requires clones { IsLawfulClone N.eq N.is_clone }
    requires one { length (M.keys graph.discovery.nodes) ≡ 1 }
    requires graph { AnswersLedSearch M.keys N.eq C.value S.answers T.answers H.answers graph estimate [] }

    ensures best { OfLedSearch M.keys N.eq C.value S.answers T.answers H.answers graph estimate [] (λ start edges test least.
        IfOk result (IsCheapestOrNone N.eq edges (start ∷ []) test C.value)) }

    ensures overflow { OfLedSearch M.keys N.eq C.value S.answers T.answers H.answers graph estimate [] (λ start edges test least.
        result ≡ Err PathError.CostOverflow → MayOverflow N.eq edges (start ∷ []) test least C.fits) }

    ensures errors { IfErr result (λ e. (e ≡ PathError.OutOfMemory) ⊎ (e ≡ PathError.CostOverflow)) }
{
    let mut known = Known::new(alloc, graph, estimate);
    idastar::search_on(alloc, &mut known)
}

/// All cheapest clean paths from the start of a discovery to nodes that pass its test, each once, and
/// their cost, by the search of `astar_bag`.
pub fn astar_bag_of<N, M, C, S, T, H, A>(
    alloc: A,
    mut graph: TestedBy<M, S, T>,
    mut estimate: H,
) -> Result<Option<(AstarSolutionBy<M, A>, C)>, PathError>
where
    N: Eq + Drop,
    M: Numbering<Node = N> + Drop,
    C: Cost,
    S: EdgeSource<N, C>,
    T: NodeTest<N>,
    H: EstimateFunction<N, C>,
    A: Allocator + Copy,
    requires one { length (M.keys graph.discovery.nodes) ≡ 1 }
    requires graph { AnswersLedSearch M.keys N.eq C.value S.answers T.answers H.answers graph estimate [] }

    ensures all { OfLedSearch M.keys N.eq C.value S.answers T.answers H.answers graph estimate [] (λ start edges test least.
        IfOk result (AreCheapestCleanPathsOrNone N.eq edges (start ∷ []) test (λ paths. paths.left) C.value)) }

    ensures ready { IfOk result (λ answer. MatchOption answer ⊤ (λ found. found.0.refused ≡ false)) }

    ensures overflow { OfLedSearch M.keys N.eq C.value S.answers T.answers H.answers graph estimate [] (λ start edges test least.
        result ≡ Err PathError.CostOverflow → MayOverflow N.eq edges (start ∷ []) test least C.fits) }

    ensures errors { IfErr result (λ e. (e ≡ PathError.OutOfMemory) ⊎ (e ≡ PathError.CostOverflow)) }
{
    let mut search = Search::new(alloc);
    let found = find_ways(alloc, &mut graph, &mut estimate, &mut search);
    solution_of(alloc, graph.discovery.nodes, found)
}

/// The paths of `astar_bag_of`, gathered, and their cost.
pub fn astar_bag_collect_of<N, M, C, S, T, H, A>(
    alloc: A,
    graph: TestedBy<M, S, T>,
    estimate: H,
) -> Result<Option<(Vec<Vec<N, A>, A>, C)>, PathError>
where
    N: Eq + Clone + Drop,
    M: Numbering<Node = N> + Drop,
    C: Cost,
    S: EdgeSource<N, C>,
    T: NodeTest<N>,
    H: EstimateFunction<N, C>,
    A: Allocator + Copy,
    requires clones { IsLawfulClone N.eq N.is_clone }
    requires one { length (M.keys graph.discovery.nodes) ≡ 1 }
    requires graph { AnswersLedSearch M.keys N.eq C.value S.answers T.answers H.answers graph estimate [] }

    ensures all { OfLedSearch M.keys N.eq C.value S.answers T.answers H.answers graph estimate [] (λ start edges test least.
        IfOk result (AreCheapestCleanPathsOrNone N.eq edges (start ∷ []) test (λ paths. lists_in paths.items) C.value)) }

    ensures overflow { OfLedSearch M.keys N.eq C.value S.answers T.answers H.answers graph estimate [] (λ start edges test least.
        result ≡ Err PathError.CostOverflow → MayOverflow N.eq edges (start ∷ []) test least C.fits) }

    ensures errors { IfErr result (λ e. (e ≡ PathError.OutOfMemory) ⊎ (e ≡ PathError.CostOverflow)) }
{
    let found = astar_bag_of(alloc, graph, estimate);
    collected(alloc, found)
}
