//! Paths from both ends of a graph, of nodes that two discoveries find, whatever numbers them.

ghost use Rattle.std.specs.Prelude.{◌≡◌, ◌⊎◌, [], ◌∷◌, List, Err, IfOk, IfErr, length};
ghost use Rattle.pf_base.specs.Answers.{IsLawfulClone};
ghost use Rattle.pf_base.specs.Edges.{IsCheapestOrNone, CostOverflows};
ghost use Rattle.pf_base.specs.Mirrors.{is_among, IsMirror};
ghost use Rattle.pf_base.specs.NodeRefs.{HasSameNodes};
ghost use Rattle.pf_base.specs.Successors.{IsFewestEdgesOrNone};
ghost use Rattle.pf_core.specs.Hops.{hops_from};
ghost use Rattle.pf_core.specs.Nodes.{Explores};
ghost use Rattle.pf_both_ends.specs.Internal.BothEnds.{AnswersEnds, OfEnds};

use crate::dijkstra::path_across;
use pf_base::{Cost, PathError};
use pf_core::search::Search;
use pf_discovery::numbering::Numbering;
use pf_discovery::source::EdgeSource;
use pf_two_sided::bidirectional::fewest_edges_between;
use pf_two_sided::two_sided::TwoSided;
use std::alloc::Allocator;

/// A path with fewest edges from a node that was found on the way forth to one that was found on the
/// way back.
pub fn fewest_edges_path<N, M, S, P, A>(
    alloc: A,
    graph: &mut TwoSided<M, S, P>,
) -> Result<Option<Vec<N, A>>, PathError>
where
    N: Eq + Clone + Drop,
    M: Numbering<Node = N>,
    S: EdgeSource<N, u8>,
    P: EdgeSource<N, u8>,
    A: Allocator + Copy,
    requires clones { IsLawfulClone N.eq N.is_clone }
    requires graph { (next previous : N → List N) × (starts ends : List N)
        × Explores N.eq S.answers (hops_from starts next) (M.keys graph.old.forth.nodes) graph.old.forth.source × Explores N.eq P.answers (hops_from ends previous) (M.keys graph.old.back.nodes) graph.old.back.source }

    ensures best { (next previous : N → List N) (starts ends : List N)
        → Explores N.eq S.answers (hops_from starts next) (M.keys graph.old.forth.nodes) graph.old.forth.source → Explores N.eq P.answers (hops_from ends previous) (M.keys graph.old.back.nodes) graph.old.back.source
        → HasSameNodes N.eq (M.keys graph.old.forth.nodes) starts → HasSameNodes N.eq (M.keys graph.old.back.nodes) ends
        → IsMirror N.eq next previous starts ends
        → IfOk result (IsFewestEdgesOrNone N.eq next starts (is_among N.eq ends)) }

    ensures errors { IfErr result (λ e. e ≡ PathError.OutOfMemory) }
{
    match fewest_edges_between::<u8, _, _>(alloc, graph)? {
        None => Ok(None),
        Some(halves) => graph.nodes_along(alloc, &halves).map(Some),
    }
}

/// A cheapest path from the only node that was found on the way forth to the only one that was found
/// on the way back, with its cost.
pub fn cheapest_path<N, M, C, S, P, A>(
    alloc: A,
    graph: &mut TwoSided<M, S, P>,
) -> Result<Option<(Vec<N, A>, C)>, PathError>
where
    N: Eq + Clone + Drop,
    M: Numbering<Node = N>,
    C: Cost,
    S: EdgeSource<N, C>,
    P: EdgeSource<N, C>,
    A: Allocator + Copy,
    requires clones { IsLawfulClone N.eq N.is_clone }
    requires one_forth { length (M.keys graph.old.forth.nodes) ≡ 1 }
    requires one_back { length (M.keys graph.old.back.nodes) ≡ 1 }
    requires ends { AnswersEnds N.eq M.keys S.answers P.answers graph.old }
    ensures best { OfEnds N.eq M.keys S.answers P.answers graph.old (λ edges previous start end.
        IfOk result (IsCheapestOrNone N.eq edges (start ∷ []) (N.eq end) C.value)
        × (result ≡ Err PathError.CostOverflow → CostOverflows N.eq edges (start ∷ []) (N.eq end) C.fits)) }
    ensures errors { IfErr result (λ e. (e ≡ PathError.OutOfMemory) ⊎ (e ≡ PathError.CostOverflow)) }
{
    let mut forth = Search::begin(alloc, graph.forth.nodes.len(), 0)?;
    let mut back = Search::begin(alloc, graph.back.nodes.len(), 0)?;
    path_across(alloc, graph, &mut forth, &mut back)
}
