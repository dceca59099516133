//! Loops and maps of parents, of nodes that a discovery finds, whatever numbers them.

ghost use Rattle.std.specs.Prelude.{◌≡◌, ◌⊎◌, ◌<◌, [], ◌∷◌, List, ℕ, ℤ, Bool, Err, length, IfOk, IfErr};
ghost use Rattle.std.specs.HashMap.{get};
ghost use Rattle.pf_base.specs.Answers.{IsLawfulClone};
ghost use Rattle.pf_base.specs.Edges.{HasNoNegativeCost, CostOverflows};
ghost use Rattle.pf_base.specs.Loops.{IsBestLoopOrNone};
ghost use Rattle.pf_base.specs.NodeRefs.{HasSameNodes};
ghost use Rattle.pf_core.specs.declared.labels.Label.{Label};
ghost use Rattle.pf_core.specs.Hops.{hops_from};
ghost use Rattle.pf_core.specs.Labels.{HasLabel};
ghost use Rattle.pf_core.specs.Nodes.{Explores};
ghost use Rattle.pf_search.specs.Parents.{IsPartialMap};
ghost use Rattle.pf_search.specs.Internal.Begun.{IsBegun, OfBegun};
ghost use Rattle.pf_search.specs.Internal.Partial.{MapsLabels};

use crate::directed::dijkstra::Parents;
use pf_base::{Cost, NodeTest, PathError, Tally};
use pf_core::clones::clones_at;
use pf_core::dijkstra::search_to_goal;
use pf_core::slot::Slot;
use pf_discovery::bfs_loop::fewest_edges_loop;
use pf_discovery::discovery::DiscoveryBy;
use pf_discovery::numbering::Numbering;
use pf_discovery::source::EdgeSource;
use pf_discovery::tested::TestedBy;
use std::alloc::Allocator;
use std::collections::HashMap;
use std::hash::Hash;

/// A walk of at least one step, with fewest edges, from a node that was found before to another or the
/// same.
pub fn loop_from<N, M, S, A>(
    alloc: A,
    graph: &mut DiscoveryBy<M, S>,
) -> Result<Option<Vec<N, A>>, PathError>
where
    N: Eq + Clone + Drop,
    M: Numbering<Node = N>,
    S: EdgeSource<N, u8>,
    A: Allocator + Copy,
    requires clones { IsLawfulClone N.eq N.is_clone }
    requires graph { (next : N → List N) × (starts : List N)
        × Explores N.eq S.answers (hops_from starts next) (M.keys graph.old.nodes) graph.old.source }

    ensures best { (next : N → List N) (starts : List N)
        → Explores N.eq S.answers (hops_from starts next) (M.keys graph.old.nodes) graph.old.source
        → HasSameNodes N.eq (M.keys graph.old.nodes) starts → IfOk result (IsBestLoopOrNone N.eq next starts) }

    ensures errors { IfErr result (λ e. e ≡ PathError.OutOfMemory) }
{
    match fewest_edges_loop::<u8, _, _>(alloc, graph)? {
        None => Ok(None),
        Some(numbers) => clones_at(alloc, graph.nodes.as_slice(), &numbers).map(Some),
    }
}

/// The map of the parents and costs that labels say, save that of number 0, of clones of the nodes.
fn map_of<N, C, A>(alloc: A, nodes: &[N], labels: &[Slot<C>]) -> Result<Parents<N, C, A>, PathError>
where
    N: Eq + Hash + Clone + Drop,
    C: Cost,
    A: Allocator + Copy,
    requires clones { IsLawfulClone N.eq N.is_clone }
    requires wide { length labels.now ≡ length nodes.now }
    requires behind { (k : ℕ) (l : Label C) → 0 < k → HasLabel labels.now k l → l.parent < length nodes.now }
    ensures maps { IfOk result (λ parents. MapsLabels N.eq nodes.now labels.now (length labels.now) (get N.eq parents)) }
    ensures refused { IfErr result (λ e. e ≡ PathError.OutOfMemory) }
{
    let mut parents = HashMap::with_capacity(alloc, labels.len())?;
    'numbers: for number in 1..labels.len() {
        if let Some(label) = labels[number].label() {
            let parent = nodes[label.parent].clone()?;
            let node = nodes[number].clone()?;
            parents.insert(node, (parent, label.cost))?;
        }
    }
    Ok(parents)
}

/// The map of the parents and costs that a search from the only node that was found comes to, and the
/// node at which it stops.
pub fn partial_map<N, M, C, S, T, A>(
    alloc: A,
    graph: &mut TestedBy<M, S, T>,
) -> Result<(Parents<N, C, A>, Option<N>), PathError>
where
    N: Eq + Hash + Clone + Drop,
    M: Numbering<Node = N>,
    C: Cost,
    S: EdgeSource<N, C>,
    T: NodeTest<N>,
    A: Allocator + Copy,
    requires clones { IsLawfulClone N.eq N.is_clone }
    requires one { length (M.keys graph.old.discovery.nodes) ≡ 1 }
    requires graph { (edges : N → List (N × ℤ)) × (start : N) × (test : N → Bool)
        × IsBegun N.eq M.keys S.answers T.answers edges start test graph.old × HasNoNegativeCost N.eq edges (start ∷ []) }

    ensures partial { OfBegun N.eq M.keys S.answers T.answers graph.old (λ edges start test. HasNoNegativeCost N.eq edges (start ∷ [])
        → IfOk result (λ found. IsPartialMap N.eq edges start C.value (get N.eq found.0) test found.1)) }

    ensures overflow { OfBegun N.eq M.keys S.answers T.answers graph.old (λ edges start test. HasNoNegativeCost N.eq edges (start ∷ [])
        → result ≡ Err PathError.CostOverflow → CostOverflows N.eq edges (start ∷ []) test C.fits) }

    ensures errors { IfErr result (λ e. (e ≡ PathError.OutOfMemory) ⊎ (e ≡ PathError.CostOverflow)) }
{
    let (labels, goal) = search_to_goal(alloc, graph, 0, &mut Tally::new())?;
    let nodes = graph.discovery.nodes.as_slice();
    let parents = map_of(alloc, nodes, &labels)?;
    let stopped = match goal {
        Some(number) => Some(nodes[number].clone()?),
        None => None,
    };
    Ok((parents, stopped))
}
