//! Components and orders of the nodes that a discovery finds, whatever numbers them.

ghost use Rattle.std.specs.Prelude.{◌≡◌, ◌⊎◌, ◌≤◌, ◌-◌, ◌<◌, [], ◌∷◌, ℕ, List, Err, IfOk, IfErr, length};
ghost use Rattle.std.specs.List.{AllZip};
ghost use Rattle.pf_base.specs.Answers.{IsLawfulClone};
ghost use Rattle.pf_base.specs.Successors.{HasSuccessor};
ghost use Rattle.pf_base.specs.Walks.{HasNode, IsReachable, IsAtMostNumberOf};
ghost use Rattle.pf_core.specs.Nodes.{StandsFor};
ghost use Rattle.pf_orders.specs.Internal.Beginnings.{Begins};
ghost use Rattle.pf_orders.specs.Internal.ComponentSearch.{IsMember};
ghost use Rattle.pf_orders.specs.GroupDepths.{AreClosed, HasDepth, AreDepthGroups, HaveNoDepth};
ghost use Rattle.pf_orders.specs.StrongComponents.{AreStrongComponents, IsStrongComponentOf, lists_of};
ghost use Rattle.pf_orders.specs.TopologicalOrders.{IsTopologicalOrder, IsOnCycle};

use crate::component_search::strong_components;
use crate::nodes::groups_at;
use crate::ordering::sort_numbers;
use crate::rounds::group_numbers;
use crate::rows::read_rows;
use pf_base::{PathError, Tally};
use pf_core::clones::clones_at;
use pf_discovery::discovery::DiscoveryBy;
use pf_discovery::numbering::Numbering;
use pf_discovery::source::EdgeSource;
use std::alloc::Allocator;

/// Clones of the nodes that the numbers of each component stand for.
fn components_at<N, A>(
    alloc: A,
    nodes: &[N],
    components: &[Vec<usize, A>],
) -> Result<Vec<Vec<N, A>, A>, PathError>
where
    N: Eq + Clone + Drop,
    A: Allocator + Copy,
    requires inside { (i k : ℕ) → IsMember (lists_of components.now) i k → k < length nodes.now }
    requires clones { IsLawfulClone N.eq N.is_clone }
    ensures nodes { IfOk result (λ answer. AllZip (AllZip (StandsFor N.eq nodes.now)) (lists_of components.now) (lists_of answer.items)) }
    ensures refused { IfErr result (λ e. e ≡ PathError.OutOfMemory) }
{
    let mut answer = Vec::with_capacity(alloc, components.len())?;
    'components: for component in components {
        let clones = clones_at(alloc, nodes, component)?;
        answer.push(clones)?;
    }
    Ok(answer)
}

/// The strong components of the nodes in reach of those that a discovery begins with.
pub fn components_of<N, M, S, A>(
    alloc: A,
    mut graph: DiscoveryBy<M, S>,
) -> Result<Vec<Vec<N, A>, A>, PathError>
where
    N: Eq + Clone + Drop,
    M: Numbering<Node = N> + Drop,
    S: EdgeSource<N, u8>,
    A: Allocator + Copy,
    requires clones { IsLawfulClone N.eq N.is_clone }
    requires graph { (starts : List N) × (next : N → List N) × Begins N.eq S.answers starts next (M.keys graph.nodes) graph.source }
    ensures components { (starts : List N) (next : N → List N) → Begins N.eq S.answers starts next (M.keys graph.nodes) graph.source
        → IfOk result (λ components. AreStrongComponents N.eq next starts (lists_of components.items)) }
    ensures refused { IfErr result (λ e. e ≡ PathError.OutOfMemory) }
{
    let components = strong_components(alloc, &mut graph)?;
    components_at(alloc, graph.nodes.as_slice(), &components)
}

/// The strong component of the node that a discovery begins with.
pub fn component_of<N, M, S, A>(alloc: A, graph: DiscoveryBy<M, S>) -> Result<Vec<N, A>, PathError>
where
    N: Eq + Clone + Drop,
    M: Numbering<Node = N> + Drop,
    S: EdgeSource<N, u8>,
    A: Allocator + Copy,
    requires clones { IsLawfulClone N.eq N.is_clone }
    requires graph { (node : N) × (next : N → List N) × Begins N.eq S.answers (node ∷ []) next (M.keys graph.nodes) graph.source }
    ensures component { (node : N) (next : N → List N) → Begins N.eq S.answers (node ∷ []) next (M.keys graph.nodes) graph.source
        → IfOk result (λ component. IsStrongComponentOf N.eq next node component.items) }
    ensures refused { IfErr result (λ e. e ≡ PathError.OutOfMemory) }
{
    let mut components = components_of(alloc, graph)?;
    match components.pop() {
        Some(component) => Ok(component),
        None => unreachable!(),
    }
}

/// The nodes of a graph that was not yet asked, and those in reach of them, in order.
pub fn order_in<N, M, S, A>(
    alloc: A,
    graph: &mut DiscoveryBy<M, S>,
    tally: &mut Tally,
) -> Result<Result<Vec<N, A>, N>, PathError>
where
    N: Eq + Clone + Drop,
    M: Numbering<Node = N>,
    S: EdgeSource<N, u8>,
    A: Allocator + Copy,
    requires clones { IsLawfulClone N.eq N.is_clone }
    requires graph { (roots : List N) × (next : N → List N) × Begins N.eq S.answers roots next (M.keys graph.old.nodes) graph.old.source }

    ensures order { (roots : List N) (next : N → List N) → Begins N.eq S.answers roots next (M.keys graph.old.nodes) graph.old.source
        → IfOk result (λ answer. IfOk answer (λ order. IsTopologicalOrder N.eq next (IsReachable N.eq (HasSuccessor N.eq next) roots) order.items)) }

    ensures cycle { (roots : List N) (next : N → List N) → Begins N.eq S.answers roots next (M.keys graph.old.nodes) graph.old.source
        → IfOk result (λ answer. IfErr answer (λ node. IsReachable N.eq (HasSuccessor N.eq next) roots node × IsOnCycle N.eq next node)) }

    ensures asked { (roots : List N) (next : N → List N) → Begins N.eq S.answers roots next (M.keys graph.old.nodes) graph.old.source
        → IsAtMostNumberOf N.eq (IsReachable N.eq (HasSuccessor N.eq next) roots) (tally.new - tally.old) }

    ensures ticked { tally.old ≤ tally.new }

    ensures errors { IfErr result (λ e. e ≡ PathError.OutOfMemory) }
{
    match sort_numbers(alloc, graph, tally)? {
        Ok(numbers) => {
            let order = clones_at(alloc, graph.nodes.as_slice(), &numbers)?;
            Ok(Ok(order))
        }
        Err(number) => {
            let node = graph.nodes.as_slice()[number].clone()?;
            Ok(Err(node))
        }
    }
}

/// The nodes of a graph that was not yet asked, in groups by depth.
pub fn groups_in<N, M, S, A>(
    alloc: A,
    graph: &mut DiscoveryBy<M, S>,
) -> Result<Result<Vec<Vec<N, A>, A>, (Vec<Vec<N, A>, A>, Vec<N, A>)>, PathError>
where
    N: Eq + Clone + Drop,
    M: Numbering<Node = N>,
    S: EdgeSource<N, u8>,
    A: Allocator + Copy,
    requires clones { IsLawfulClone N.eq N.is_clone }
    requires graph { (nodes : List N) × (next : N → List N) × Begins N.eq S.answers nodes next (M.keys graph.old.nodes) graph.old.source }

    ensures groups { (nodes : List N) (next : N → List N) → Begins N.eq S.answers nodes next (M.keys graph.old.nodes) graph.old.source
        → IfOk result (λ answer. IfOk answer (λ groups. AreDepthGroups N.eq next nodes groups.items
        × ((x : N) → HasNode N.eq nodes x → (k : ℕ) × HasDepth N.eq next nodes x k))) }

    ensures cycle { (nodes : List N) (next : N → List N) → Begins N.eq S.answers nodes next (M.keys graph.old.nodes) graph.old.source
        → IfOk result (λ answer. IfErr answer (λ both. AreDepthGroups N.eq next nodes both.0.items
        × HaveNoDepth N.eq next nodes both.1.items × ¬ (both.1.items ≡ []))) }

    ensures closed { (nodes : List N) (next : N → List N) → Begins N.eq S.answers nodes next (M.keys graph.old.nodes) graph.old.source
        → IfOk result (λ answer. AreClosed N.eq next nodes) }

    ensures unknown { (nodes : List N) (next : N → List N) → Begins N.eq S.answers nodes next (M.keys graph.old.nodes) graph.old.source
        → result ≡ Err PathError.UnknownVertex
        → (x : N) × (y : N) × HasNode N.eq nodes x × HasSuccessor N.eq next x y × ¬ (HasNode N.eq nodes y) }

    ensures errors { IfErr result (λ e. (e ≡ PathError.OutOfMemory) ⊎ (e ≡ PathError.UnknownVertex)) }
{
    let (rows, counts) = read_rows(alloc, graph)?;
    let levels = group_numbers(alloc, counts, rows)?;
    let groups = groups_at(alloc, graph.nodes.as_slice(), &levels.groups)?;
    if levels.remaining.is_empty() {
        return Ok(Ok(groups));
    }
    let remaining = clones_at(alloc, graph.nodes.as_slice(), &levels.remaining)?;
    Ok(Err((groups, remaining)))
}
