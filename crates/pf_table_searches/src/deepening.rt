//! Paths with fewest edges by depth limits that grow (iterative deepening).

ghost use Rattle.std.specs.Prelude.{◌≡◌, ◌<◌, ◌≤◌, ℕ, true, false, [], ◌∷◌, Some, IfOk, IfErr, MatchOption, length, map, nat_eq, slice_get};
ghost use Rattle.pf_base.specs.Successors.{HasSuccessor, IsFewestEdgesGoalPath};
ghost use Rattle.pf_base.specs.Walks.{HasNoGoalWalk};
ghost use Rattle.pf_tables.specs.Graphs.{successors_of};
ghost use Rattle.pf_table_searches.specs.Internal.Trails.{AreAllMarked, IsNextEnd, Deepens};

use pf_base::filled::{alone, filled};
use pf_base::{Cost, PathError};
use pf_tables::{Goals, Graph};
use std::alloc::Allocator;

/// What a search up to a number of edges found.
#[derive(Drop)]
pub(crate) enum Deepened {
    /// The path leads to a goal.
    Found,
    /// No path up to the limit leads to a goal; whether some path was cut off there.
    Missed { cut: bool },
}

/// The next end of an edge of the node, from the place `first` on, that is not marked, with the place
/// behind the edge.
fn next_end<C, G>(graph: &G, marked: &[bool], node: usize, first: usize) -> Option<(usize, usize)>
where
    C: Cost,
    G: Graph<C>,
    requires node { node < G.size graph.now }
    requires wide { length marked.now ≡ G.size graph.now }
    ensures { MatchOption result
        (AreAllMarked (G.places graph.now node) marked.now first (length (G.places graph.now node)))
        (λ found. IsNextEnd (G.size graph.now) (G.places graph.now node) marked.now first found.0 found.1) }
{
    graph.known();
    'places: for place in first..graph.places(node) {
        if let Some(edge) = graph.edge(node, place) {
            if !marked[edge.0] {
                return Some((edge.0, place + 1));
            }
        }
    }
    None
}

/// Looks for a path of at most `limit` edges from the node `from` to a goal.
///
/// During the search `entries` has each node of the path but the last, with the place of the edge at
/// which the search goes on from it, and the nodes of the path are marked. Before and after the search
/// there is no entry and no mark, save that a path that is found stands in `entries`.
fn deepen<C, G, T, A>(
    graph: &G,
    goals: T,
    from: usize,
    limit: usize,
    entries: &mut Vec<(usize, usize), A>,
    marked: &mut Vec<bool, A>,
) -> Result<Deepened, PathError>
where
    C: Cost,
    G: Graph<C>,
    T: Goals + Copy,
    A: Allocator,
    requires inside { from < G.size graph.now }
    requires goal { T.passes goals from ≡ false }
    requires limit { 0 < limit }
    requires begins { entries.old.items ≡ [] }
    requires wide { length marked.old.items ≡ G.size graph.now }
    requires clear { (x : ℕ) → ¬ (slice_get marked.old.items x ≡ Some true) }
    ensures found { IfOk result (λ found. Deepens (successors_of C.value (G.size graph.now) (G.places graph.now)) from (T.passes goals) (G.size graph.now) limit found entries.new.items marked.new.items) }
    ensures refused { IfErr result (λ e. e ≡ PathError.OutOfMemory) }
{
    let mut cut = false;
    let mut node = from;
    let mut place = 0;
    marked[from] = true;
    'steps: loop {
        match next_end(graph, marked, node, place) {
            Some((end, after)) => {
                place = after;
                if goals.is_goal(end) {
                    entries.push((node, place))?;
                    entries.push((end, 0))?;
                    return Ok(Deepened::Found);
                }
                if entries.len() + 1 < limit {
                    entries.push((node, place))?;
                    marked[end] = true;
                    node = end;
                    place = 0;
                } else {
                    cut = true;
                }
            }
            None => {
                marked[node] = false;
                match entries.pop() {
                    Some(entry) => {
                        node = entry.0;
                        place = entry.1;
                    }
                    None => return Ok(Deepened::Missed { cut }),
                }
            }
        }
    }
}

/// The nodes of entries, in order.
fn nodes_of<A: Allocator>(alloc: A, entries: &[(usize, usize)]) -> Result<Vec<usize, A>, PathError>
    ensures nodes { IfOk result (λ nodes. nodes.items ≡ map (λ (e : ℕ × ℕ). e.0) entries.now) }
    ensures refused { IfErr result (λ e. e ≡ PathError.OutOfMemory) }
{
    let mut nodes = Vec::new(alloc);
    'entries: for entry in entries {
        nodes.push(entry.0)?;
    }
    Ok(nodes)
}

/// A path with fewest edges from the node `from` to a goal, or `None` exactly where no walk leads from
/// `from` to a goal, in little memory and by a time of the order of the number of paths.
///
/// The path contains no node twice, and which of several such paths is answered is open. A number that
/// is no node of the graph has no edges. Memory is taken for a mark for each node of the table and an
/// entry for each node of the path; time is of the order of the number of paths up to each of the
/// limits.
///
/// # Errors
///
/// `OutOfMemory`: a request for memory was refused.
///
/// The algorithm is depth-first iterative deepening (R. E. Korf, "Depth-first iterative-deepening: an
/// optimal admissible tree search", 1985). It does not call itself, so that the depth of calls in the
/// machine does not grow with the path.
pub fn iddfs<C, G, T, A>(
    alloc: A,
    graph: &G,
    from: usize,
    goals: T,
) -> Result<Option<Vec<usize, A>>, PathError>
where
    C: Cost,
    G: Graph<C>,
    T: Goals + Copy,
    A: Allocator + Copy,
    ensures best { IfOk result (λ answer. MatchOption answer
        (HasNoGoalWalk nat_eq (HasSuccessor nat_eq (successors_of C.value (G.size graph.now) (G.places graph.now))) (from ∷ []) (T.passes goals))
        (λ path. IsFewestEdgesGoalPath nat_eq (successors_of C.value (G.size graph.now) (G.places graph.now)) (from ∷ []) (T.passes goals) path.items)) }
    ensures errors { IfErr result (λ e. e ≡ PathError.OutOfMemory) }
{
    if goals.is_goal(from) {
        let path = alone(alloc, from)?;
        return Ok(Some(path));
    }
    if from >= graph.len() {
        return Ok(None);
    }
    let mut marked = filled(alloc, graph.len(), false)?;
    let mut entries = Vec::new(alloc);
    'limits: for limit in 1..usize::MAX {
        match deepen(graph, goals, from, limit, &mut entries, &mut marked)? {
            Deepened::Found => {
                let path = nodes_of(alloc, &entries)?;
                return Ok(Some(path));
            }
            Deepened::Missed { cut: false } => return Ok(None),
            Deepened::Missed { cut: true } => {}
        }
    }
    // A path of so many edges has no room.
    Err(PathError::OutOfMemory)
}
