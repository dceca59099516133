//! Edges between named nodes, numbered.

ghost use Rattle.std.specs.Prelude.{◌≡◌, ◌≤◌, ◌^◌, [], List, All, length, map, IfOk, OnOk, IfErr};
ghost use Rattle.std.specs.Borrow.{Bor};
ghost use Rattle.pf_base.specs.declared.error.PathError.TheVariants.{OutOfMemory};
ghost use Rattle.pf_graph.specs.Internal.NumberedEdges.{IsNumbered, IsWeighed};

use crate::undirected::weighed::Weighed;
use indexmap::IndexSet;
use pf_base::PathError;
use pf_union_find::Nodes;
use std::alloc::{AllocError, Allocator};
use std::hash::Hash;

/// An edge with the numbers of its ends. An `IndexSet` gives no number that 32 bits do not hold, and
/// edges are sorted as they stand.
pub type NumberedEdge<'a, N, C, W> = (u32, u32, Weighed<'a, N, C, W>);

/// The number of nodes that edges stand between, and the edges, each with the numbers of its ends.
#[derive(Drop)]
pub struct NumberedEdges<'a, N, C, W, A: Allocator> {
    pub count: usize,
    pub edges: Vec<NumberedEdge<'a, N, C, W>, A>,
}

/// A number as one of 32 bits.
pub fn narrowed(number: usize) -> Result<u32, PathError>
    ensures same { IfOk result (λ n. n ≡ number) }
    ensures refused { IfErr result (λ e. e ≡ OutOfMemory) }
{
    match u32::try_from(number) {
        Ok(n) => Ok(n),
        Err(_) => Err(PathError::OutOfMemory),
    }
}

/// Numbers the ends of edges and weighs the edges, where no node and no edge is numbered yet.
fn number_into<'a, N, C, W, F, A>(
    nodes: &mut Nodes<'a, N, A>,
    numbered: &mut Vec<NumberedEdge<'a, N, C, W>, A>,
    edges: &'a [(N, N, C)],
    weigh: &F,
) -> Result<(), PathError>
where
    N: Eq + Hash,
    W: Drop,
    F: Fn(&C) -> Result<W, AllocError>,
    A: Allocator,
    requires weighs { F.IsAlwaysCallable weigh.now }
    requires none { (nodes.old.keys ≡ []) × (numbered.old.items ≡ []) }
    ensures numbered { OnOk result (IsNumbered N.eq nodes.new.keys edges.now numbered.new.items) }
    ensures in_order { OnOk result (map (λ e. e.2.edge.now) numbered.new.items ≡ edges.now) }
    ensures weighed { OnOk result (All (IsWeighed F.Fn weigh.now) numbered.new.items) }
    ensures refused { IfErr result (λ e. e ≡ OutOfMemory) }
{
    for edge in edges {
        let from = nodes.insert_full(&edge.0)?.0;
        let to = nodes.insert_full(&edge.1)?.0;
        let weight = weigh(&edge.2)?;
        let one = narrowed(from)?;
        let other = narrowed(to)?;
        numbered.push((one, other, Weighed { edge, weight }))?;
    }
    Ok(())
}

/// Numbers the ends of edges from 0 on, in the order in which they first stand, and weighs each edge
/// by what `weigh` makes of its weight. A node is looked up once for each edge end.
pub fn number_edges<'a, N, C, W, F, A>(
    alloc: A,
    edges: &'a [(N, N, C)],
    weigh: &F,
) -> Result<NumberedEdges<'a, N, C, W, A>, PathError>
where
    N: Eq + Hash,
    W: Drop,
    F: Fn(&C) -> Result<W, AllocError>,
    A: Allocator + Copy,
    requires weighs { F.IsAlwaysCallable weigh.now }
    ensures few { IfOk result (λ r. r.count ≤ 2 ^ 32) }
    ensures numbered { IfOk result (λ r. (nodes : List (Bor N)) × (length nodes ≡ r.count) × IsNumbered N.eq nodes edges.now r.edges.items) }
    ensures in_order { IfOk result (λ r. map (λ e. e.2.edge.now) r.edges.items ≡ edges.now) }
    ensures weighed { IfOk result (λ r. All (IsWeighed F.Fn weigh.now) r.edges.items) }
    ensures refused { IfErr result (λ e. e ≡ OutOfMemory) }
{
    let mut numbered = Vec::with_capacity(alloc, edges.len())?;
    let mut nodes = IndexSet::new(alloc);
    number_into(&mut nodes, &mut numbered, edges, weigh)?;
    let count = nodes.len();
    narrowed(count)?;
    Ok(NumberedEdges {
        count,
        edges: numbered,
    })
}
