//! Vertices with names, which are numbered, and numbered answers with the names of the vertices.

ghost use Rattle.std.specs.Prelude.{◌≡◌, length, OnOk, IfOk, IfErr};
ghost use Rattle.std.specs.List.{AllZip};
ghost use Rattle.pf_base.specs.Places.{number_of};
ghost use Rattle.pf_base.specs.declared.error.PathError.TheVariants.{OutOfMemory, UnknownVertex};
ghost use Rattle.pf_residual.specs.Internal.HeldEdges.{RunBelow, IsNamedAnswer};
ghost use Rattle.pf_residual.specs.NamedNetworks.{names_of, IsKnown, IsNamed};

use indexmap::IndexSet;
use pf_base::{PathError, SignedCost};
use std::alloc::{Allocator, Global};
use std::hash::{BuildHasherDefault, FoldHasher, Hash};

/// A capacity or a flow from one vertex to another.
pub type Edge<N, C> = ((N, N), C);

/// The flows above zero, the total, and the edges of a least cut.
pub type EKFlows<N, C, A = Global> = (Vec<Edge<N, C>, A>, C, Vec<Edge<N, C>, A>);

/// Vertices, each once, in the order in which they first stand; the place of a vertex is its number.
pub type Names<N, A> = IndexSet<N, BuildHasherDefault<FoldHasher>, A>;

/// The vertices, each once.
pub fn names_among<N, A>(alloc: A, vertices: &[N]) -> Result<Names<N, A>, PathError>
where
    N: Eq + Hash + Copy,
    A: Allocator + Copy,
    ensures names { IfOk result (λ names. names.keys ≡ names_of N.eq vertices.now) }
    ensures refused { IfErr result (λ e. e ≡ OutOfMemory) }
{
    let mut names = IndexSet::new(alloc);
    'vertices: for vertex in vertices {
        names.insert(*vertex)?;
    }
    Ok(names)
}

/// The number of a vertex.
pub fn known_number<N, A>(names: &Names<N, A>, vertex: &N) -> Result<usize, PathError>
where
    N: Eq + Hash,
    A: Allocator + Copy,
    ensures number { IfOk result (λ number. number ≡ number_of N.eq names.now.keys vertex.now) }
    ensures known { OnOk result (IsKnown N.eq names.now.keys vertex.now) }
    ensures refused { IfErr result (λ e. (e ≡ UnknownVertex) × (¬ (IsKnown N.eq names.now.keys vertex.now))) }
{
    match names.get_index_of(vertex) {
        Some(number) => Ok(number),
        None => Err(PathError::UnknownVertex),
    }
}

/// Numbered edges with the names of their vertices.
pub fn name_edges<N, C, A>(
    alloc: A,
    names: &[N],
    numbered: &[Edge<usize, C>],
) -> Result<Vec<Edge<N, C>, A>, PathError>
where
    N: Copy,
    C: SignedCost,
    A: Allocator + Copy,
    requires inside { RunBelow (length names.now) numbered.now }
    ensures named { IfOk result (λ edges. AllZip (IsNamed names.now) numbered.now edges.items) }
    ensures refused { IfErr result (λ e. e ≡ OutOfMemory) }
{
    let mut edges = Vec::with_capacity(alloc, numbered.len())?;
    'numbered: for edge in numbered {
        let (from, to) = edge.0;
        edges.push(((names[from], names[to]), edge.1))?;
    }
    Ok(edges)
}

/// Numbered flows, their total and numbered edges, with the names of the vertices.
pub fn name_answer<N, C, A>(
    alloc: A,
    names: &[N],
    answer: &EKFlows<usize, C, A>,
) -> Result<EKFlows<N, C, A>, PathError>
where
    N: Copy,
    C: SignedCost,
    A: Allocator + Copy,
    requires flows { RunBelow (length names.now) answer.now.0.items }
    requires cut { RunBelow (length names.now) answer.now.2.items }
    ensures named { IfOk result (IsNamedAnswer names.now answer.now) }
    ensures refused { IfErr result (λ e. e ≡ OutOfMemory) }
{
    let flows = name_edges(alloc, names, &answer.0)?;
    let cut = name_edges(alloc, names, &answer.2)?;
    Ok((flows, answer.1, cut))
}
