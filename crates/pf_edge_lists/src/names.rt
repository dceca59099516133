//! Names that are numbered in the order in which they are first met.

ghost use Rattle.std.specs.Prelude.{◌≡◌, ◌<◌, ◌↔◌, ℕ, [], Some, All, Contains, IsTrue, length, slice_get, IfOk, IfErr, OnOk};
ghost use Rattle.std.specs.List.{AllZip};
ghost use Rattle.pf_base.specs.NodeRefs.{nodes_of};
ghost use Rattle.indexmap.specs.IndexSet.{insert_all};
ghost use Rattle.pf_tables.specs.Offsets.{IsCompact};
ghost use Rattle.pf_adjacency.specs.NumberedEdges.{IsLaidOut};
ghost use Rattle.pf_edge_lists.specs.EdgeLists.{CostsFromZeroTo, ends_of, names_of};
ghost use Rattle.pf_edge_lists.specs.Internal.Layouts.{numbered_ends};

use indexmap::IndexSet;
use pf_adjacency::AdjacencyList;
use pf_base::{Cost, PathError};
use std::alloc::{AllocError, Allocator};
use std::hash::{BuildHasherDefault, FoldHasher, Hash};

/// Names that others own, each once; the place of a name is its number.
pub type Names<'e, N, A> = IndexSet<&'e N, BuildHasherDefault<FoldHasher>, A>;

/// Numbers names.
fn add_names<'e, N: Eq + Hash, A: Allocator>(
    names: &mut Names<'e, N, A>,
    given: &'e [N],
) -> Result<(), AllocError>
    ensures { OnOk result (nodes_of names.new.keys ≡ insert_all N.eq (nodes_of names.old.keys) given.now) }
{
    for name in given {
        names.insert_full(name)?;
    }
    Ok(())
}

/// Numbers the names of edges, and puts the edges between the numbers into `numbered`.
fn add_edges<'e, N, C, A>(
    names: &mut Names<'e, N, A>,
    numbered: &mut Vec<(usize, usize, C), A>,
    edges: &'e [(N, N, C)],
) -> Result<(), AllocError>
where
    N: Eq + Hash,
    C: Copy,
    A: Allocator + Copy,
    requires { numbered.old.items ≡ [] }
    ensures names { OnOk result (nodes_of names.new.keys ≡ insert_all N.eq (nodes_of names.old.keys) (ends_of edges.now)) }
    ensures numbered { OnOk result (numbered.new.items ≡ numbered_ends N.eq (nodes_of names.new.keys) edges.now) }
{
    for edge in edges {
        let from = names.insert_full(&edge.0)?.0;
        let to = names.insert_full(&edge.1)?.0;
        numbered.push((from, to, edge.2))?;
    }
    Ok(())
}

/// Numbers given names and then those of edges, and lays the edges between the numbers out.
pub fn lay_out_by_name<'e, N, C, A>(
    alloc: A,
    names: &mut Names<'e, N, A>,
    given: &'e [N],
    edges: &'e [(N, N, C)],
) -> Result<AdjacencyList<C, A>, AllocError>
where
    N: Eq + Hash,
    C: Cost,
    A: Allocator + Copy,
    requires none { names.old.keys ≡ [] }
    requires costs { CostsFromZeroTo C.value edges.now (length edges.now) }
    ensures names { OnOk result (nodes_of names.new.keys ≡ names_of N.eq (record { names = given.now; edges = edges.now })) }
    ensures rows { IfOk result (λ rows. IsLaidOut (length (nodes_of names.new.keys)) (numbered_ends N.eq (nodes_of names.new.keys) edges.now) rows) }
    ensures sound { IfOk result (λ rows. IsCompact C.value rows.0 rows.1) }
{
    let mut numbered = Vec::with_capacity(alloc, edges.len())?;
    add_names(names, given)?;
    add_edges(names, &mut numbered, edges)?;
    AdjacencyList::from_sound_edges(alloc, names.len(), &numbered)
}

/// Whether all these numbers are below `size`.
pub fn are_below(size: usize, numbers: &[usize]) -> bool
    ensures { IsTrue result ↔ All (λ number. number < size) numbers.now }
{
    numbers.iter().all(|number| *number < size)
}

/// The names that have these numbers, in their order.
pub fn names_at<'e, N, A: Allocator + Copy>(
    alloc: A,
    names: &[&'e N],
    numbers: &[usize],
) -> Result<Vec<&'e N, A>, PathError>
    requires { (k : ℕ) → Contains numbers.now k → k < length names.now }
    ensures names { IfOk result (λ answer. AllZip (λ number name. slice_get (nodes_of names.now) number ≡ Some name) numbers.now (nodes_of answer.items)) }
    ensures refused { IfErr result (λ e. e ≡ PathError.OutOfMemory) }
{
    let mut answer = Vec::with_capacity(alloc, numbers.len())?;
    'numbers: for number in numbers {
        answer.push(names[*number])?;
    }
    Ok(answer)
}
