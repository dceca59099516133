//! Lines of edges between numbered names, block by block.

ghost use Rattle.std.specs.Prelude.{◌≡◌, ◌++◌, map, IfOk, OnOk};
ghost use Rattle.std.specs.List.{flat_map};
ghost use Rattle.pf_routes.specs.Internal.NumberedLines.{AreInTable, named_edge, named_line, numbered_line, shown_ends};

use crate::routes::name_table::NameTable;
use crate::routes::read_name::ReadName;
use pf_graph::undirected::kruskal::KruskalIndices;
use std::alloc::{AllocError, Allocator};

/// How many edges are looked up before their lines are written.
///
/// A name waits for memory. Those of a block are asked for close on one another, so that the processor
/// waits for several of them at once.
const BLOCK: usize = 64;

/// An edge between two numbers, and its weight.
pub(crate) type WeighedEdge = (usize, usize, u64);

/// An edge between two names, of which nothing was read, and its weight.
type NamedEdge<'a> = (&'a [u8], &'a [u8], u64);

/// An edge between two names that were read, and its weight.
type ReadEdge<'a> = (ReadName<'a>, ReadName<'a>, u64);

/// The edges with names for their numbers.
fn name_ends<'a, A: Allocator + Copy>(
    alloc: A,
    names: &'a NameTable<A>,
    edges: &[WeighedEdge],
) -> Result<Vec<NamedEdge<'a>, A>, AllocError>
    requires { AreInTable names.now edges.now }
    ensures { IfOk result (λ named. map shown_ends named.items ≡ map (named_edge names.now) edges.now) }
{
    let mut named = Vec::with_capacity(alloc, edges.len())?;
    for edge in edges {
        let (source, target, weight) = *edge;
        named.push((names.name(source), names.name(target), weight))?;
    }
    Ok(named)
}

/// The edges with names that were read.
fn read_ends<'a, A: Allocator + Copy>(
    alloc: A,
    named: &[NamedEdge<'a>],
) -> Result<Vec<ReadEdge<'a>, A>, AllocError>
    ensures { IfOk result (λ edges. edges.items ≡ map shown_ends named.now) }
{
    let mut edges = Vec::with_capacity(alloc, named.len())?;
    for edge in named {
        let (source, target, weight) = *edge;
        edges.push((ReadName::of(source), ReadName::of(target), weight))?;
    }
    Ok(edges)
}

/// Puts the line of an edge at the end, as `A B 3`.
fn push_line<A: Allocator + Copy>(
    alloc: A,
    lines: &mut Vec<u8, A>,
    edge: &ReadEdge<'_>,
) -> Result<(), AllocError>
    ensures { OnOk result (lines.new.items ≡ lines.old.items ++ named_line edge.now) }
{
    edge.0.push_to(lines)?;
    lines.push(b' ')?;
    edge.1.push_to(lines)?;
    lines.push(b' ')?;
    let digits = edge.2.to_string(alloc)?;
    lines.extend_from_slice(digits.as_bytes())?;
    lines.push(b'\n')?;
    Ok(())
}

/// Puts a line for each edge at the end.
fn push_lines<A: Allocator + Copy>(
    alloc: A,
    lines: &mut Vec<u8, A>,
    names: &NameTable<A>,
    edges: &[WeighedEdge],
) -> Result<(), AllocError>
    requires { AreInTable names.now edges.now }
    ensures { OnOk result (lines.new.items ≡ lines.old.items ++ flat_map (numbered_line names.now) edges.now) }
{
    let named = name_ends(alloc, names, edges)?;
    let read = read_ends(alloc, &named)?;
    for edge in &read {
        push_line(alloc, lines, edge)?;
    }
    Ok(())
}

/// A line for each edge.
pub(crate) fn write_edges<A: Allocator + Copy>(
    alloc: A,
    names: &NameTable<A>,
    chosen: KruskalIndices<u64, A>,
) -> Result<Vec<u8, A>, AllocError>
    requires { AreInTable names.now chosen }
    ensures { IfOk result (λ lines. lines.items ≡ flat_map (numbered_line names.now) chosen) }
{
    let mut lines = Vec::new(alloc);
    let mut block = Vec::with_capacity(alloc, BLOCK)?;
    for edge in chosen {
        block.push(edge)?;
        if block.len() == BLOCK {
            push_lines(alloc, &mut lines, names, &block)?;
            block.clear();
        }
    }
    push_lines(alloc, &mut lines, names, &block)?;
    Ok(lines)
}
