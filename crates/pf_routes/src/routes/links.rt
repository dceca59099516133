//! Edges as links between numbered names.

ghost use Rattle.std.specs.Prelude.{◌≡◌, ◌<◌, ◌≤◌, [], ◌∷◌, ◌++◌, map, length, Ok, IfOk, OnOk, IfErr, IsTrue};
ghost use Rattle.std.specs.List.{AllZip, flat_map};
ghost use Rattle.std.specs.Str.{bytes_eq};
ghost use Rattle.indexmap.specs.IndexSet.{insert_all};
ghost use Rattle.pf_routes.specs.EdgeText.{edge_text};
ghost use Rattle.pf_routes.specs.FlowText.{ends_of};
ghost use Rattle.pf_routes.specs.Internal.Links.{name_at, edges_between, AllBelow, KeepsNames, NumbersInTurn, IsNumberOf};
ghost use Rattle.pf_routes.specs.Internal.Parsed.{RefusesText, edge_read, edges_taken, names_taken, AreEndsOf};

use crate::routes::edge_text::{NamedEdge, ReadLine, read_line};
use crate::routes::name::Name;
use indexmap::IndexSet;
use pf_adjacency::NumberedEdge;
use pf_route_io::error::RouteError;
use std::alloc::{AllocError, AllocFailed, Allocator};
use std::hash::BuildHasher;

/// How many edges are read before their names are numbered.
///
/// A look-up waits for memory. Those of a block follow close on one another, so that the processor
/// waits for several of them at once.
const BLOCK: usize = 64;

/// Names, each once. The number of a name is its place.
pub(crate) type Names<'a, S, A> = IndexSet<Name<'a>, S, A>;

/// An edge between two numbers. An `IndexSet` gives no number that 32 bits do not hold, and a text has
/// many edges.
#[derive(Clone, Copy, Debug)]
pub(crate) struct Link {
    pub(crate) source: u32,
    pub(crate) target: u32,
    pub(crate) cost: u64,
}

impl NumberedEdge<u64> for Link {
    ghost ends = { λ link. (link.source, link.target, link.cost) };

    fn ends(&self) -> (usize, usize, u64) {
        (self.source as usize, self.target as usize, self.cost)
    }
}

/// The number of a name, which is added if it is new.
pub(crate) fn number<'a, S: BuildHasher, A: Allocator + Copy>(
    names: &mut Names<'a, S, A>,
    name: &'a [u8],
) -> Result<usize, AllocFailed<Name<'a>>>
    ensures within { IfOk result (λ n. n < length names.new.keys) }
    ensures named { IfOk result (λ n. name_at names.new.keys n ≡ name.now) }
    ensures kept { OnOk result (KeepsNames names.old.keys names.new.keys) }
    ensures met { OnOk result (NumbersInTurn names.old.keys (name.now ∷ []) names.new.keys) }
{
    let (n, _) = names.insert_full(Name::new(name))?;
    Ok(n)
}

/// The numbers of the names of an edge, of each that has one.
#[derive(Clone, Copy)]
struct Ends {
    from: Option<usize>,
    to: Option<usize>,
}

/// The number of a name, where it has one.
fn known_number<S: BuildHasher, A: Allocator + Copy>(
    names: &Names<'_, S, A>,
    name: &Name<'_>,
) -> Option<usize>
    ensures { IsNumberOf names.now.keys name.now.now result }
{
    names.get_index_of(name)
}

/// Has the edge a name of the edge before it?
fn meets(edge: &NamedEdge<'_>, before: &NamedEdge<'_>) -> bool {
    edge.from == before.to
        || edge.to == before.from
        || edge.from == before.from
        || edge.to == before.to
}

/// The numbers that the names of an edge have so far. None is told where it meets the edge before it,
/// by which it is soon numbered.
fn ends_unless_near<S: BuildHasher, A: Allocator + Copy>(
    names: &Names<'_, S, A>,
    edge: &NamedEdge<'_>,
    before: &NamedEdge<'_>,
) -> Ends
    ensures { AreEndsOf names.now.keys edge.now result }
{
    if meets(edge, before) {
        return Ends {
            from: None,
            to: None,
        };
    }
    let from = known_number(names, &edge.from);
    let to = known_number(names, &edge.to);
    Ends { from, to }
}

/// The numbers that the names of the edges have so far, of each edge that does not meet the one before.
fn known_ends<S: BuildHasher, A: Allocator + Copy>(
    alloc: A,
    names: &Names<'_, S, A>,
    edges: &[NamedEdge<'_>],
) -> Result<Vec<Ends, A>, AllocError>
    ensures { IfOk result (λ ends. AllZip (AreEndsOf names.now.keys) edges.now ends.items) }
{
    let mut ends = Vec::with_capacity(alloc, edges.len())?;
    'edges: for (place, edge) in edges.iter().enumerate() {
        let before = &edges[place.saturating_sub(1)];
        ends.push(ends_unless_near(names, edge, before))?;
    }
    Ok(ends)
}

/// Is this the name of the number?
fn is_named<S: BuildHasher, A: Allocator + Copy>(
    names: &Names<'_, S, A>,
    number: usize,
    name: &Name<'_>,
) -> bool
    ensures { IsTrue result → (number < length names.now.keys) × (name_at names.now.keys number ≡ name.now.now) }
{
    match names.get_index(number) {
        Some(known) => *known == *name,
        None => false,
    }
}

/// The number of a name, which is added if it is new. The number is likely to be one of these two.
fn number_near<'a, S: BuildHasher, A: Allocator + Copy>(
    names: &mut Names<'a, S, A>,
    name: &Name<'a>,
    first: usize,
    second: usize,
) -> Result<usize, AllocFailed<Name<'a>>>
    ensures within { IfOk result (λ n. n < length names.new.keys) }
    ensures named { IfOk result (λ n. name_at names.new.keys n ≡ name.now.now) }
    ensures kept { OnOk result (KeepsNames names.old.keys names.new.keys) }
    ensures met { OnOk result (NumbersInTurn names.old.keys (name.now.now ∷ []) names.new.keys) }
{
    if is_named(names, first, name) {
        return Ok(first);
    }
    if is_named(names, second, name) {
        return Ok(second);
    }
    let (n, _) = names.insert_full(name.copied())?;
    Ok(n)
}

/// The same as `number_near`, where the number may be known.
fn number_unless_known<'a, S: BuildHasher, A: Allocator + Copy>(
    names: &mut Names<'a, S, A>,
    name: &Name<'a>,
    known: Option<usize>,
    first: usize,
    second: usize,
) -> Result<usize, AllocFailed<Name<'a>>>
    requires { IsNumberOf names.old.keys name.now.now known }
    ensures within { IfOk result (λ n. n < length names.new.keys) }
    ensures named { IfOk result (λ n. name_at names.new.keys n ≡ name.now.now) }
    ensures kept { OnOk result (KeepsNames names.old.keys names.new.keys) }
    ensures met { OnOk result (NumbersInTurn names.old.keys (name.now.now ∷ []) names.new.keys) }
{
    match known {
        Some(n) => Ok(n),
        None => number_near(names, name, first, second),
    }
}

/// The edge between two numbers.
fn link_of(source: usize, target: usize, cost: u64) -> Result<Link, RouteError>
    ensures link { IfOk result (λ l. l ≡ record { source = source; target = target; cost = cost }) }
    ensures refused { IfErr result (λ e. e ≡ RouteError.OutOfMemory) }
{
    match (u32::try_from(source), u32::try_from(target)) {
        (Ok(source), Ok(target)) => Ok(Link {
            source,
            target,
            cost,
        }),
        _ => Err(RouteError::OutOfMemory),
    }
}

/// Adds a link for each of the edges, between the numbers of its names.
fn link_all<'a, S: BuildHasher, A: Allocator + Copy>(
    alloc: A,
    names: &mut Names<'a, S, A>,
    links: &mut Vec<Link, A>,
    edges: &[NamedEdge<'a>],
) -> Result<(), RouteError>
    requires below { AllBelow (length names.old.keys) links.old.items }
    ensures edges { OnOk result (edges_between names.new.keys links.new.items ≡ edges_between names.old.keys links.old.items ++ map edge_read edges.now) }
    ensures below { OnOk result (AllBelow (length names.new.keys) links.new.items) }
    ensures kept { OnOk result (KeepsNames names.old.keys names.new.keys) }
    ensures met { OnOk result (NumbersInTurn names.old.keys (flat_map ends_of (map edge_read edges.now)) names.new.keys) }
    ensures refused { IfErr result (λ e. e ≡ RouteError.OutOfMemory) }
{
    // Most names are known. These look-ups change nothing, and do not wait for one another.
    let ends = known_ends(alloc, names, edges)?;
    let mut source = 0;
    let mut target = 0;
    'edges: for (place, edge) in edges.iter().enumerate() {
        let known = ends[place];
        // Often an edge leaves the node that the one before it led to or left, and leads back.
        let before = source;
        source = number_unless_known(names, &edge.from, known.from, target, before)?;
        target = number_unless_known(names, &edge.to, known.to, before, target)?;
        let link = link_of(source, target, edge.cost)?;
        links.push(link)?;
    }
    Ok(())
}

/// Puts an edge behind those that wait, and adds the links of all that wait once they are a block.
fn take_edge<'a, S: BuildHasher, A: Allocator + Copy>(
    alloc: A,
    names: &mut Names<'a, S, A>,
    links: &mut Vec<Link, A>,
    waiting: &mut Vec<NamedEdge<'a>, A>,
    edge: NamedEdge<'a>,
) -> Result<(), RouteError>
    requires below { AllBelow (length names.old.keys) links.old.items }
    ensures edges { OnOk result (edges_taken names.new.keys links.new.items waiting.new.items ≡ edges_taken names.old.keys links.old.items waiting.old.items ++ edge_read edge.entry ∷ []) }
    ensures below { OnOk result (AllBelow (length names.new.keys) links.new.items) }
    ensures kept { OnOk result (KeepsNames names.old.keys names.new.keys) }
    ensures met { OnOk result (names_taken names.new.keys waiting.new.items ≡ insert_all bytes_eq (names_taken names.old.keys waiting.old.items) (ends_of (edge_read edge.entry))) }
    ensures refused { IfErr result (λ e. e ≡ RouteError.OutOfMemory) }
{
    waiting.push(edge)?;
    if waiting.len() < BLOCK {
        return Ok(());
    }
    link_all(alloc, names, links, waiting)?;
    waiting.clear();
    Ok(())
}

/// A link for each edge of the text, between the numbers of its names.
pub(crate) fn read_links<'a, S: BuildHasher, A: Allocator + Copy>(
    alloc: A,
    names: &mut Names<'a, S, A>,
    text: &'a [u8],
) -> Result<Vec<Link, A>, RouteError>
    ensures edges { IfOk result (λ links. edge_text text.now ≡ Ok (edges_between names.new.keys links.items)) }
    ensures below { IfOk result (λ links. AllBelow (length names.new.keys) links.items) }
    ensures kept { OnOk result (KeepsNames names.old.keys names.new.keys) }
    ensures met { IfOk result (λ links. NumbersInTurn names.old.keys (flat_map ends_of (edges_between names.new.keys links.items)) names.new.keys) }
    ensures err { IfErr result (λ e. RefusesText e text.now) }
{
    let mut links = Vec::new(alloc);
    let mut waiting = Vec::with_capacity(alloc, BLOCK)?;
    let mut line = 0u64;
    let mut rest = Some(text);
    while let Some(here) = rest {
        line += 1;
        let Some(read) = read_line(here) else {
            return Err(RouteError::BadEdge(line));
        };
        let ReadLine { edge, rest: left } = read;
        if let Some(edge) = edge {
            take_edge(alloc, names, &mut links, &mut waiting, edge)?;
        }
        rest = left;
    }
    link_all(alloc, names, &mut links, &waiting)?;
    Ok(links)
}
