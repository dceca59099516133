//! The edges of one vertex, sorted by the other end.

ghost use Rattle.std.specs.Prelude.{pos, map, ◌<ℤ◌, neg_ℤ, ◌≡◌, ◌≤◌, ◌<◌, ◌+ℤ◌, ◌-ℤ◌, ℕ, List, [], true, false, length, if◌then◌else◌, IfSome, IfNone, IfErr, OnErr, OnOk, IfOk};
ghost use Rattle.std.specs.List.{HoldsAt};
ghost use Rattle.pf_residual.specs.SparseRows.{ends, has_end, amount_to};
ghost use Rattle.pf_residual.specs.Internal.RowChanges.{Rises, place_of, IsRowChanged, with_edge, without_edge, AreBelow};
ghost use Rattle.pf_residual.specs.Listings.{ListsNumbers, ListsVertices};
ghost use Rattle.pf_residual.specs.declared.sparse_row.Edge.{Edge};
ghost use Rattle.pf_base.specs.declared.error.PathError.TheVariants.{OutOfMemory};

use pf_base::cost::arithmetic::{is_below, plus};
use pf_base::{PathError, SignedCost};
use std::alloc::{AllocError, Allocator};
use std::fmt::{self, Debug};
use std::marker::Model;

/// An edge: its other end, and the residual capacity and the flow towards it.
#[derive(Clone, Copy, Debug)]
pub struct Edge<C> {
    to: usize,
    residual: C,
    flow: C,
}

/// The edges of one vertex, sorted by the other end.
#[derive(Drop)]
pub struct Row<C, A: Allocator> {
    edges: Vec<Edge<C>, A>,
}

impl<C, A: Allocator> Model for Row<C, A> {
    ghost use Rattle.std.specs.Prelude.{List};
    ghost use Rattle.pf_residual.specs.declared.sparse_row.Edge.{Edge};

    ghost Value = { List (Edge C) };

    ghost view = { λ r. r.edges.items };
}

/// A clone has the same edges.
impl<C: Copy + Drop, A: Allocator + Copy> Clone for Row<C, A> {
    ghost is_clone = { λ r s. s ≡ r };

    fn clone(&self) -> Result<Self, AllocError> {
        let edges = Vec::from_slice(*self.edges.allocator(), self.edges.as_slice())?;
        Ok(Row { edges })
    }
}

impl<C: fmt::Debug, A: Allocator> fmt::Debug for Row<C, A> {
    fn fmt<W: fmt::Write>(&self, f: &mut fmt::Formatter<W>) -> fmt::Result {
        self.edges.as_slice().fmt(f)
    }
}

impl<C, A: Allocator> Row<C, A> {
    /// A row without edges. It takes no memory.
    pub fn new(alloc: A) -> Self
        ensures { result ≡ [] }
    {
        Row {
            edges: Vec::new(alloc),
        }
    }

    /// A row without edges, with room for so many. The only error is `OutOfMemory`.
    pub fn with_room(alloc: A, count: usize) -> Result<Self, PathError>
        ensures empty { IfOk result (λ row. row ≡ []) }
        ensures refused { IfErr result (λ e. e ≡ OutOfMemory) }
    {
        let edges = Vec::with_capacity(alloc, count)?;
        Ok(Row { edges })
    }
}

/// How many edges lead to vertices below `to`.
fn place<C>(row: &[Edge<C>], to: usize) -> usize
    requires { Rises 0 (ends row.now) }
    ensures place { result ≡ place_of (ends row.now) to }
    ensures bound { result ≤ length row.now }
{
    // Edges are often put in by rising ends: then no edge but the last is looked at.
    match row.last() {
        Some(last) if last.to < to => row.len(),
        Some(last) if last.to == to => row.len() - 1,
        _ => row.partition_point(|edge| edge.to < to),
    }
}

/// The place of the edge to a vertex.
fn find<C>(row: &[Edge<C>], to: usize) -> Option<usize>
    requires { Rises 0 (ends row.now) }
    ensures place { IfSome result (λ p. p ≡ place_of (ends row.now) to) }
    ensures bound { IfSome result (λ p. p < length row.now) }
    ensures leads { IfSome result (λ p. HoldsAt (λ e. e.to ≡ to) row.now p) }
    ensures found { IfSome result (λ _. has_end (ends row.now) to ≡ true) }
    ensures none { IfNone result (has_end (ends row.now) to ≡ false) }
{
    let place = place(row, to);
    if place < row.len() && row[place].to == to {
        Some(place)
    } else {
        None
    }
}

/// The same as `find`, for an edge that is likely to stand at a place.
fn find_near<C>(row: &[Edge<C>], to: usize, near: usize) -> Option<usize>
    requires { Rises 0 (ends row.now) }
    ensures place { IfSome result (λ p. p ≡ place_of (ends row.now) to) }
    ensures bound { IfSome result (λ p. p < length row.now) }
    ensures leads { IfSome result (λ p. HoldsAt (λ e. e.to ≡ to) row.now p) }
    ensures found { IfSome result (λ _. has_end (ends row.now) to ≡ true) }
    ensures none { IfNone result (has_end (ends row.now) to ≡ false) }
{
    if near < row.len() && row[near].to == to {
        Some(near)
    } else {
        find(row, to)
    }
}

impl<C: SignedCost, A: Allocator> Row<C, A> {
    /// Whether there is an edge to a vertex.
    pub fn has(&self, to: usize) -> bool
        requires { Rises 0 (ends self.now) }
        ensures { result ≡ has_end (ends self.now) to }
    {
        find(self.edges.as_slice(), to).is_some()
    }

    /// The residual capacity of the edge to a vertex, or 0 where there is none. The edge is likely to
    /// stand at a place.
    pub fn residual(&self, to: usize, near: usize) -> C
        requires { Rises 0 (ends self.now) }
        ensures { C.value result ≡ amount_to (λ e. C.value e.residual) self.now to }
    {
        match find_near(self.edges.as_slice(), to, near) {
            Some(place) => self.edges[place].residual,
            None => C::zero(),
        }
    }

    /// The flow of the edge to a vertex, or 0 where there is none.
    pub fn flow(&self, to: usize) -> C
        requires { Rises 0 (ends self.now) }
        ensures { C.value result ≡ amount_to (λ e. C.value e.flow) self.now to }
    {
        match find(self.edges.as_slice(), to) {
            Some(place) => self.edges[place].flow,
            None => C::zero(),
        }
    }

    /// Adds to the residual capacity of the edge to a vertex.
    pub fn add_residual(&mut self, to: usize, amount: C)
        requires rises { Rises 0 (ends self.old) }
        requires edge { has_end (ends self.old) to ≡ true }
        requires fits { C.fits (amount_to (λ e. C.value e.residual) self.old to +ℤ C.value amount) }
        ensures { IsRowChanged C.value to (C.value amount) (pos 0) self.old self.new }
    {
        let Some(place) = find(self.edges.as_slice(), to) else {
            unreachable!()
        };
        let Edge { residual, flow, .. } = self.edges[place];
        self.edges[place] = Edge {
            to,
            residual: plus(residual, amount),
            flow,
        };
    }

    /// Adds to the flow of the edge to a vertex, and takes as much from its residual capacity. The edge
    /// is likely to stand at a place.
    pub fn carry(&mut self, to: usize, near: usize, amount: C)
        requires rises { Rises 0 (ends self.old) }
        requires edge { has_end (ends self.old) to ≡ true }
        requires residual { C.fits (amount_to (λ e. C.value e.residual) self.old to -ℤ C.value amount) }
        requires flow { C.fits (amount_to (λ e. C.value e.flow) self.old to +ℤ C.value amount) }
        ensures { IsRowChanged C.value to (neg_ℤ (C.value amount)) (C.value amount) self.old self.new }
    {
        let Some(place) = find_near(self.edges.as_slice(), to, near) else {
            unreachable!()
        };
        let Edge { residual, flow, .. } = self.edges[place];
        self.edges[place] = Edge {
            to,
            residual: residual.minus(amount),
            flow: plus(flow, amount),
        };
    }

    /// Takes from the flow of the edge to a vertex, and adds as much to its residual capacity.
    pub fn take_back(&mut self, to: usize, amount: C)
        requires rises { Rises 0 (ends self.old) }
        requires edge { has_end (ends self.old) to ≡ true }
        requires residual { C.fits (amount_to (λ e. C.value e.residual) self.old to +ℤ C.value amount) }
        requires flow { C.fits (amount_to (λ e. C.value e.flow) self.old to -ℤ C.value amount) }
        ensures { IsRowChanged C.value to (C.value amount) (neg_ℤ (C.value amount)) self.old self.new }
    {
        let Some(place) = find(self.edges.as_slice(), to) else {
            unreachable!()
        };
        let Edge { residual, flow, .. } = self.edges[place];
        self.edges[place] = Edge {
            to,
            residual: plus(residual, amount),
            flow: flow.minus(amount),
        };
    }

    /// The edges, by rising end.
    pub fn edges(&self) -> &[Edge<C>]
        ensures { result.now ≡ self.now }
    {
        self.edges.as_slice()
    }

    /// Adds an edge without residual capacity and flow.
    ///
    /// The only error is `OutOfMemory`, and then the row is as before.
    pub fn insert(&mut self, to: usize) -> Result<(), PathError>
        requires { Rises 0 (ends self.old) }
        ensures ok { OnOk result (self.new ≡ with_edge self.old (record { to = to; residual = C.zero; flow = C.zero })) }
        ensures unchanged { OnErr result (self.new ≡ self.old) }
        ensures refused { IfErr result (λ e. e ≡ OutOfMemory) }
    {
        let place = place(self.edges.as_slice(), to);
        let nothing = C::zero();
        let edge = Edge {
            to,
            residual: nothing,
            flow: nothing,
        };
        self.edges.insert(place, edge)?;
        Ok(())
    }

    /// Takes away the edge to a vertex.
    pub fn remove(&mut self, to: usize)
        requires rises { Rises 0 (ends self.old) }
        requires edge { has_end (ends self.old) to ≡ true }
        ensures { self.new ≡ without_edge self.old to }
    {
        if let Some(place) = find(self.edges.as_slice(), to) {
            self.edges.remove(place);
        }
    }
}

/// The ends to which there is residual capacity above 0, each with it, by rising end. The only error
/// is `OutOfMemory`.
pub fn residual_ends<C: SignedCost, A: Allocator>(
    alloc: A,
    row: &[Edge<C>],
) -> Result<Vec<(usize, C), A>, PathError>
    requires { Rises 0 (ends row.now) }
    ensures listed { IfOk result (λ list. (n : ℕ) → AreBelow n row.now → ListsNumbers C.value n (amount_to (λ e. C.value e.residual) row.now) list.items) }
    ensures refused { IfErr result (λ e. e ≡ OutOfMemory) }
{
    let mut list = Vec::new(alloc);
    for edge in row {
        if is_below(C::zero(), edge.residual) {
            list.push((edge.to, edge.residual))?;
        }
    }
    Ok(list)
}

/// Lists the ends to which there is residual capacity above 0, by rising end, each with its place, in
/// the place of what was listed before. The only error is `OutOfMemory`.
pub fn list_residual_ends<C: SignedCost, A: Allocator>(
    row: &[Edge<C>],
    list: &mut Vec<(usize, usize), A>,
) -> Result<(), PathError>
    requires { Rises 0 (ends row.now) }
    ensures listed { OnOk result ((n : ℕ) → AreBelow n row.now → ListsVertices n (λ to. pos 0 <ℤ amount_to (λ e. C.value e.residual) row.now to) (map (λ end. end.0) list.new.items)) }
    ensures refused { IfErr result (λ e. e ≡ OutOfMemory) }
{
    list.clear();
    for (place, edge) in row.iter().enumerate() {
        if is_below(C::zero(), edge.residual) {
            list.push((edge.to, place))?;
        }
    }
    Ok(())
}

/// The ends to which there is flow above 0, by rising end. The only error is `OutOfMemory`.
pub fn flow_ends<C: SignedCost, A: Allocator>(
    alloc: A,
    row: &[Edge<C>],
) -> Result<Vec<usize, A>, PathError>
    requires { Rises 0 (ends row.now) }
    ensures listed { IfOk result (λ list. (n : ℕ) → AreBelow n row.now → ListsVertices n (λ to. pos 0 <ℤ amount_to (λ e. C.value e.flow) row.now to) list.items) }
    ensures refused { IfErr result (λ e. e ≡ OutOfMemory) }
{
    let mut list = Vec::new(alloc);
    for edge in row {
        if is_below(C::zero(), edge.flow) {
            list.push(edge.to)?;
        }
    }
    Ok(list)
}
