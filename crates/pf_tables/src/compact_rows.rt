//! Graphs in compact form: the edges of all nodes in one row, and where those of each node begin.

ghost use Rattle.std.specs.Prelude.{◌≡◌, ◌⊎◌, ◌-◌, length, IfOk, IfErr, MatchResult};
ghost use Rattle.pf_tables.specs.Graphs.{between, filled};
ghost use Rattle.pf_tables.specs.Faults.{IsSoundRow, IsFirstFault};
ghost use Rattle.pf_tables.specs.Offsets.{IsCompact, IsOffsets, IsOffsetFault, IsCompactFault};
ghost use Rattle.pf_tables.specs.Internal.SoundRows.{AreSoundRows};

use crate::checks::check_part;
use crate::error::TableError;
use crate::graph::Graph;
use crate::row::Row;
use pf_base::Cost;
use std::marker::{Model, PhantomData};

/// A graph in compact form: the edges from the node n are those from the place `offsets[n]` on up
/// to the place `offsets[n + 1]`, which is not among them. There is one offset more than nodes.
///
/// A contract sees the offsets and the edges.
#[derive(Drop)]
pub struct CompactRows<'a, R: Row<C>, C: Cost> {
    offsets: &'a [usize],
    edges: R,
    cost: PhantomData<C>,
}

impl<'a, R: Row<C>, C: Cost> Model for CompactRows<'a, R, C> {
    ghost use Rattle.std.specs.Prelude.{List, ℕ};
    ghost use Rattle.pf_tables.specs.Offsets.{IsCompact};

    ghost Value = { List ℕ × List (ℕ × C) };

    ghost view = { λ s. (s.offsets.now, R.edges s.edges) };

    ghost invariant = { λ s. IsCompact C.value s.offsets.now (R.edges s.edges) };
}

/// Tests that offsets begin with 0, never fall, and end with the number of edges.
fn check_offsets(offsets: &[usize], edges: usize) -> Result<(), TableError>
    ensures { MatchResult result (λ _. IsOffsets offsets.now edges) (IsOffsetFault offsets.now edges) }
{
    if offsets.is_empty() || offsets[0] != 0 {
        return Err(TableError::NoFirstOffset);
    }
    let nodes = offsets.len() - 1;
    for node in 0..nodes {
        if offsets[node + 1] < offsets[node] {
            return Err(TableError::FallingOffset { node });
        }
    }
    if offsets[nodes] != edges {
        return Err(TableError::WrongLastOffset);
    }
    Ok(())
}

/// Tests the edges of each node.
fn check_rows<R: Row<C>, C: Cost>(offsets: &[usize], edges: &R) -> Result<(), TableError>
    requires { IsOffsets offsets.now (length (R.edges edges.now)) }
    ensures { MatchResult result
        (λ _. AreSoundRows C.value (length offsets.now - 1) (between offsets.now (R.edges edges.now)))
        (IsFirstFault C.value (length offsets.now - 1) (between offsets.now (R.edges edges.now))) }
{
    let nodes = offsets.len() - 1;
    for node in 0..nodes {
        check_part(edges, offsets[node], offsets[node + 1], node, nodes)?;
    }
    Ok(())
}

impl<'a, R: Row<C> + Drop, C: Cost> CompactRows<'a, R, C> {
    /// The graph of these offsets and edges.
    ///
    /// The offsets are tested first: `NoFirstOffset` where there are none or the first is not 0,
    /// else `FallingOffset` with the first node whose next offset is below its own, else
    /// `WrongLastOffset` where the last is not the number of edges. Then the edges are: the error
    /// names the first one that leads to no node, as `TargetOutside`, or costs less than 0, as
    /// `NegativeCost`.
    pub fn new(offsets: &'a [usize], edges: R) -> Result<Self, TableError>
        ensures graph { IfOk result (λ graph. graph ≡ (offsets.now, R.edges edges)) }
        ensures sound { IfOk result (λ graph. IsCompact C.value graph.0 graph.1) }
        ensures fault { IfErr result (IsCompactFault C.value offsets.now (R.edges edges)) }
    {
        check_offsets(offsets, edges.len())?;
        check_rows(offsets, &edges)?;
        Ok(CompactRows {
            offsets,
            edges,
            cost: PhantomData,
        })
    }
}

impl<'a, R: Row<C>, C: Cost> Graph<C> for CompactRows<'a, R, C> {
    ghost size = { λ graph. length graph.0 - 1 };

    ghost places = { λ graph node. filled (between graph.0 graph.1 node) };

    fn len(&self) -> usize {
        self.offsets.len() - 1
    }

    fn places(&self, node: usize) -> usize {
        let offsets = self.offsets;
        offsets[node + 1] - offsets[node]
    }

    fn edge(&self, node: usize, place: usize) -> Option<(usize, C)> {
        let offsets = self.offsets;
        Some(self.edges.edge(offsets[node] + place))
    }

    fn known(&self) {
        let _offsets = &self.offsets;
    }
}
