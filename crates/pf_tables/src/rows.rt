//! Graphs as a row of edges for each node.

ghost use Rattle.std.specs.Prelude.{◌≡◌, length, IfOk, IfErr};
ghost use Rattle.pf_tables.specs.Graphs.{IsGraph, filled, row_of};
ghost use Rattle.pf_tables.specs.Faults.{IsFirstFault};

use crate::checks::check_part;
use crate::error::TableError;
use crate::graph::Graph;
use crate::row::Row;
use pf_base::Cost;
use std::marker::{Model, PhantomData};

/// A graph in a table that is lent: the edges from the node n are the row n.
///
/// A contract sees the list of the rows.
#[derive(Drop)]
pub struct Rows<'a, R: Row<C>, C: Cost> {
    rows: &'a [R],
    cost: PhantomData<C>,
}

impl<'a, R: Row<C>, C: Cost> Model for Rows<'a, R, C> {
    ghost use Rattle.std.specs.Prelude.{List, length};
    ghost use Rattle.pf_tables.specs.Graphs.{IsGraph, filled, row_of};

    ghost Value = { List R };

    ghost view = { λ s. s.rows.now };

    ghost invariant = { λ s. IsGraph C.value (length s.rows.now) (λ n. filled (row_of R.edges s.rows.now n)) };
}

impl<'a, R: Row<C>, C: Cost> Rows<'a, R, C> {
    /// The graph of these rows.
    ///
    /// Refused are an edge that leads to no row, as `TargetOutside`, and one that costs less than
    /// 0, as `NegativeCost`. The error names the first such edge.
    pub fn new(rows: &'a [R]) -> Result<Self, TableError>
        ensures graph { IfOk result (λ graph. graph ≡ rows.now) }
        ensures sound { IfOk result (λ graph. IsGraph C.value (length graph) (λ node. filled (row_of R.edges graph node))) }
        ensures fault { IfErr result (IsFirstFault C.value (length rows.now) (row_of R.edges rows.now)) }
    {
        for (node, row) in rows.iter().enumerate() {
            check_part(row, 0, row.len(), node, rows.len())?;
        }
        Ok(Rows {
            rows,
            cost: PhantomData,
        })
    }
}

impl<'a, R: Row<C>, C: Cost> Graph<C> for Rows<'a, R, C> {
    ghost size = { length };

    ghost places = { λ rows node. filled (row_of R.edges rows node) };

    fn len(&self) -> usize {
        self.rows.len()
    }

    fn places(&self, node: usize) -> usize {
        let rows = self.rows;
        rows[node].len()
    }

    fn edge(&self, node: usize, place: usize) -> Option<(usize, C)> {
        let rows = self.rows;
        Some(rows[node].edge(place))
    }

    fn known(&self) {
        let _rows = &self.rows;
    }
}
