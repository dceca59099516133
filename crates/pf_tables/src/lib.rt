//! Graphs in tables, over nodes that are numbers, and cheapest paths in them. A search over one asks
//! no proof of its caller.
#![tactic(auto)]

mod cheapest;
mod checks;
mod compact_rows;
mod costless;
mod error;
mod goals;
mod graph;
mod own_numbers;
mod row;
mod rows;

pub use crate::cheapest::dijkstra;
pub use crate::compact_rows::CompactRows;
pub use crate::costless::Costless;
pub use crate::error::TableError;
pub use crate::goals::Goals;
pub use crate::graph::Graph;
pub use crate::row::Row;
pub use crate::rows::Rows;
