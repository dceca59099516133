//! Sets of nodes that others own, as the starts of a search.
#![tactic(auto)]

pub mod noderefs;

pub use crate::noderefs::{NodeRefs, NodeRefsIntoIter, NodeRefsIter};
