//! The layer that searches over functions share: nodes that are numbered as they are found, and
//! the searches over numbers that they alone want.
//!
//! `source` is what is asked, `numbering` numbers nodes, `discovery` asks and has the nodes numbered.
//! No crate exports this layer.
#![tactic(auto)]

pub mod bfs_loop;
pub mod depth_first;
pub mod discovery;
pub mod given;
pub mod numbering;
pub mod source;
pub mod tested;
