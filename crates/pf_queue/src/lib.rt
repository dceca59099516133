//! A queue of costs, each with a number, from which a least is taken. No crate exports this layer.
#![tactic(auto)]

pub mod cost_queue;
mod exposing;
mod parts;
mod sinking;

pub use crate::cost_queue::CostQueue;
