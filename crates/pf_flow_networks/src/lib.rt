//! Networks of vertices with names, whose capacities change: greatest flows and least cuts. No call
//! asks a proof of its caller.
#![tactic(auto)]

mod flow_network;

pub use crate::flow_network::FlowNetwork;
