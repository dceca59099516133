//! Tests of searches over states that an estimate leads, and of orders,
//! components and ranked paths of states.
#![tactic(auto)]

// Its type is not for tests alone: specs/ has words on it.
mod cells;
#[cfg(test)]
mod orders;
#[cfg(test)]
mod tests;
