//! Tests of the queue that searches by cost wait in.
#![tactic(auto)]

#[cfg(test)]
mod tests;
