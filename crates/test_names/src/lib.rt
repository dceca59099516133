//! Tests of the calls over edge lists by name. All of it is read for the tests alone, so that it is
//! proved once.
#![tactic(auto)]

#[cfg(test)]
mod answers;
#[cfg(test)]
mod guided;
#[cfg(test)]
mod refusals;
#[cfg(test)]
mod tests;
#[cfg(test)]
mod walks;
