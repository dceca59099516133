//! Tests of the calls of `pf_flow`, and a caller that shows how they are proved.
#![tactic(auto)]

#[cfg(test)]
mod pipes;
#[cfg(test)]
mod tests;
#[cfg(test)]
mod totals;
