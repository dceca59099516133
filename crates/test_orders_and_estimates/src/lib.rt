//! Tests of searches: those of `pf_search`, those of `pf_informed`, orders and components of `pf_orders`,
//! and ranked paths of `pf_yen`. All of it is read for the tests alone, so that it is proved once.
#![tactic(auto)]

#[cfg(test)]
mod informed;
#[cfg(test)]
mod orders;
#[cfg(test)]
mod search;
#[cfg(test)]
mod yen;
