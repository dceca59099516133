//! Tests of the searches of `pf_search`.

mod both_ways;
mod dear_steps;
mod lists;
mod parents;
mod rows;
