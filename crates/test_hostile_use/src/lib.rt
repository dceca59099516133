//! Tests of hostile use: odd names, costs at the ends of their types and great depth, texts and devices
//! that are broken, and memory that is refused.
#![tactic(auto)]

#[cfg(test)]
mod chained;
#[cfg(test)]
mod cheapest;
#[cfg(test)]
mod cycles;
#[cfg(test)]
mod flows;
#[cfg(test)]
mod letter;
#[cfg(test)]
mod listed;
#[cfg(test)]
mod minutes;
#[cfg(test)]
mod names;
#[cfg(test)]
mod plain;
#[cfg(test)]
mod table_parents;
#[cfg(test)]
mod tests;
#[cfg(test)]
mod walks;
