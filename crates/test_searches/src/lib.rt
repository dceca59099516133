//! Tests of the calls of the library, and callers that show how they are proved. All of it but the
//! types of `jugs` and `counts` is read for the tests alone, so that it is proved once.
#![tactic(auto)]

#[cfg(test)]
mod both_ends;
#[cfg(test)]
mod compact;
// Its type is not for tests alone: specs/ has a word on it.
mod counts;
#[cfg(test)]
mod fewest;
#[cfg(test)]
mod grid;
// As of `counts`.
mod jugs;
#[cfg(test)]
mod list;
#[cfg(test)]
mod loops;
#[cfg(test)]
mod named;
#[cfg(test)]
mod no_case;
#[cfg(test)]
mod preorder;
#[cfg(test)]
mod reach;
#[cfg(test)]
mod ring;
#[cfg(test)]
mod rows;
#[cfg(test)]
mod tests;
#[cfg(test)]
mod walks;
