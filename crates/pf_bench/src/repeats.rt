//! Calls that are made again and again.

use crate::error::BenchError;

/// What a job prints of its last result. `None`: the call had no answer.
pub type Check = Option<u64>;

/// The check of a call, or why there is none. A call that is told that it is not the last one drops
/// its result, and its check counts for nothing.
pub type Outcome = Result<Check, BenchError>;

/// How often a call is made.
#[derive(Drop)]
pub struct Repeats(pub u64);

impl Repeats {
    /// Makes the call so often, telling it whether it is the last one, and answers the check of the
    /// last one. Without a call the check is 0.
    pub fn check<F>(&self, mut call: F) -> Outcome
    where
        F: FnMut(bool) -> Outcome,
        requires { F.IsAlwaysCallable call }
    {
        let mut check = Some(0);
        for before in 0..self.0 {
            check = call(before + 1 == self.0)?;
        }
        Ok(check)
    }
}
