//! Where a walk stands between two calls of `next`.

ghost use Rattle.std.specs.Prelude.{◌≡◌, ◌↔◌, false, true, IsErrOf};
ghost use Rattle.std.specs.Result.{is_err};
ghost use Rattle.pf_yen.specs.Internal.Standing.{is_barred, was_refused};

use pf_base::PathError;

/// Where a walk stands between two calls of `next`.
#[derive(Clone, Copy)]
pub enum Standing {
    /// The last step, if there was one, was not refused.
    GoesOn,
    /// The last step was refused for want of memory.
    Refused,
    /// The last step was refused for a cost overflow.
    Overflowed,
    /// The last step was refused for a cost overflow, and `resume` was called since.
    OverflowsAgain,
}

impl Standing {
    /// Where a walk stands after this step.
    pub fn after<X>(step: &Result<X, PathError>) -> Self
        ensures refused { was_refused result ≡ is_err step.now }
        ensures barred { (is_barred result ≡ true) ↔ IsErrOf step.now PathError.CostOverflow }
    {
        match step {
            Ok(_) => Standing::GoesOn,
            Err(PathError::CostOverflow) => Standing::Overflowed,
            Err(_) => Standing::Refused,
        }
    }

    /// Where a walk that stood here stands after a call of `resume`.
    pub fn resumed(self) -> Self
        ensures refused { was_refused result ≡ false }
        ensures barred { is_barred result ≡ is_barred self }
    {
        match self {
            Standing::GoesOn | Standing::Refused => Standing::GoesOn,
            Standing::Overflowed | Standing::OverflowsAgain => Standing::OverflowsAgain,
        }
    }

    /// Was the last step refused, and `resume` not called since?
    pub fn was_refused(self) -> bool
        ensures { result ≡ was_refused self }
    {
        matches!(self, Standing::Refused | Standing::Overflowed)
    }

    /// Was the step to come refused for a cost overflow?
    pub fn is_barred(self) -> bool
        ensures { result ≡ is_barred self }
    {
        matches!(self, Standing::Overflowed | Standing::OverflowsAgain)
    }
}
