//! What an iterable gives, by a name for contracts.
//!
//! No crate exports this module.

ghost use Rattle.std.specs.Prelude.{List};
ghost use Rattle.pf_matrix.specs.Giving.{GivesAll, GivesFirst};

/// Values that are given in turn. Every iterable of such values is one.
pub trait Giving<T> {
    // An iterator that is made of it gives these values until it ends.
    ghost gives_all: { Self → List T → Type 0 };

    // An iterator that is made of it gives these values first.
    ghost gives_first: { Self → List T → Type 0 };

    /// Does nothing: a trait with a ghost member has a function.
    fn as_giving(&self);
}

impl<T, I: IntoIterator<Item = T>> Giving<T> for I {
    ghost gives_all = { GivesAll I.into_iter_gives I.IntoIter.next_gives };

    ghost gives_first = { GivesFirst I.into_iter_gives I.IntoIter.next_gives };

    fn as_giving(&self) {}
}
