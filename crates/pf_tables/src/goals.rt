//! Which nodes a search looks for.

ghost use Rattle.std.specs.Prelude.{◌≡◌, ◌==◌, ℕ, Bool};
ghost use Rattle.pf_tables.specs.Goals.{is_marked};

/// The goals of a search over a table.
pub trait Goals {
    // Whether a node is a goal.
    ghost passes: { Self → ℕ → Bool };

    /// Is the node a goal?
    fn is_goal(&self, node: usize) -> bool
        ensures { result ≡ passes self.now node };
}

/// The node of this number is the one goal.
impl Goals for usize {
    ghost passes = { λ goal node. node == goal };

    fn is_goal(&self, node: usize) -> bool {
        node == *self
    }
}

/// A node is a goal where its mark is true; a node without a mark is none.
impl<'m> Goals for &'m [bool] {
    ghost passes = { λ marks. is_marked marks.now };

    fn is_goal(&self, node: usize) -> bool {
        match self.get(node) {
            Some(mark) => *mark,
            None => false,
        }
    }
}
