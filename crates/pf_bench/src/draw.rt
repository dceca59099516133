//! The numbers that inputs are made of.

ghost use Rattle.std.specs.Prelude.{◌<◌, ◌≤◌};

/// How far an edge leads where there are no cycles.
const SPAN: usize = 50;

/// A linear congruential generator. Each input begins with a fresh one.
#[derive(Drop)]
pub struct Draws {
    state: u64,
}

impl Draws {
    pub fn new() -> Draws {
        Draws { state: 1 }
    }

    /// The next number, modulo `bound`.
    pub fn below(&mut self, bound: usize) -> usize
        requires { 0 < bound }
        ensures { result < bound }
    {
        self.state = self
            .state
            .wrapping_mul(6364136223846793005)
            .wrapping_add(1442695040888963407);
        (self.state >> 33) as usize % bound
    }

    /// The end of an edge from a node: any node, or without cycles one of the 50 numbers behind its own.
    pub fn target(&mut self, node: usize, size: usize, has_cycles: bool) -> usize
        requires { node < size }
    {
        if has_cycles {
            self.below(size)
        } else {
            (node + 1).saturating_add(self.below(SPAN))
        }
    }

    /// The next number as a cost from 1 to 1000.
    pub fn cost(&mut self) -> u32 {
        1 + self.below(1000) as u32
    }
}
