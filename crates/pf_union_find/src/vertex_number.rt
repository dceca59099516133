//! Numbers of vertices: of 32 bits, where those of all vertices fit.

ghost use Rattle.std.specs.Prelude.{◌≡◌, ◌<◌, ◌^◌, ℕ};

/// A number that stands for a vertex.
pub trait VertexNumber: Copy {
    // The vertex that a number stands for.
    ghost stands_for: { Self → ℕ };

    // Each vertex below this has a number.
    ghost bound: { ℕ };

    /// The number of a vertex.
    fn of(vertex: usize) -> Self
        requires { vertex < bound }
        ensures { stands_for result ≡ vertex };

    /// The vertex that the number stands for.
    fn vertex(self) -> usize
        ensures { result ≡ stands_for self };
}

impl VertexNumber for u32 {
    ghost stands_for = { λ number. number };

    ghost bound = { 2 ^ 32 };

    fn of(vertex: usize) -> u32 {
        vertex as u32
    }

    fn vertex(self) -> usize {
        self as usize
    }
}

impl VertexNumber for usize {
    ghost stands_for = { λ number. number };

    ghost bound = { 2 ^ 64 };

    fn of(vertex: usize) -> usize {
        vertex
    }

    fn vertex(self) -> usize {
        self
    }
}
