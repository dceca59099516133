//! The positions around a position.

ghost use Rattle.std.specs.Prelude.{◌≡◌, ◌<◌};
ghost use Rattle.std.specs.Iterator.{YieldsFirst, item_count};
ghost use Rattle.pf_matrix.specs.Positions.{shifted, neighbour_at, neighbours_of};

use crate::matrix::Matrix;
use pf_base::shift::Shift;
use std::alloc::Allocator;
use std::marker::Model;

/// The eight ways to go, by rows.
const AROUND: [(Shift, Shift); 8] = [
    (Shift::Before, Shift::Before),
    (Shift::Before, Shift::Same),
    (Shift::Before, Shift::After),
    (Shift::Same, Shift::Before),
    (Shift::Same, Shift::After),
    (Shift::After, Shift::Before),
    (Shift::After, Shift::Same),
    (Shift::After, Shift::After),
];

/// The positions around a position, by rows. It borrows nothing. A contract sees the list of the
/// positions that are left.
#[derive(Drop)]
pub struct Neighbours {
    position: (usize, usize),
    rows: usize,
    columns: usize,
    diagonals: bool,
    next: usize,
}

impl Model for Neighbours {
    ghost use Rattle.std.specs.Prelude.{ℕ, ◌<◌, ◌≤◌, List, drop};
    ghost use Rattle.std.specs.List.{filter_map};
    ghost use Rattle.pf_matrix.specs.Positions.{neighbour_at, around};

    ghost Value = { List (ℕ × ℕ) };

    ghost view = { λ s. filter_map (neighbour_at s.rows s.columns s.position.0 s.position.1 s.diagonals) (drop s.next around) };

    ghost invariant = { λ s. (s.next ≤ 8) × (s.next < 8 → (s.position.0 < s.rows) × (s.position.1 < s.columns)) };
}

impl<C, A: Allocator> Matrix<C, A> {
    /// The positions around `position` that are inside, by rows: with diagonals up to eight, else
    /// those in its row or its column alone. A position outside has none. What is added to the
    /// matrix later is not among them.
    pub fn neighbours(&self, position: (usize, usize), diagonals: bool) -> Neighbours
        ensures { result ≡ neighbours_of self.now.rows self.now.columns position.0 position.1 diagonals }
    {
        let inside = self.within_bounds(position);
        Neighbours {
            position,
            rows: self.rows,
            columns: self.columns,
            diagonals,
            next: if inside { 0 } else { 8 },
        }
    }
}

impl Iterator for Neighbours {
    type Item = (usize, usize);

    ghost next_gives = { YieldsFirst (λ positions. positions) };

    ghost remaining = { item_count (λ positions. positions) };

    fn next(&mut self) -> Option<(usize, usize)> {
        while self.next < 8 {
            let to = AROUND[self.next];
            self.next += 1;
            let found = neighbour(self.position, (self.rows, self.columns), self.diagonals, to);
            if found.is_some() {
                return found;
            }
        }
        None
    }
}

/// The position that two shifts lead to, if it is inside and may be gone to.
fn neighbour(
    position: (usize, usize),
    sizes: (usize, usize),
    diagonals: bool,
    to: (Shift, Shift),
) -> Option<(usize, usize)>
    requires row { position.0 < sizes.0 }
    requires column { position.1 < sizes.1 }
    ensures { result ≡ neighbour_at sizes.0 sizes.1 position.0 position.1 diagonals to }
{
    if !diagonals && to.0 != Shift::Same && to.1 != Shift::Same {
        return None;
    }
    let row = shifted_place(position.0, sizes.0, to.0)?;
    let column = shifted_place(position.1, sizes.1, to.1)?;
    Some((row, column))
}

/// The place that a shift leads to among `size` places, if there is one.
fn shifted_place(at: usize, size: usize, to: Shift) -> Option<usize>
    requires { at < size }
    ensures { result ≡ shifted size at to }
{
    match to {
        Shift::Before => at.checked_sub(1),
        Shift::Same => Some(at),
        Shift::After if size - at > 1 => Some(at + 1),
        Shift::After => None,
    }
}
