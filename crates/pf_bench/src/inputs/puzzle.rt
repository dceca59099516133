//! The 15-puzzle.

ghost use Rattle.std.specs.Prelude.{◌≡◌, ◌≤◌};
ghost use Rattle.std.specs.List.{filter_map};
ghost use Rattle.pf_bench.specs.Tiles.{blank_in, distance_below, four_moves, moved_blank, slid, slid_from, solved_tiles, tile_distance};

use crate::draw::Draws;
use crate::inputs::steps::{Moves, Steps};

/// The tiles row by row, 0 for the blank.
pub type Tiles = [u8; 16];

/// How many places there are.
const PLACES: usize = 16;

/// Up, down, left, right.
const DIRECTIONS: [usize; 4] = [0, 1, 2, 3];

/// Each tile at its place.
pub fn solved() -> Tiles
    ensures { result ≡ solved_tiles }
{
    [1, 2, 3, 4, 5, 6, 7, 8, 9, 10, 11, 12, 13, 14, 15, 0]
}

/// The place of the blank, or the number of places.
fn blank_of(tiles: &Tiles) -> usize
    ensures { result ≡ blank_in tiles.now }
{
    for place in 0..PLACES {
        if tiles[place] == 0 {
            return place;
        }
    }
    PLACES
}

/// Where the blank comes to by a move: up, down, left or right.
fn moved(blank: usize, direction: usize) -> Option<usize>
    ensures { result ≡ moved_blank blank direction }
{
    if direction == 0 && blank > 3 {
        Some(blank - 4)
    } else if direction == 1 && blank < 12 {
        Some(blank + 4)
    } else if direction == 2 && blank % 4 > 0 {
        Some(blank - 1)
    } else if direction == 3 && blank % 4 < 3 {
        Some(blank + 1)
    } else {
        None
    }
}

/// The tiles after a move of the blank from its place, at the cost 1.
fn slide(tiles: Tiles, blank: usize, direction: usize) -> Option<(Tiles, u32)>
    ensures { result ≡ slid_from tiles blank direction }
{
    if blank >= PLACES {
        return None;
    }
    let to = moved(blank, direction)?;
    if to >= PLACES {
        return None;
    }
    let mut next = tiles;
    next[blank] = tiles[to];
    next[to] = 0;
    Some((next, 1))
}

/// Tiles with the place of their blank.
#[derive(Clone, Copy)]
pub struct Sliding {
    tiles: Tiles,
    blank: usize,
}

impl Moves for Sliding {
    ghost use Rattle.pf_bench.specs.Tiles.{slid_from};

    type Direction = usize;

    type Step = (Tiles, u32);

    ghost step = { λ s direction. slid_from s.tiles s.blank direction };

    fn step(&self, direction: &usize) -> Option<(Tiles, u32)> {
        slide(self.tiles, self.blank, *direction)
    }
}

/// The tiles after each move of the blank, each at the cost 1.
pub fn moves_from(tiles: Tiles) -> Steps<'static, Sliding>
    ensures { result ≡ filter_map (slid tiles) four_moves }
{
    Steps::new(
        Sliding {
            tiles,
            blank: blank_of(&tiles),
        },
        &DIRECTIONS,
    )
}

/// The rows and the columns from a place to that of a tile.
fn distance(place: usize, tile: u8) -> u32
    requires { place ≤ 16 }
    ensures found { result ≡ tile_distance place tile }
    ensures low { result ≤ 100 }
{
    if tile == 0 {
        return 0;
    }
    let home = usize::from(tile) - 1;
    ((place / 4).abs_diff(home / 4) + (place % 4).abs_diff(home % 4)) as u32
}

/// The sum of the distances of all tiles from their places.
pub fn estimate(tiles: &Tiles) -> u32
    ensures { result ≡ distance_below tiles.now 16 }
{
    let mut sum = 0u32;
    for place in 0..PLACES {
        sum += distance(place, tiles[place]);
    }
    sum
}

/// The tiles after so many random moves, none of which takes back the one before.
pub fn puzzle(moves: usize) -> Tiles {
    let mut draws = Draws::new();
    let mut tiles = solved();
    let mut before = PLACES;
    let mut made = 0usize;
    for _draw in 0..u64::MAX {
        if made == moves {
            break;
        }
        let blank = blank_of(&tiles);
        let direction = draws.below(4);
        if moved(blank, direction) != Some(before) {
            if let Some(found) = slide(tiles, blank, direction) {
                let next = found.0;
                tiles = next;
                before = blank;
                made = made.saturating_add(1);
            }
        }
    }
    tiles
}
