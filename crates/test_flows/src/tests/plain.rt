//! A plain greatest flow over a table of four vertices: unit by unit, along ways that a depth first
//! search finds.

ghost use Rattle.std.specs.Prelude.{◌<◌, IfSome};

/// How many vertices the small networks have.
pub const VERTICES: usize = 4;

/// A number for each pair of vertices, by rows.
pub type Table = [i64; 16];

/// The number of a pair; 0 where an end is not a vertex.
pub fn number(table: &Table, from: usize, to: usize) -> i64 {
    if from < VERTICES && to < VERTICES {
        table[from * VERTICES + to]
    } else {
        0
    }
}

/// Changes the number of a pair of vertices.
pub fn set_number(table: &mut Table, from: usize, to: usize, number: i64) {
    if from < VERTICES && to < VERTICES {
        table[from * VERTICES + to] = number;
    }
}

/// The sum of a table.
pub fn sum(table: &Table) -> i64 {
    let mut sum = 0i64;
    for number in table {
        sum = sum.wrapping_add(*number);
    }
    sum
}

/// Whether a search reached each of the vertices.
pub type Reached = [bool; 4];

/// The first vertex that is not reached yet and to which a number above zero leads.
fn next_vertex(table: &Table, reached: &Reached, vertex: usize) -> Option<usize>
    ensures { IfSome result (λ next. next < 4) }
{
    for next in 0..VERTICES {
        if !reached[next] && number(table, vertex, next) > 0 {
            return Some(next);
        }
    }
    None
}

/// Searches the sink from the source, depth first. Answers from where each vertex was reached, and
/// which were, up to the sink.
fn search(table: &Table, source: usize, sink: usize) -> ([usize; 4], Reached) {
    let mut before = [source; 4];
    let mut reached = [false; 4];
    let mut vertex = source;
    // each round enters a vertex or leaves one
    for _round in 0..2 * VERTICES {
        if vertex >= VERTICES {
            break;
        }
        reached[vertex] = true;
        if vertex == sink {
            break;
        }
        match next_vertex(table, &reached, vertex) {
            Some(next) => {
                before[next] = vertex;
                vertex = next;
            }
            None => vertex = before[vertex],
        }
    }
    (before, reached)
}

/// Moves one unit of what is left to the sink, back along the way on which it was reached.
fn move_unit(left: &mut Table, before: &[usize; 4], source: usize, sink: usize) {
    let mut to = sink;
    for _step in 0..VERTICES {
        if to == source || to >= VERTICES {
            return;
        }
        let from = before[to];
        let there = number(left, from, to).wrapping_sub(1);
        set_number(left, from, to, there);
        let back = number(left, to, from).wrapping_add(1);
        set_number(left, to, from, back);
        to = from;
    }
}

/// The value of a greatest flow from vertex 0, and the smallest source side of a least cut.
pub fn greatest_flow(capacities: &Table, sink: usize) -> (i64, Reached) {
    let mut left = *capacities;
    for total in 0..100i64 {
        let (before, reached) = search(&left, 0, sink);
        if sink >= VERTICES || !reached[sink] {
            return (total, reached);
        }
        move_unit(&mut left, &before, 0, sink);
    }
    (-1, [false; 4])
}
