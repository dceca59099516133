//! Cases that the tests and the documentation of the Rust crate have, and that stand in no other crate
//! of tests: over graphs in tables, groups, matrices and grids.

use pf_base::PathError;
use pf_components::connected_components::{MapIn, SetIn, components, separate_components};
use pf_edge_lists::EdgeList;
use pf_graph::undirected::kruskal::kruskal;
use pf_grid::Grid;
use pf_matrix::{Matrix, directions};
use pf_node_refs::NodeRefs;
use pf_table_breadth::bfs;
use pf_table_orders::{
    strongly_connected_component, strongly_connected_components, topological_sort,
    topological_sort_into_groups,
};
use pf_table_searches::bfs_loop;
use pf_tables::Rows;
use std::alloc::Global;

/// The nodes after each of sixteen nodes.
const SIXTEEN: &[&[usize]] = &[
    &[2],
    &[0, 5],
    &[1, 4],
    &[2, 9],
    &[3, 5, 10],
    &[6, 8, 13],
    &[7],
    &[8, 15],
    &[6, 15],
    &[10],
    &[11, 12],
    &[9],
    &[11, 13],
    &[14, 15],
    &[13],
    &[],
];

/// Their strong components.
const COMPONENTS: &[&[usize]] = &[
    &[0, 1, 2, 3, 4],
    &[5],
    &[6, 7, 8],
    &[9, 10, 11, 12],
    &[13, 14],
    &[15],
];

/// The least nodes of the components that each node reaches.
const REACHED: &[&[usize]] = &[
    &[0, 5, 6, 9, 13, 15],
    &[0, 5, 6, 9, 13, 15],
    &[0, 5, 6, 9, 13, 15],
    &[0, 5, 6, 9, 13, 15],
    &[0, 5, 6, 9, 13, 15],
    &[5, 6, 13, 15],
    &[6, 15],
    &[6, 15],
    &[6, 15],
    &[9, 13, 15],
    &[9, 13, 15],
    &[9, 13, 15],
    &[9, 13, 15],
    &[13, 15],
    &[13, 15],
    &[15],
];

/// Whether these are the wanted nodes, each once, in any order.
fn are_same(nodes: &[usize], wanted: &[usize]) -> bool {
    for node in wanted {
        if !nodes.contains(node) {
            return false;
        }
    }
    nodes.len() == wanted.len()
}

/// Whether these nodes are one of the components.
fn is_component(nodes: &[usize]) -> bool {
    for component in COMPONENTS {
        if are_same(nodes, component) {
            return true;
        }
    }
    false
}

/// Whether one of the lists has a node.
fn has_node(lists: &[Vec<usize>], node: usize) -> bool {
    for list in lists {
        if list.contains(&node) {
            return true;
        }
    }
    false
}

/// Whether these are the components that have these least nodes, in any order.
fn are_components(found: Result<Vec<Vec<usize>>, PathError>, least: &[usize]) -> bool {
    let Ok(found) = &found else {
        return false;
    };
    for nodes in found {
        if !is_component(nodes) {
            return false;
        }
    }
    for node in least {
        if !has_node(found, *node) {
            return false;
        }
    }
    found.len() == least.len()
}

#[test]
fn sixteen_nodes_in_six_components(rt: HostRuntime) {
    let graph = Rows::new(SIXTEEN).expect(&rt, "a graph");
    for (node, reached) in REACHED.iter().enumerate() {
        let found = strongly_connected_components(rt.alloc(), &graph, &[node]);
        assert!(rt; are_components(found, reached), "from {node}");
        let own = strongly_connected_component(rt.alloc(), &graph, node);
        assert!(rt;
            matches!(&own, Ok(nodes) if nodes.contains(&node) && is_component(nodes)),
            "of {node}"
        );
    }
}

/// The nodes after each node, groups, and the nodes that are in no group.
type Grouped<'a> = (&'a [&'a [usize]], &'a [&'a [usize]], &'a [usize]);

const GROUPED: &[Grouped<'static>] = &[
    (&[], &[], &[]),
    (&[&[], &[], &[]], &[&[0, 1, 2]], &[]),
    (&[&[1, 2], &[3], &[3], &[]], &[&[0], &[1, 2], &[3]], &[]),
    (
        &[&[1, 5], &[2], &[3], &[], &[5], &[3]],
        &[&[0, 4], &[1, 5], &[2], &[3]],
        &[],
    ),
    (&[&[1], &[2], &[0]], &[], &[0, 1, 2]),
    (&[&[1], &[2], &[3], &[2, 4], &[]], &[&[0], &[1]], &[2, 3, 4]),
    (&[&[1, 2], &[3], &[3], &[3]], &[&[0], &[1, 2]], &[3]),
];

/// Whether these are the wanted groups, each in any order.
fn are_groups(groups: &[Vec<usize>], wanted: &[&[usize]]) -> bool {
    for (group, nodes) in groups.iter().zip(wanted) {
        if !are_same(group, nodes) {
            return false;
        }
    }
    groups.len() == wanted.len()
}

/// The groups of all nodes, or groups and the nodes that are in none.
type Groups = Result<Vec<Vec<usize>>, (Vec<Vec<usize>>, Vec<usize>)>;

/// Whether the answer is these groups, and these nodes in none.
fn is_grouped(answer: Result<Groups, PathError>, groups: &[&[usize]], remaining: &[usize]) -> bool {
    match &answer {
        Ok(Ok(found)) => are_groups(found, groups) && remaining.is_empty(),
        Ok(Err((found, left))) => are_groups(found, groups) && are_same(left, remaining),
        Err(_) => false,
    }
}

#[test]
fn groups_by_depth(rt: HostRuntime) {
    let nodes = [0, 1, 2, 3, 4, 5];
    for (rows, groups, remaining) in GROUPED {
        let graph = Rows::new(rows).expect(&rt, "a graph");
        let nodes = nodes.get(..rows.len()).expect(&rt, "as many nodes");
        let answer = topological_sort_into_groups(rt.alloc(), &graph, nodes);
        assert!(rt; is_grouped(answer, groups, remaining), "{rows:?}");
    }
}

/// The multiples of a number that are greater than it and below 1000, where memory is left.
fn multiples_of(alloc: Global, number: usize) -> Option<Vec<usize>> {
    let mut multiples = Vec::new(alloc);
    for other in 1..1000usize {
        if other > number && other.checked_rem(number) == Some(0) {
            multiples.push(other).ok()?;
        }
    }
    Some(multiples)
}

/// The multiples of each number below 1000, where memory is left.
fn all_multiples(alloc: Global) -> Option<Vec<Vec<usize>>> {
    let mut rows = Vec::new(alloc);
    for number in 0..1000 {
        rows.push(multiples_of(alloc, number)?).ok()?;
    }
    Some(rows)
}

/// The numbers 1 to 999 in a mixed order, where memory is left.
fn mixed_numbers(alloc: Global) -> Option<Vec<usize>> {
    let mut numbers = Vec::new(alloc);
    for step in 0..999usize {
        numbers.push(step * 7 % 999 + 1).ok()?;
    }
    Some(numbers)
}

/// Whether these are 999 numbers, none of which stands behind one of its multiples.
fn are_behind_divisors(order: Result<Result<Vec<usize>, usize>, PathError>) -> bool {
    let Ok(Ok(numbers)) = &order else {
        return false;
    };
    for (place, number) in numbers.iter().enumerate() {
        for later in numbers.iter().skip(place) {
            if *later < *number && number.checked_rem(*later) == Some(0) {
                return false;
            }
        }
    }
    numbers.len() == 999
}

#[test]
fn divisors_come_first(rt: HostRuntime) {
    let rows = all_multiples(rt.alloc()).expect(&rt, "memory");
    let graph = Rows::new(&rows).expect(&rt, "a graph");
    let numbers = mixed_numbers(rt.alloc()).expect(&rt, "memory");
    assert!(rt; are_behind_divisors(topological_sort(rt.alloc(), &graph, &numbers)));
}

/// Steps of a build, of which the last waits for no other, and no other for it.
const STEPS: &[&str] = &["unpack", "compile", "link", "notes"];

/// Which of them stand before which.
const BEFORE: &[(&str, &str, u8)] = &[("unpack", "compile", 0), ("compile", "link", 0)];

/// Whether these are the numbers of the four steps in an order in which they can be done.
fn are_in_order(order: Result<Result<Vec<usize>, usize>, PathError>) -> bool {
    let Ok(Ok(numbers)) = &order else {
        return false;
    };
    matches!(
        numbers.as_slice(),
        [0, 1, 2, 3] | [0, 1, 3, 2] | [0, 3, 1, 2] | [3, 0, 1, 2]
    )
}

#[test]
fn a_step_without_edges_stands_in_an_order(rt: HostRuntime) {
    let steps = EdgeList::with_names(rt.alloc(), STEPS, BEFORE).expect(&rt, "memory");
    let order = topological_sort(rt.alloc(), &steps, &[0, 1, 2, 3]);
    assert!(rt; are_in_order(order));
}

/// Ten nodes, of which the last three are on cycles and all others lead to them.
const TEN: &[&[usize]] = &[
    &[1, 2, 7],
    &[2, 3, 7],
    &[3, 4, 7],
    &[4, 5, 7],
    &[5, 6, 7],
    &[6, 7, 7],
    &[7, 8, 7],
    &[8, 9],
    &[7, 9],
    &[7],
];

/// Both ways between six nodes.
const SIX: &[&[usize]] = &[&[1, 2], &[0, 3, 4], &[0, 5], &[1], &[1, 5], &[2, 4]];

/// Whether the answer is this path.
fn is_path(found: Result<Option<Vec<usize>>, PathError>, path: &[usize]) -> bool {
    matches!(&found, Ok(Some(nodes)) if nodes.as_slice() == path)
}

#[test]
fn a_cycle_is_in_the_way_of_an_order(rt: HostRuntime) {
    let graph = Rows::new(TEN).expect(&rt, "a graph");
    let order = topological_sort(rt.alloc(), &graph, &[5, 1]);
    assert!(rt; matches!(order, Ok(Err(7..=9))));
    let start = 8usize;
    let starts = NodeRefs::from_one(rt.alloc(), &start).expect(&rt, "memory");
    assert!(rt; is_path(bfs_loop(rt.alloc(), &graph, &starts), &[8, 7, 8]));
    let component = strongly_connected_component(rt.alloc(), &graph, 8);
    assert!(rt; matches!(&component, Ok(nodes) if are_same(nodes, &[7, 8, 9])));
    let graph = Rows::new(SIX).expect(&rt, "a graph");
    assert!(rt; is_path(bfs(rt.alloc(), &graph, 0, 5), &[0, 2, 5]));
}

/// Roads between five cities, in both directions.
const ROADS: &[(&str, &str, u32)] = &[
    ("A", "B", 10),
    ("B", "A", 10),
    ("A", "C", 15),
    ("C", "A", 15),
    ("B", "D", 12),
    ("D", "B", 12),
    ("C", "D", 10),
    ("D", "C", 10),
    ("B", "E", 8),
    ("E", "B", 8),
    ("D", "E", 5),
    ("E", "D", 5),
];

/// Whether a way leads over these cities at this cost.
fn is_way(found: Result<Option<(Vec<&&str>, u32)>, PathError>, cities: &[&str], cost: u32) -> bool {
    let Ok(Some((places, price))) = &found else {
        return false;
    };
    for (place, city) in places.iter().zip(cities) {
        if **place != *city {
            return false;
        }
    }
    places.len() == cities.len() && *price == cost
}

#[test]
fn roads_between_cities(rt: HostRuntime) {
    let map = EdgeList::new(rt.alloc(), ROADS).expect(&rt, "memory");
    for (to, cities, cost) in [("D", ["A", "B", "D"], 22), ("E", ["A", "B", "E"], 18)] {
        let found = map.dijkstra(rt.alloc(), &"A", &to);
        assert!(rt; is_way(found, &cities, cost), "cost {cost}");
    }
}

/// Groups of nodes, of which the third shares no node with the others, the parts that they join, and
/// how many nodes there are.
type Joined<'a> = (&'a [&'a [u32]], &'a [&'a [u32]], usize);

const JOINED: &[Joined<'static>] = &[
    (
        &[&[1, 2], &[3, 4], &[5, 6], &[1, 4]],
        &[&[1, 2, 3, 4], &[5, 6]],
        6,
    ),
    (&[&[1, 2], &[3, 4], &[], &[1, 4]], &[&[1, 2, 3, 4]], 4),
    (
        &[&[1, 2], &[3, 4], &[5, 6], &[1, 4, 7]],
        &[&[1, 2, 3, 4, 7], &[5, 6]],
        7,
    ),
    (&[&[1, 2], &[3, 4], &[], &[1, 4, 7]], &[&[1, 2, 3, 4, 7]], 5),
];

/// Whether a set has the nodes of a part and no others.
fn is_part(set: &SetIn<u32, Global>, part: &[u32]) -> bool {
    for node in part {
        if !set.contains(node) {
            return false;
        }
    }
    set.len() == part.len()
}

/// Whether one of the sets has the nodes of a part and no others.
fn has_part(sets: &[SetIn<u32, Global>], part: &[u32]) -> bool {
    for set in sets {
        if is_part(set, part) {
            return true;
        }
    }
    false
}

/// Whether the sets are the parts, in any order.
fn are_parts(sets: Result<Vec<SetIn<u32, Global>>, PathError>, parts: &[&[u32]]) -> bool {
    let Ok(sets) = &sets else {
        return false;
    };
    for part in parts {
        if !has_part(sets, part) {
            return false;
        }
    }
    sets.len() == parts.len()
}

/// A number for each node.
type Numbers<'a> = MapIn<&'a u32, usize, Global>;

/// Whether the nodes of a group have its number, which is `usize::MAX` where there are none.
fn have_number<'a>(numbers: &Numbers<'a>, group: &'a [u32], number: usize) -> bool {
    for node in group {
        if numbers.get(&node).copied() != Some(number) {
            return false;
        }
    }
    !group.is_empty() || number == usize::MAX
}

/// Whether so many nodes have a number, each that of its groups, and the third group has another one
/// than the first.
fn are_numbered<'a>(
    numbered: Result<(Numbers<'a>, Vec<usize>), PathError>,
    groups: &'a [Vec<u32>],
    count: usize,
) -> bool {
    let Ok((numbers, of_groups)) = &numbered else {
        return false;
    };
    for (group, number) in groups.iter().zip(of_groups) {
        if !have_number(numbers, group, *number) {
            return false;
        }
    }
    numbers.len() == count
        && of_groups.len() == groups.len()
        && of_groups.first() != of_groups.get(2)
}

/// Vectors of these slices, where memory is left.
fn vectors_of(alloc: Global, slices: &[&[u32]]) -> Option<Vec<Vec<u32>>> {
    let mut vectors = Vec::new(alloc);
    for slice in slices {
        vectors.push(slice.to_vec(alloc).ok()?).ok()?;
    }
    Some(vectors)
}

#[test]
fn groups_that_share_nodes_are_joined(rt: HostRuntime) {
    for (row, (slices, parts, count)) in JOINED.iter().enumerate() {
        let groups = vectors_of(rt.alloc(), slices).expect(&rt, "memory");
        assert!(rt;
            are_parts(components(rt.alloc(), &groups), parts),
            "row {row}"
        );
        let numbered = separate_components(rt.alloc(), &groups);
        assert!(rt; are_numbered(numbered, &groups, *count), "row {row}");
    }
}

#[test]
fn edges_of_a_grid_span_it(rt: HostRuntime) {
    let mut grid = Grid::new(rt.alloc(), 2, 2).expect(&rt, "memory");
    grid.fill();
    let mut edges = Vec::new(rt.alloc());
    for (from, to) in grid.edges() {
        edges
            .push((from, to, from.1.min(to.1)))
            .expect(&rt, "memory");
    }
    assert!(rt; edges.len() == 4);
    // Three edges of weight 0 join all, in an order that is open.
    let mut chosen = 0usize;
    for (from, to, weight) in kruskal(rt.alloc(), &edges).expect(&rt, "memory") {
        assert!(rt; weight == 0 && from.1.min(to.1) == 0);
        chosen = chosen.saturating_add(1);
    }
    assert!(rt; chosen == 3);
}

#[test]
fn moves_on_a_board(rt: HostRuntime) {
    let board = Matrix::new_square(rt.alloc(), 8, '.').expect(&rt, "memory");
    assert!(rt; board.move_in_direction((1, 1), (2, 1)) == Some((3, 2)));
    assert!(rt;
        board
            .in_direction((1, 1), (2, 1))
            .eq([(3, 2), (5, 3), (7, 4)])
    );
    assert!(rt;
        board
            .in_direction((3, 2), directions::NW)
            .eq([(2, 1), (1, 0)])
    );
}

#[test]
fn points_as_a_grid(rt: HostRuntime) {
    let points = [(0, 0), (2, 2), (3, 2)];
    let grid = Grid::from_vertices(rt.alloc(), points).expect(&rt, "memory");
    let mut text = String::new(rt.alloc());
    grid.append_text(&mut text, '#', '.', false)
        .expect(&rt, "memory");
    assert!(rt; text.as_str() == "#...\n....\n..##");
}
