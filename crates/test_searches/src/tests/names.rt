//! Searches over edge lists by name.

use crate::fewest::Heap;
use crate::named::cheapest_way;
use crate::no_case::NoCase;
use crate::tests::answers::Outcome;
use crate::tests::list::SPELLED;
use pf_base::PathError;
use pf_edge_lists::EdgeList;
use std::alloc::Global;
use test_allocator::Refusing;

/// One-way roads between five places.
pub const ROADS: &[(char, char, u32)] = &[
    ('a', 'b', 4),
    ('a', 'c', 2),
    ('b', 'c', 1),
    ('b', 'd', 5),
    ('c', 'd', 8),
    ('c', 'e', 10),
    ('d', 'e', 2),
];

/// The places, and one that no road leads from or to.
pub const PLACES: &[char] = &['a', 'b', 'c', 'd', 'e', 'f'];

/// Whether these are the places.
fn are_places(places: &[&char], names: &[char]) -> bool {
    places.iter().copied().eq(names)
}

/// How a search ended that has to answer the way over these places.
pub fn way_outcome(
    answer: Result<Option<Vec<&char, Heap<'_>>>, PathError>,
    names: &[char],
) -> Outcome {
    match &answer {
        Ok(Some(places)) => Outcome::of_answer(are_places(places, names)),
        Ok(None) => Outcome::of_answer(names.is_empty()),
        Err(refusal) => Outcome::of_refusal(*refusal),
    }
}

/// The same of a way at this cost.
pub fn cheapest_way_outcome(
    answer: Result<Option<(Vec<&char, Heap<'_>>, u32)>, PathError>,
    names: &[char],
    price: u32,
) -> Outcome {
    match &answer {
        Ok(Some((places, cost))) => {
            Outcome::of_answer(are_places(places, names) && *cost == price)
        }
        Ok(None) => Outcome::of_answer(names.is_empty()),
        Err(refusal) => Outcome::of_refusal(*refusal),
    }
}

/// Two places, the cheapest way from one to the other, what it costs, and the way with fewest roads; no
/// places where there is none.
type Ways = (char, char, &'static [char], u32, &'static [char]);

const WAYS: &[Ways] = &[
    ('a', 'e', &['a', 'b', 'd', 'e'], 11, &['a', 'c', 'e']),
    ('c', 'c', &['c'], 0, &['c']),
    // No way leads back, nor from or to a name that stands in no edge, but to itself.
    ('e', 'a', &[], 0, &[]),
    ('a', 'z', &[], 0, &[]),
    ('z', 'a', &[], 0, &[]),
    ('y', 'z', &[], 0, &[]),
    ('z', 'z', &['z'], 0, &['z']),
];

/// A list of edges over such a heap.
type Roads<'r, 'h> = EdgeList<'r, char, u32, Heap<'h>>;

/// Whether both searches answer the ways of a row.
fn are_ways<'h>(heap: Heap<'h>, roads: &Roads<'_, 'h>, ways: &Ways) -> bool {
    let (from, to, cheapest, cost, fewest) = ways;
    let found = cheapest_way(heap, roads, from, to);
    cheapest_way_outcome(found, cheapest, *cost) == Outcome::Right
        && way_outcome(roads.bfs(heap, from, to), fewest) == Outcome::Right
}

/// Whether both searches answer the ways of each row.
fn have_ways<'h>(heap: Heap<'h>, roads: &Roads<'_, 'h>) -> bool {
    for ways in WAYS {
        if !are_ways(heap, roads, ways) {
            return false;
        }
    }
    true
}

/// Whether names have their numbers, and numbers their names.
fn are_numbered<'h>(heap: Heap<'h>, roads: &Roads<'_, 'h>) -> bool {
    roads.number_of(&'d') == Some(3)
        && roads.number_of(&'f').is_none()
        && roads.name_of(3) == Some(&'d')
        && roads.name_of(5).is_none()
        && matches!(roads.names_of(heap, &[4, 5]), Ok(None))
}

/// Whether a place that no road leads from or to is a node like the others, after them, and the ways
/// are the same.
fn has_place_without_roads<'h>(heap: Heap<'h>, roads: &Roads<'_, 'h>) -> bool {
    roads.number_of(&'f') == Some(5)
        && roads.len() == 6
        && way_outcome(roads.bfs(heap, &'f', &'f'), &['f']) == Outcome::Right
        && way_outcome(roads.bfs(heap, &'a', &'f'), &[]) == Outcome::Right
        && have_ways(heap, roads)
}

/// Whether that is so of the list of the places and the roads between them.
fn are_places_named(alloc: Global) -> bool {
    let heap = Refusing::new(alloc);
    match &EdgeList::with_names(&heap, PLACES, ROADS) {
        Ok(roads) => has_place_without_roads(&heap, roads),
        Err(_) => false,
    }
}

/// Whether the ways of each row are found in the list `ROADS`, and names have their numbers.
fn are_all_ways(alloc: Global) -> bool {
    let heap = Refusing::new(alloc);
    match &EdgeList::new(&heap, ROADS) {
        Ok(roads) => have_ways(&heap, roads) && are_numbered(&heap, roads),
        Err(_) => false,
    }
}

#[test]
fn ways_between_names(rt: HostRuntime) {
    assert!(rt; are_all_ways(rt.alloc()) && are_places_named(rt.alloc()));
}

/// Whether the places are spelled like this.
fn are_spelled(places: &[&NoCase<'_>], spellings: &[&str]) -> bool {
    for (place, spelling) in places.iter().zip(spellings) {
        if place.name != *spelling {
            return false;
        }
    }
    places.len() == spellings.len()
}

/// Whether the only cheapest way is spelled like this, and costs so much.
fn is_spelled(
    answer: Result<Option<(Vec<&NoCase<'_>>, u32)>, PathError>,
    spellings: &[&str],
    price: u32,
) -> bool {
    match &answer {
        Ok(Some((places, cost))) => *cost == price && are_spelled(places, spellings),
        _ => false,
    }
}

/// Whether the only way with fewest roads is spelled like this.
fn is_fewest_spelled(
    answer: Result<Option<Vec<&NoCase<'_>>>, PathError>,
    spellings: &[&str],
) -> bool {
    match &answer {
        Ok(Some(places)) => are_spelled(places, spellings),
        _ => false,
    }
}

/// Names, each spelled in another way than in the roads, and the inn, which stands in none of them, in
/// two ways.
const HOME: NoCase<'static> = NoCase { name: "home" };

const HARBOUR: NoCase<'static> = NoCase { name: "harbour" };

const INN: NoCase<'static> = NoCase { name: "inn" };

const LOUD_INN: NoCase<'static> = NoCase { name: "INN" };

/// Whether ways over the roads are spelled as these are, and the way to a name that stands in none of
/// them from that name as it is asked for.
fn are_spelled_ways(alloc: Global, roads: &EdgeList<'_, NoCase<'_>, u32>) -> bool {
    let cheapest = roads.dijkstra(alloc, &HOME, &HARBOUR);
    let fewest = roads.bfs(alloc, &HOME, &HARBOUR);
    let alone = roads.bfs(alloc, &INN, &LOUD_INN);
    is_spelled(cheapest, &["HOME", "Mill", "HARBOUR"], 5)
        && is_fewest_spelled(fewest, &["HOME", "HARBOUR"])
        && is_fewest_spelled(alone, &["inn"])
}

/// The same of a list of these roads.
fn are_ways_spelled(alloc: Global) -> bool {
    match &EdgeList::new(alloc, SPELLED) {
        Ok(roads) => are_spelled_ways(alloc, roads),
        Err(_) => false,
    }
}

#[test]
fn names_that_ignore_letter_case(rt: HostRuntime) {
    assert!(rt; are_ways_spelled(rt.alloc()));
}
