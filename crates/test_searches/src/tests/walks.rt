//! Lazy walks: what they give, and that a refused step loses nothing.

ghost use Rattle.std.specs.Prelude.{◌≡◌, ◌∷◌, [], ⊤};

use crate::tests::graphs::ROWS;
use crate::walks::walked;
use pathfinding::graphs;
use pf_base::{EdgeFunction, PathError, SuccessorFunction};
use pf_search::directed::bfs::{BfsReachable, bfs_reach};
use pf_search::directed::dfs::{DfsReachable, dfs_reach};
use pf_search::directed::dijkstra::{DijkstraReachable, dijkstra_reach};
use pf_tables::{Goals, Graph, Rows};
use std::alloc::{Allocator, Global};
use std::test::Fail;
use test_allocator::Refusing;
use test_edge_lists::nodes_after;

/// A node, its parent and its cost, as far as the walk tells them. Of a path it is the last node, with
/// the node before it and the cost of the path.
type Given = (u64, Option<u64>, u64);

/// A walk that can be resumed.
trait Resumable {
    // A step may be taken.
    ghost goes: { Self → Type 0 };

    fn step(&mut self) -> Option<Result<Given, PathError>>
        requires { goes self.old }
        ensures { goes self.new };

    fn go_on(&mut self)
        requires { goes self.old }
        ensures { goes self.new };

    /// The low bound of the nodes to come, where the walk has one.
    fn low_bound(&self) -> usize;
}

impl<F, A> Resumable for BfsReachable<u64, F, A>
where
    F: SuccessorFunction<u64>,
    A: Allocator + Copy,
{
    ghost goes = { ⟦<BfsReachable<u64, F, A> as Iterator>⟧.can_next };

    fn step(&mut self) -> Option<Result<Given, PathError>> {
        match self.next()? {
            Ok(node) => Some(Ok((node, None, 0))),
            Err(refusal) => Some(Err(refusal)),
        }
    }

    fn go_on(&mut self) {
        self.resume();
    }

    fn low_bound(&self) -> usize {
        self.remaining_nodes_low_bound()
    }
}

impl<F, A> Resumable for DfsReachable<u64, F, A>
where
    F: SuccessorFunction<u64>,
    A: Allocator + Copy,
{
    ghost goes = { ⟦<DfsReachable<u64, F, A> as Iterator>⟧.can_next };

    fn step(&mut self) -> Option<Result<Given, PathError>> {
        match self.next()? {
            Ok(node) => Some(Ok((node, None, 0))),
            Err(refusal) => Some(Err(refusal)),
        }
    }

    fn go_on(&mut self) {
        self.resume();
    }

    fn low_bound(&self) -> usize {
        self.remaining_nodes_low_bound()
    }
}

impl<F, A> Resumable for DijkstraReachable<u64, u64, F, A>
where
    F: EdgeFunction<u64, u64>,
    A: Allocator + Copy,
{
    ghost goes = { ⟦<DijkstraReachable<u64, u64, F, A> as Iterator>⟧.can_next };

    fn step(&mut self) -> Option<Result<Given, PathError>> {
        match self.next()? {
            Ok(item) => Some(Ok((item.node, item.parent, item.total_cost))),
            Err(refusal) => Some(Err(refusal)),
        }
    }

    fn go_on(&mut self) {
        self.resume();
    }

    fn low_bound(&self) -> usize {
        0
    }
}

impl<'a, G, A> Resumable for graphs::BfsReachable<'a, u32, G, A>
where
    G: Graph<u32>,
    A: Allocator + Copy,
{
    ghost goes = { λ _. ⊤ };

    fn step(&mut self) -> Option<Result<Given, PathError>> {
        match self.next()? {
            Ok(node) => Some(Ok((node as u64, None, 0))),
            Err(refusal) => Some(Err(refusal)),
        }
    }

    fn go_on(&mut self) {
        self.resume();
    }

    fn low_bound(&self) -> usize {
        self.remaining_nodes_low_bound()
    }
}

impl<'a, G, A> Resumable for graphs::DfsReachable<'a, u32, G, A>
where
    G: Graph<u32>,
    A: Allocator + Copy,
{
    ghost goes = { λ _. ⊤ };

    fn step(&mut self) -> Option<Result<Given, PathError>> {
        match self.next()? {
            Ok(node) => Some(Ok((node as u64, None, 0))),
            Err(refusal) => Some(Err(refusal)),
        }
    }

    fn go_on(&mut self) {
        self.resume();
    }

    fn low_bound(&self) -> usize {
        self.remaining_nodes_low_bound()
    }
}

impl<'a, G, A> Resumable for graphs::DijkstraReachable<'a, u32, G, A>
where
    G: Graph<u32>,
    A: Allocator + Copy,
{
    ghost goes = { λ _. ⊤ };

    fn step(&mut self) -> Option<Result<Given, PathError>> {
        match self.next()? {
            Ok(item) => {
                let parent = item.parent.map(|node| node as u64);
                Some(Ok((item.node as u64, parent, u64::from(item.total_cost))))
            }
            Err(refusal) => Some(Err(refusal)),
        }
    }

    fn go_on(&mut self) {
        self.resume();
    }

    fn low_bound(&self) -> usize {
        0
    }
}

impl<'a, G, T, A> Resumable for graphs::YenPaths<'a, u32, G, T, A>
where
    G: Graph<u32>,
    T: Goals + Copy,
    A: Allocator + Copy,
{
    ghost goes = { λ _. ⊤ };

    fn step(&mut self) -> Option<Result<Given, PathError>> {
        match self.next()? {
            Ok((mut path, cost)) => {
                let node = path.pop()? as u64;
                let parent = path.last().map(|node| *node as u64);
                Some(Ok((node, parent, u64::from(cost))))
            }
            Err(refusal) => Some(Err(refusal)),
        }
    }

    fn go_on(&mut self) {
        self.resume();
    }

    fn low_bound(&self) -> usize {
        0
    }
}

/// What a walk gave, with the low bound before each step, and how often it was refused.
#[derive(Drop)]
struct Gathered {
    given: Vec<Given>,
    bounds: Vec<usize>,
    refusals: u64,
}

/// All that a walk gives. Where a step is refused, the walk has to answer `None`, and then goes on.
fn gather<W: Resumable + Drop>(ample: Global, mut walk: W) -> Result<Gathered, Fail>
    requires { W.goes walk }
{
    let mut given = Vec::new(ample);
    let mut bounds = Vec::new(ample);
    let mut refusals = 0u64;
    'steps: for _ in 0..100 {
        bounds.push(walk.low_bound())?;
        match walk.step() {
            Some(Ok(item)) => given.push(item)?,
            Some(Err(_)) => {
                refusals = refusals.wrapping_add(1);
                if walk.step().is_some() {
                    return Err(Fail::new("a refused walk goes on by itself"));
                }
                walk.go_on();
            }
            None => return Ok(Gathered {
                given,
                bounds,
                refusals,
            }),
        }
    }
    Err(Fail::new("the walk goes on"))
}

/// Edges from each number to the next one and to the fifth one behind it, up to 10.
const BY_ONE_AND_FIVE: &[(u64, u64)] = &[
    (0, 1),
    (0, 5),
    (1, 2),
    (1, 6),
    (2, 3),
    (2, 7),
    (3, 4),
    (3, 8),
    (4, 5),
    (4, 9),
    (5, 6),
    (5, 10),
    (6, 7),
    (7, 8),
    (8, 9),
    (9, 10),
];

/// Edges from each number to its double and its triple, up to 14.
const DOUBLES_AND_TRIPLES: &[(u64, u64)] = &[
    (1, 2),
    (1, 3),
    (2, 4),
    (2, 6),
    (3, 6),
    (3, 9),
    (4, 8),
    (4, 12),
    (6, 12),
];

/// Of the nodes of `ROWS` the last two are goals.
const GOALS: &[bool] = &[false, false, false, true, true];

/// The walks from 3 where the nodes 1 to 5 follow each node, one from 0 and one from 1, and those over
/// the table `ROWS` from 0.
#[derive(Clone, Copy, Debug)]
enum Walk {
    Breadth,
    Preorder,
    Cheapest,
    PreorderByOneAndFive,
    BreadthByDoublesAndTriples,
    BreadthInTable,
    PreorderInTable,
    CheapestInTable,
    PathsInTable,
}

impl Walk {
    /// What the walk gives, or `None` where it was not made.
    fn gathered<A: Allocator + Copy>(
        self,
        alloc: A,
        ample: Global,
    ) -> Result<Option<Gathered>, Fail> {
        match self {
            Walk::Breadth => {
                let walk = bfs_reach(alloc, 3u64, |_: &u64| 1..6)?;
                Ok(Some(gather(ample, walk)?))
            }
            Walk::Preorder => {
                let walk = dfs_reach(alloc, 3u64, |_: &u64| 1..6)?;
                Ok(Some(gather(ample, walk)?))
            }
            Walk::Cheapest => {
                let walk = dijkstra_reach(
                    alloc,
                    &3u64,
                    |_: &u64| -> [(u64, u64); 3]
                        ensures { result ≡ (1, 2) ∷ (4, 7) ∷ (5, 4) ∷ [] }
                    { [(1, 2), (4, 7), (5, 4)] },
                );
                match walk {
                    Ok(walk) => Ok(Some(gather(ample, walk)?)),
                    Err(_) => Ok(None),
                }
            }
            Walk::PreorderByOneAndFive => {
                let walk = dfs_reach(alloc, 0u64, |n: &u64| nodes_after(BY_ONE_AND_FIVE, *n))?;
                Ok(Some(gather(ample, walk)?))
            }
            Walk::BreadthByDoublesAndTriples => {
                let walk = bfs_reach(alloc, 1u64, |n: &u64| nodes_after(DOUBLES_AND_TRIPLES, *n))?;
                Ok(Some(gather(ample, walk)?))
            }
            Walk::BreadthInTable => {
                let graph = Rows::new(ROWS)?;
                Ok(Some(gather(ample, graphs::bfs_reach(alloc, &graph, 0)?)?))
            }
            Walk::PreorderInTable => {
                let graph = Rows::new(ROWS)?;
                Ok(Some(gather(ample, graphs::dfs_reach(alloc, &graph, 0)?)?))
            }
            Walk::CheapestInTable => {
                let graph = Rows::new(ROWS)?;
                match graphs::dijkstra_reach(alloc, &graph, 0) {
                    Ok(walk) => Ok(Some(gather(ample, walk)?)),
                    Err(_) => Ok(None),
                }
            }
            Walk::PathsInTable => {
                let graph = Rows::new(ROWS)?;
                match graphs::yen_paths(alloc, &graph, 0, GOALS) {
                    Ok(walk) => Ok(Some(gather(ample, walk)?)),
                    Err(_) => Ok(None),
                }
            }
        }
    }

    fn want(self) -> (&'static [Given], &'static [usize]) {
        match self {
            Walk::Breadth => (
                &[
                    (3, None, 0),
                    (1, None, 0),
                    (2, None, 0),
                    (4, None, 0),
                    (5, None, 0),
                ],
                &[1, 4, 3, 2, 1, 0],
            ),
            Walk::Preorder => (
                &[
                    (3, None, 0),
                    (1, None, 0),
                    (2, None, 0),
                    (4, None, 0),
                    (5, None, 0),
                ],
                &[1, 4, 3, 2, 1, 0],
            ),
            Walk::Cheapest => (
                &[
                    (3, None, 0),
                    (1, Some(3), 2),
                    (5, Some(3), 4),
                    (4, Some(3), 7),
                ],
                &[0, 0, 0, 0, 0],
            ),
            Walk::PreorderByOneAndFive => (
                &[
                    (0, None, 0),
                    (1, None, 0),
                    (2, None, 0),
                    (3, None, 0),
                    (4, None, 0),
                    (5, None, 0),
                    (6, None, 0),
                    (7, None, 0),
                    (8, None, 0),
                    (9, None, 0),
                    (10, None, 0),
                ],
                &[1, 2, 3, 4, 5, 5, 5, 4, 3, 2, 1, 0],
            ),
            Walk::BreadthByDoublesAndTriples => (
                &[
                    (1, None, 0),
                    (2, None, 0),
                    (3, None, 0),
                    (4, None, 0),
                    (6, None, 0),
                    (9, None, 0),
                    (8, None, 0),
                    (12, None, 0),
                ],
                &[1, 2, 3, 3, 4, 3, 2, 1, 0],
            ),
            Walk::BreadthInTable => (
                &[
                    (0, None, 0),
                    (1, None, 0),
                    (2, None, 0),
                    (3, None, 0),
                    (4, None, 0),
                ],
                &[1, 2, 2, 2, 1, 0],
            ),
            Walk::PreorderInTable => (
                &[
                    (0, None, 0),
                    (1, None, 0),
                    (2, None, 0),
                    (3, None, 0),
                    (4, None, 0),
                ],
                &[1, 2, 2, 2, 1, 0],
            ),
            Walk::CheapestInTable => (
                &[
                    (0, None, 0),
                    (2, Some(0), 2),
                    (1, Some(0), 4),
                    (3, Some(1), 9),
                    (4, Some(3), 11),
                ],
                &[0, 0, 0, 0, 0, 0],
            ),
            Walk::PathsInTable => (
                &[
                    (3, Some(1), 9),
                    (3, Some(2), 10),
                    (4, Some(2), 12),
                    (3, Some(2), 13),
                    (4, Some(2), 15),
                ],
                &[0, 0, 0, 0, 0, 0],
            ),
        }
    }
}

#[test]
fn a_refused_step_loses_nothing(rt: HostRuntime) -> Result<(), Fail> {
    let ample = rt.alloc();
    for walk in [
        Walk::Breadth,
        Walk::Preorder,
        Walk::Cheapest,
        Walk::PreorderByOneAndFive,
        Walk::BreadthByDoublesAndTriples,
        Walk::BreadthInTable,
        Walk::PreorderInTable,
        Walk::CheapestInTable,
        Walk::PathsInTable,
    ] {
        let (given, bounds) = walk.want();
        let mut refusals = 0u64;
        'growths: for growth in 0..100u64 {
            let heap = Refusing::new(ample);
            heap.refuse(growth, 1);
            let Some(gathered) = walk.gathered(&heap, ample)? else {
                continue;
            };
            assert_eq!(rt;
                gathered.given.as_slice(),
                given,
                "{walk:?}, growth {growth}"
            );
            if heap.pending() == 1 {
                assert_eq!(rt; gathered.bounds.as_slice(), bounds, "{walk:?}");
                break 'growths;
            }
            refusals = refusals.saturating_add(gathered.refusals);
        }
        assert!(rt; refusals > 0, "{walk:?}");
    }
    Ok(())
}

#[test]
fn bounds_and_resume_take_no_memory(rt: HostRuntime) -> Result<(), Fail> {
    let heap = Refusing::new(rt.alloc());
    let mut breadth = bfs_reach(&heap, 3u64, |_: &u64| 1..6)?;
    let mut preorder = dfs_reach(&heap, 3u64, |_: &u64| 1..6)?;
    let mut cheapest = dijkstra_reach(&heap, &3u64, |_: &u64| [(1u64, 2u64)])?;
    heap.refuse(0, u64::MAX);
    assert!(rt; breadth.remaining_nodes_low_bound() == 1);
    assert!(rt; preorder.remaining_nodes_low_bound() == 1);
    breadth.resume();
    preorder.resume();
    cheapest.resume();
    assert!(rt; heap.pending() == u64::MAX);
    Ok(())
}

#[test]
fn an_endless_walk_gives_its_beginning(rt: HostRuntime) -> Result<(), Fail> {
    for (steps, last) in [(0, 0), (1, 0), (3, 2)] {
        assert_eq!(rt; walked(rt.alloc(), steps)?, last);
    }
    Ok(())
}
