//! Laws of the searches' definitions, for proofs about programs that use them.
//!
//! A call adds its law to what the caller's proof knows. It does nothing when it runs.

ghost use Rattle.std.specs.Prelude.{◌≡◌, ◌≤◌, ◌∷◌, [], ℕ, List, Bool, true, ℤ, Option, Some, Vec, slice_get, length};
ghost use Rattle.pf_base.specs.Edges.{InReach, IsCheapestGoalPath, IsCheapestOrNone, HasNoNegativeCost, targets};
ghost use Rattle.pf_base.specs.Loops.{IsBestLoopOrNone};
ghost use Rattle.pf_base.specs.Orders.{last_nodes, IsBreadthOrder, AllGiven, IsWholePreorder};
ghost use Rattle.pf_base.specs.Successors.{HasSuccessor, IsFewestEdgesGoalPath, IsFewestEdgesOrNone};
ghost use Rattle.pf_base.specs.Walks.{HasNode, NoRepeats, IsAtMostNumberOf, IsGoalWalk, IsReachable};
ghost use Rattle.pf_search.specs.CheapestFirst.{IsGiven, given_nodes};
ghost use Rattle.pf_search.specs.Laws.{Agree, HasEqualSuccessors, HasEqualEdges, OfPreorder, OfBreadthOrder, OfEachCheapestWalk};
ghost use Rattle.pf_search.specs.Parents.{IsCheapestMap, IsChainOfParents, IsLeastCost};

use crate::directed::dijkstra::DijkstraReachableBy;
use pf_base::{Cost, EdgeFunction};
use pf_discovery::numbering::Numbering;
use std::alloc::Allocator;
use std::marker::PhantomData;

/// In one graph, a path with fewest edges has at most as many edges as a cheapest path.
///
/// So where both answer, the path of `bfs` is no longer than that of `dijkstra`.
pub fn fewest_edges_of_cheapest<N: Eq>(_of: PhantomData<N>)
    ensures { (edges : N → List (N × ℤ)) (starts : List N) (test : N → Bool) (fewest cheapest : List N) (cost : ℤ)
        → IsFewestEdgesGoalPath N.eq (targets edges) starts test fewest
        → IsCheapestGoalPath N.eq edges starts test cheapest cost
        → length fewest ≤ length cheapest }
{}

/// In one graph, two paths with fewest edges from the same starts to the same nodes have one length.
///
/// So `bfs`, `iddfs` and `bfs_bidirectional` answer paths of one length between one start and one end.
pub fn fewest_edges_have_one_length<N: Eq>(_of: PhantomData<N>)
    ensures { (next : N → List N) (starts : List N) (test : N → Bool) (one other : List N)
        → IsFewestEdgesGoalPath N.eq next starts test one
        → IsFewestEdgesGoalPath N.eq next starts test other
        → length one ≡ length other }
{}

/// Every node of a preorder is in reach of the start, none stands twice in it, and where the preorder
/// has ended it has every node in reach. It is no longer than any list that has them all.
///
/// So `dfs_reach` gives the nodes in reach, each once.
pub fn preorder_of_reach<N: Eq>(_of: PhantomData<N>)
    ensures reachable { OfPreorder N.eq (λ next start paths.
        (x : N) → HasNode N.eq (last_nodes paths) x → IsReachable N.eq (HasSuccessor N.eq next) (start ∷ []) x) }
    ensures once { OfPreorder N.eq (λ next start paths. NoRepeats N.eq (last_nodes paths)) }
    ensures whole { OfPreorder N.eq (λ next start paths. IsWholePreorder N.eq next paths → HasEqualSuccessors N.eq next start
        → (x : N) → IsReachable N.eq (HasSuccessor N.eq next) (start ∷ []) x → HasNode N.eq (last_nodes paths) x) }
    ensures at_most { OfPreorder N.eq (λ next start paths.
        IsAtMostNumberOf N.eq (IsReachable N.eq (HasSuccessor N.eq next) (start ∷ [])) (length paths)) }
{}

/// The nodes of a breadth order are in reach, and no node stands twice among them. Where all that was
/// found was given, each node in reach was. They are no more than any list has that has every node in
/// reach.
///
/// So this holds of the nodes that a walk of `bfs_reach` gives, and of all of them once it has ended.
pub fn breadth_order_is_reach<N: Eq>(_of: PhantomData<N>)
    ensures reached { OfBreadthOrder N.eq (λ next start given.
        (x : N) → HasNode N.eq given x → IsReachable N.eq (HasSuccessor N.eq next) (start ∷ []) x) }
    ensures once { (next : N → List N) (start : N) (given : List N) → IsBreadthOrder N.eq next start given → NoRepeats N.eq given }
    ensures all { OfBreadthOrder N.eq (λ next start given. AllGiven N.eq next start given
        → (x : N) → IsReachable N.eq (HasSuccessor N.eq next) (start ∷ []) x → HasNode N.eq given x) }
    ensures at_most { OfBreadthOrder N.eq (λ next start given.
        IsAtMostNumberOf N.eq (IsReachable N.eq (HasSuccessor N.eq next) (start ∷ [])) (length given)) }
{}

/// In a breadth order the distance from the start never falls: of two nodes, the one that comes first
/// can be reached by a walk with no more edges than any walk to the other has.
pub fn breadth_order_is_by_distance<N: Eq>(_of: PhantomData<N>)
    ensures { OfBreadthOrder N.eq (λ next start given.
        (i j : ℕ) (x y : N) → i ≤ j → slice_get given i ≡ Some x → slice_get given j ≡ Some y
        → (far : List N) → IsGoalWalk N.eq (HasSuccessor N.eq next) (start ∷ []) (λ z. N.eq z y) far
        → (near : List N) × IsGoalWalk N.eq (HasSuccessor N.eq next) (start ∷ []) (λ z. N.eq z x) near × (length near ≤ length far)) }
{}

/// A node that a walk of `dijkstra_reach` gave is in reach of the start. No node was given twice, and
/// no more were given than any list has that has every node in reach.
///
/// This holds of each walk of the type of the one that is handed in, which is not changed.
pub fn cheapest_order_is_reach<N, M, C, F, A>(_of: &DijkstraReachableBy<M, C, F, A>)
where
    N: Eq,
    M: Numbering<Node = N>,
    C: Cost,
    F: EdgeFunction<N, C>,
    A: Allocator,
    ensures reached { OfEachCheapestWalk N.eq C.value F.answers (λ edges start walk.
        (x : N) (cost : C) → IsGiven N.eq walk x cost → InReach N.eq edges (start ∷ []) x) }
    ensures once { OfEachCheapestWalk N.eq C.value F.answers (λ edges start walk. NoRepeats N.eq (given_nodes walk)) }
    ensures at_most { OfEachCheapestWalk N.eq C.value F.answers (λ edges start walk.
        IsAtMostNumberOf N.eq (InReach N.eq edges (start ∷ [])) (length walk.given)) }
{}

/// In one graph, cheapest paths cost the same: two from the same starts to nodes that pass one test,
/// and two from one start to equal nodes.
///
/// So `dijkstra`, `dijkstra_all`, `dijkstra_partial` and `dijkstra_reach` give one cost, where they give
/// that of a cheapest path.
pub fn one_cheapest_cost<N: Eq>(_of: PhantomData<N>)
    ensures goals { (edges : N → List (N × ℤ)) (starts : List N) (test : N → Bool) (path other : List N) (s t : ℤ)
        → IsCheapestGoalPath N.eq edges starts test path s → IsCheapestGoalPath N.eq edges starts test other t → s ≡ t }
    ensures node { (edges : N → List (N × ℤ)) (start : N) (x y : N) (s t : ℤ) → N.eq x y ≡ true
        → IsLeastCost N.eq edges start x s → IsLeastCost N.eq edges start y t → s ≡ t }
{}

/// In one graph, two answers to one question agree: where one is `None` the other is too, and else both
/// paths cost the same, or have as many edges, or both loops have as many.
///
/// So a search over a table, between names or over states answers as the one over a function does that
/// lists the same edges.
pub fn answers_agree<N, C, A, B>(_of: PhantomData<(N, C, A, B)>)
where
    N: Eq,
    C: Cost,
    A: Allocator,
    B: Allocator,
    ensures cheapest { (edges : N → List (N × ℤ)) (starts : List N) (test : N → Bool) (one : Option (Vec N A × C)) (other : Option (Vec N B × C))
        → IsCheapestOrNone N.eq edges starts test C.value one → IsCheapestOrNone N.eq edges starts test C.value other → Agree (λ found also. C.value found.1 ≡ C.value also.1) one other }
    ensures fewest { (next : N → List N) (starts : List N) (test : N → Bool) (one : Option (Vec N A)) (other : Option (Vec N B))
        → IsFewestEdgesOrNone N.eq next starts test one → IsFewestEdgesOrNone N.eq next starts test other → Agree (λ path also. length path.items ≡ length also.items) one other }
    ensures loops { (next : N → List N) (starts : List N) (one : Option (Vec N A)) (other : Option (Vec N B))
        → IsBestLoopOrNone N.eq next starts one → IsBestLoopOrNone N.eq next starts other → Agree (λ path also. length path.items ≡ length also.items) one other }
{}

/// In a map of cheapest paths, the chain of parents of a node with an entry is a cheapest path from
/// the start to it, and costs what the entry says.
///
/// So `build_path` over the map of `dijkstra_all` gives such a path.
pub fn path_of_parents_is_cheapest<N: Eq, C: Cost>(_of: PhantomData<(N, C)>)
    ensures { (edges : N → List (N × ℤ)) (start : N) (entry : N → Option (N × C)) (x parent : N) (cost : C) (path : List N)
        → HasEqualEdges N.eq edges start → HasNoNegativeCost N.eq edges (start ∷ []) → IsCheapestMap N.eq edges start C.value entry
        → entry x ≡ Some (parent, cost) → IsChainOfParents N.eq entry x path
        → IsCheapestGoalPath N.eq edges (start ∷ []) (λ y. N.eq y x) path (C.value cost) }
{}
