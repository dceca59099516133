//! Cheapest paths of classes, and how a class is split once its cheapest path was given.
//!
//! The split is Lawler's (E. L. Lawler, "A procedure for computing the K best solutions to discrete
//! optimization problems and its application to the shortest path problem", 1972): no path is in two
//! classes, and no class is searched twice.

ghost use Rattle.std.specs.Prelude.{◌≡◌, ◌⊎◌, ◌<◌, ◌+◌, ◌∷◌, ℕ, ℤ, List, [], length, take, drop, map, Err, OnOk, IfOk, IfErr, IfSome, MatchOption};
ghost use Rattle.pf_yen.specs.Internal.WholeGraphs.{IsWhole};
ghost use Rattle.pf_yen.specs.Internal.Filtered.{OverflowsFromStart, graph_filtered_by};
ghost use Rattle.pf_yen.specs.Internal.Classes.{IsCleanNumbers, IsCheapestOfClass, plan_of};
ghost use Rattle.pf_yen.specs.Internal.NamedWays.{IsPrefix, IsSpent};
ghost use Rattle.pf_yen.specs.Internal.Splits.{IsFilteredTo, IsCheapestAlong, HasNoneAlong, IsSplit, ClassOverflows};

use crate::adjacency::Adjacency;
use crate::candidate::Candidate;
use crate::filtered::FilteredGraph;
use crate::led::guided_way;
use crate::named::Named;
use pf_base::{Cost, PathError, Tally};
use pf_core::dijkstra::cheapest_path;
use std::alloc::Allocator;

/// A cheapest walk of the narrowed graph, as a candidate whose prefix ends at the place `spur`. The
/// banned numbers are moved out.
pub fn least_of_class<C: Cost, A: Allocator + Copy>(
    alloc: A,
    filtered: &mut FilteredGraph<'_, C, A>,
    spur: usize,
) -> Result<Option<Candidate<C, A>>, PathError>
    requires whole { IsWhole C.value filtered.old.adjacency.now }
    requires some { 0 < length filtered.old.adjacency.now.rows }
    requires wide { length filtered.old.onward.items ≡ length filtered.old.adjacency.now.rows }
    ensures adjacency { filtered.new.adjacency.now ≡ filtered.old.adjacency.now }
    ensures onward { filtered.new.onward.items ≡ filtered.old.onward.items }
    ensures spur { filtered.new.spur ≡ filtered.old.spur }
    ensures banned { OnOk result (filtered.new.banned ≡ []) }
    ensures least { IfOk result (λ answer. (q : List ℕ) → IsFilteredTo filtered.old.adjacency.now filtered.old.onward.items filtered.old.spur q
        → MatchOption answer (HasNoneAlong C.value filtered.old.adjacency.now q filtered.old.banned)
        (λ c. IsCheapestAlong C.value filtered.old.adjacency.now q filtered.old.banned c.path.items c.cost)) }
    ensures parts { IfOk result (λ answer. IfSome answer (λ c. (c.spur ≡ spur) × (c.banned.items ≡ filtered.old.banned))) }
    ensures overflow { result ≡ Err PathError.CostOverflow → OverflowsFromStart C.value (graph_filtered_by filtered.old) C.fits }
    ensures errors { IfErr result (λ e. (e ≡ PathError.OutOfMemory) ⊎ (e ≡ PathError.CostOverflow)) }
{
    let mut tally = Tally::new();
    let answer = cheapest_path(alloc, filtered, 0, &mut tally)?;
    let banned = filtered.banned.take(alloc);
    match answer {
        None => Ok(None),
        Some((path, cost)) => Ok(Some(Candidate {
            path,
            cost,
            spur,
            banned,
        })),
    }
}

/// The same, where the graph stands behind some numbers that cost what was spent. That stays.
fn searched<C: Cost, A: Allocator + Copy>(
    alloc: A,
    filtered: &mut FilteredGraph<'_, C, A>,
    spur: usize,
) -> Result<Option<Candidate<C, A>>, PathError>
    requires whole { IsWhole C.value filtered.old.adjacency.now }
    requires some { 0 < length filtered.old.adjacency.now.rows }
    requires wide { length filtered.old.onward.items ≡ length filtered.old.adjacency.now.rows }
    ensures adjacency { filtered.new.adjacency.now ≡ filtered.old.adjacency.now }
    ensures onward { filtered.new.onward.items ≡ filtered.old.onward.items }
    ensures spur { filtered.new.spur ≡ filtered.old.spur }
    ensures spent { OnOk result (filtered.new.spent ≡ filtered.old.spent) }
    ensures banned { OnOk result (filtered.new.banned ≡ []) }
    ensures least { IfOk result (λ answer. (q : List ℕ) → IsFilteredTo filtered.old.adjacency.now filtered.old.onward.items filtered.old.spur q
        → MatchOption answer (HasNoneAlong C.value filtered.old.adjacency.now q filtered.old.banned)
        (λ c. IsCheapestAlong C.value filtered.old.adjacency.now q filtered.old.banned c.path.items c.cost)) }
    ensures parts { IfOk result (λ answer. IfSome answer (λ c. (c.spur ≡ spur) × (c.banned.items ≡ filtered.old.banned))) }
    ensures overflow { result ≡ Err PathError.CostOverflow → OverflowsFromStart C.value (graph_filtered_by filtered.old) C.fits }
    ensures errors { IfErr result (λ e. (e ≡ PathError.OutOfMemory) ⊎ (e ≡ PathError.CostOverflow)) }
{
    let spent = filtered.spent;
    let answer = least_of_class(alloc, filtered, spur)?;
    filtered.spent = spent;
    Ok(answer)
}

/// A cheapest path of the class of the first numbers of a path, up to the place `spur`, and of the
/// banned numbers: the one that remaining costs name or lead to, and else by a search at full costs.
/// The banned numbers are moved out.
fn least_behind<C: Cost, A: Allocator + Copy>(
    alloc: A,
    filtered: &mut FilteredGraph<'_, C, A>,
    path: &[usize],
    spur: usize,
) -> Result<Option<Candidate<C, A>>, PathError>
    requires whole { IsWhole C.value filtered.old.adjacency.now }
    requires some { 0 < length filtered.old.adjacency.now.rows }
    requires wide { length filtered.old.onward.items ≡ length filtered.old.adjacency.now.rows }
    requires begins { take (spur + 1) path.now ≡ 0 ∷ take spur (drop 1 path.now) }
    requires inside { spur < length path.now }
    requires prefix { IsPrefix C.value filtered.old.adjacency.now filtered.old.onward.items filtered.old.spur (take spur (drop 1 path.now)) filtered.old.spent }
    ensures adjacency { filtered.new.adjacency.now ≡ filtered.old.adjacency.now }
    ensures onward { filtered.new.onward.items ≡ filtered.old.onward.items }
    ensures spur { filtered.new.spur ≡ filtered.old.spur }
    ensures spent { OnOk result (filtered.new.spent ≡ filtered.old.spent) }
    ensures banned { OnOk result (filtered.new.banned ≡ []) }
    ensures least { IfOk result (λ answer. MatchOption answer (HasNoneAlong C.value filtered.old.adjacency.now (take spur (drop 1 path.now)) filtered.old.banned)
        (λ c. IsCheapestAlong C.value filtered.old.adjacency.now (take spur (drop 1 path.now)) filtered.old.banned c.path.items c.cost)) }
    ensures parts { IfOk result (λ answer. IfSome answer (λ c. (c.spur ≡ spur) × (c.banned.items ≡ filtered.old.banned))) }
    ensures overflow { result ≡ Err PathError.CostOverflow → OverflowsFromStart C.value (graph_filtered_by filtered.old) C.fits }
    ensures errors { IfErr result (λ e. (e ≡ PathError.OutOfMemory) ⊎ (e ≡ PathError.CostOverflow)) }
{
    match guided_way(alloc, filtered, path, spur)? {
        Named::Way(path, cost) => Ok(Some(Candidate {
            path,
            cost,
            spur,
            banned: filtered.banned.take(alloc),
        })),
        Named::Nothing => {
            let _banned = filtered.banned.take(alloc);
            Ok(None)
        }
        Named::Unknown => searched(alloc, filtered, spur),
    }
}

/// The graph narrowed to the walks that begin as the path does, up to the place `spur`.
fn filtered_along<'k, C: Cost, A: Allocator + Copy>(
    alloc: A,
    adjacency: &'k Adjacency<C, A>,
    path: &[usize],
    spur: usize,
) -> Result<FilteredGraph<'k, C, A>, PathError>
    requires whole { IsWhole C.value adjacency.now }
    requires some { 0 < length adjacency.now.rows }
    requires clean { (u : ℤ) × IsCleanNumbers C.value adjacency.now path.now u }
    requires inside { spur < length path.now }
    ensures adjacency { IfOk result (λ filtered. filtered.adjacency.now ≡ adjacency.now) }
    ensures wide { IfOk result (λ filtered. length filtered.onward.items ≡ length adjacency.now.rows) }
    ensures banned { IfOk result (λ filtered. filtered.banned ≡ []) }
    ensures filtered { IfOk result (λ filtered. IsFilteredTo adjacency.now filtered.onward.items filtered.spur (take spur (drop 1 path.now))) }
    ensures spent { IfOk result (λ filtered. IsSpent C.value adjacency.now (take spur (drop 1 path.now)) filtered.spent) }
    ensures refused { IfErr result (λ e. e ≡ PathError.OutOfMemory) }
{
    let mut filtered = FilteredGraph::new(alloc, adjacency)?;
    'places: for place in 0..spur {
        filtered.go_on(path[place + 1]);
    }
    Ok(filtered)
}

/// Puts among the plans cheapest paths of the classes that have the rest of the paths of a candidate's
/// class. The graph is narrowed to the first numbers of the candidate's path, up to its spur.
fn split_along<C: Cost, A: Allocator + Copy>(
    alloc: A,
    filtered: &mut FilteredGraph<'_, C, A>,
    candidate: &Candidate<C, A>,
    plans: &mut Vec<Candidate<C, A>, A>,
) -> Result<(), PathError>
    requires whole { IsWhole C.value filtered.old.adjacency.now }
    requires some { 0 < length filtered.old.adjacency.now.rows }
    requires wide { length filtered.old.onward.items ≡ length filtered.old.adjacency.now.rows }
    requires cheapest { IsCheapestOfClass C.value filtered.old.adjacency.now (plan_of candidate.now) }
    requires filtered { IsFilteredTo filtered.old.adjacency.now filtered.old.onward.items filtered.old.spur (take candidate.now.spur (drop 1 candidate.now.path.items)) }
    requires spent { IsSpent C.value filtered.old.adjacency.now (take candidate.now.spur (drop 1 candidate.now.path.items)) filtered.old.spent }
    requires banned { filtered.old.banned ≡ [] }
    requires empty { plans.old.items ≡ [] }
    ensures split { OnOk result (IsSplit C.value filtered.old.adjacency.now (plan_of candidate.now) (map plan_of plans.new.items)) }
    ensures overflow { result ≡ Err PathError.CostOverflow → ClassOverflows C.value filtered.old.adjacency.now C.fits (plan_of candidate.now) }
    ensures errors { IfErr result (λ e. (e ≡ PathError.OutOfMemory) ⊎ (e ≡ PathError.CostOverflow)) }
{
    candidate.cost.known();
    filtered.banned.add_all(&candidate.banned)?;
    'places: for place in candidate.spur..candidate.path.len() - 1 {
        let next = candidate.path[place + 1];
        filtered.banned.add(next)?;
        if let Some(plan) = least_behind(alloc, filtered, &candidate.path, place)? {
            plans.push(plan)?;
        }
        filtered.go_on(next);
    }
    Ok(())
}

/// Splits the class of a candidate whose path was given: cheapest paths of the classes that have the
/// rest of its paths. A class without a path is left out.
pub fn split<C: Cost, A: Allocator + Copy>(
    alloc: A,
    adjacency: &Adjacency<C, A>,
    candidate: &Candidate<C, A>,
) -> Result<Vec<Candidate<C, A>, A>, PathError>
    requires whole { IsWhole C.value adjacency.now }
    requires some { 0 < length adjacency.now.rows }
    requires cheapest { IsCheapestOfClass C.value adjacency.now (plan_of candidate.now) }
    ensures split { IfOk result (λ plans. IsSplit C.value adjacency.now (plan_of candidate.now) (map plan_of plans.items)) }
    ensures overflow { result ≡ Err PathError.CostOverflow → ClassOverflows C.value adjacency.now C.fits (plan_of candidate.now) }
    ensures errors { IfErr result (λ e. (e ≡ PathError.OutOfMemory) ⊎ (e ≡ PathError.CostOverflow)) }
{
    let mut filtered = filtered_along(alloc, adjacency, &candidate.path, candidate.spur)?;
    let mut plans = Vec::new(alloc);
    split_along(alloc, &mut filtered, candidate, &mut plans)?;
    Ok(plans)
}
