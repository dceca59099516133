//! A search for a cheapest path of a class that reduced costs lead: by them, each walk from the spur to
//! a goal costs less by what remains there, so that the same ones are cheapest. None of them comes back
//! to the numbers before the spur, to which no step is left.

ghost use Rattle.std.specs.Prelude.{◌≡◌, ◌<◌, ◌≤◌, ◌+◌, ◌+ℤ◌, ◌++◌, ◌∷◌, ℕ, List, Some, map, length, take, drop, IfOk, IfErr, IfSome};
ghost use Rattle.std.proofs.Common.{◌∙◌, sym};
ghost use Rattle.pf_yen.specs.Internal.Adjacency.{is_goal};
ghost use Rattle.pf_yen.specs.Internal.Filtered.{FilteredLists, FilteredStep, StandsForItself, EndsInside, filtered_row};
ghost use Rattle.pf_yen.specs.Internal.Led.{graph_led_by, IsWayAt};
ghost use Rattle.pf_yen.specs.Internal.NamedWays.{IsNamed, IsPrefix};
ghost use Rattle.pf_yen.specs.Internal.WholeGraphs.{IsWhole};

use crate::filtered::FilteredGraph;
use crate::named::{Named, named_way};
use crate::remaining::cost_at;
use crate::rows::Rows;
use pf_base::{Cost, PathError, Tally};
use pf_core::dijkstra::cheapest_path;
use pf_core::numbered::{GoalGraph, NumberedGraph};
use pf_core::row::Row;
use std::alloc::Allocator;

/// A filtered graph at reduced costs.
#[derive(Drop)]
struct LedGraph<'f, 'k, C: Cost, A: Allocator> {
    filtered: &'f FilteredGraph<'k, C, A>,
    rows: &'f Rows<C, A>,
}

impl<'f, 'k, C: Cost, A: Allocator> NumberedGraph<C> for LedGraph<'f, 'k, C, A> {
    ghost Node = { ℕ };

    ghost Graph = { FilteredLists C };

    ghost step = { FilteredStep C.value };

    ghost successors = { λ g a. map (λ (e : ℕ × C). e.0) (filtered_row g a) };

    ghost passes = { λ g. is_goal g.adjacency };

    ghost node_count = { λ s. length s.rows.now };

    ghost stands = { λ s. StandsForItself (length s.rows.now) };

    ghost explores = { λ s g. (g ≡ graph_led_by s) × EndsInside g.adjacency
        × (length s.filtered.now.onward.items ≡ length s.rows.now)
        × (length s.filtered.now.adjacency.now.rows ≡ length s.rows.now) };

    ghost can_forget = { λ s k. k ≡ length s.rows.now };

    fn node_count(&self) -> usize {
        self.rows.len()
    }

    fn expand<R: Row<C>>(&mut self, node: usize, row: &mut R) -> Result<(), PathError> {
        row.reset();
        self.filtered.list_allowed(node, self.rows.row(node), row)
    }

    fn forget(&mut self, _first: usize) {}

    ghost inside_law = { λ s k x h. h.1 };

    ghost one_law = { λ s g e i j x a b. a.0 ∙ sym b.0 };
}

impl<'f, 'k, C: Cost, A: Allocator> GoalGraph<C> for LedGraph<'f, 'k, C, A> {
    fn is_goal(&mut self, node: usize) -> bool {
        self.filtered.adjacency.is_goal(node)
    }
}

/// What a path costs: what was spent up to its spur, what remains from there, and how much more than
/// that the path takes, where these are known and fit together.
fn total_behind<C: Cost>(spent: Option<C>, rest: Option<C>, more: C) -> Option<C>
    ensures { IfSome result (λ total. (s x : C) × (spent ≡ Some s) × (rest ≡ Some x) × (C.value total ≡ (C.value s +ℤ C.value x) +ℤ C.value more)) }
{
    spent?.checked_add(&rest?)?.checked_add(&more)
}

/// The path that begins with these numbers and goes on behind the first of the others, where it is
/// known what it costs.
fn way_on<C: Cost, A: Allocator + Copy>(
    alloc: A,
    begin: &[usize],
    behind: &[usize],
    total: Option<C>,
) -> Result<Named<C, A>, PathError>
    requires some { 1 ≤ length behind.now }
    ensures way { IfOk result (λ named. IsWayAt (begin.now ++ drop 1 behind.now) total named) }
    ensures refused { IfErr result (λ e. e ≡ PathError.OutOfMemory) }
{
    let Some(total) = total else {
        return Ok(Named::Unknown);
    };
    let mut path = Vec::new(alloc);
    path.reserve_exact(begin.len().saturating_add(behind.len()))?;
    path.extend_from_slice(begin)?;
    path.extend_from_slice(&behind[1..])?;
    Ok(Named::Way(path, total))
}

/// A cheapest path of the class of a filtered graph and of the numbers that it begins with, by a
/// search from the spur that reduced costs lead, or that the class has none. Nothing is known where
/// there are no reduced costs or some sum does not fit.
fn led_way<C: Cost, A: Allocator + Copy>(
    alloc: A,
    filtered: &FilteredGraph<'_, C, A>,
    begin: &[usize],
) -> Result<Named<C, A>, PathError>
    requires whole { IsWhole C.value filtered.now.adjacency.now }
    requires wide { length filtered.now.onward.items ≡ length filtered.now.adjacency.now.rows }
    requires inside { filtered.now.spur < length filtered.now.adjacency.now.rows }
    ensures named { IfOk result (λ named. (q : List ℕ) → begin.now ≡ 0 ∷ q → IsPrefix C.value filtered.now.adjacency.now filtered.now.onward.items filtered.now.spur q filtered.now.spent
        → IsNamed C.value filtered.now.adjacency.now q filtered.now.banned named) }
    ensures refused { IfErr result (λ e. e ≡ PathError.OutOfMemory) }
{
    let Some(reduced) = filtered.adjacency.reduced() else {
        return Ok(Named::Unknown);
    };
    let mut led = LedGraph {
        filtered,
        rows: reduced.rows,
    };
    let mut tally = Tally::new();
    match cheapest_path(alloc, &mut led, filtered.spur, &mut tally) {
        Ok(Some((behind, more))) => {
            let rest = cost_at(reduced.remaining, filtered.spur);
            let total = total_behind(filtered.spent, rest, more);
            way_on(alloc, begin, &behind, total)
        }
        Ok(None) => Ok(Named::Nothing),
        Err(PathError::CostOverflow) => Ok(Named::Unknown),
        Err(error) => Err(error),
    }
}

/// What is found of the class of the first numbers of a path, up to the place `spur`, without a search
/// at full costs: the path that remaining costs name, or else by a search that they lead.
pub fn guided_way<C: Cost, A: Allocator + Copy>(
    alloc: A,
    filtered: &FilteredGraph<'_, C, A>,
    path: &[usize],
    spur: usize,
) -> Result<Named<C, A>, PathError>
    requires whole { IsWhole C.value filtered.now.adjacency.now }
    requires wide { length filtered.now.onward.items ≡ length filtered.now.adjacency.now.rows }
    requires begins { take (spur + 1) path.now ≡ 0 ∷ take spur (drop 1 path.now) }
    requires inside { spur < length path.now }
    requires prefix { IsPrefix C.value filtered.now.adjacency.now filtered.now.onward.items filtered.now.spur (take spur (drop 1 path.now)) filtered.now.spent }
    ensures named { IfOk result (λ named. IsNamed C.value filtered.now.adjacency.now (take spur (drop 1 path.now)) filtered.now.banned named) }
    ensures refused { IfErr result (λ e. e ≡ PathError.OutOfMemory) }
{
    match named_way(alloc, filtered, path, spur)? {
        Named::Unknown => led_way(alloc, filtered, &path[..spur + 1]),
        named => Ok(named),
    }
}
