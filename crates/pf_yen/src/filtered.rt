//! A known graph that is searched along one path: of the numbers on it, each has its next one alone.

ghost use Rattle.std.specs.Prelude.{◌≡◌, ◌≤ℤ◌, ◌<◌, ◌++◌, ◌∷◌, ◌+ℤ◌, ℕ, List, [], Some, None, length, map, replicate, slice_set, filter, Contains, OnOk, IfOk, IfErr, IfSome};
ghost use Rattle.std.proofs.Common.{◌∙◌, sym};
ghost use Rattle.pf_base.specs.Walks.{end_of};
ghost use Rattle.pf_yen.specs.Internal.Filtered.{FilteredLists, is_new, allows, FilteredStep, StandsForItself, EndsInside, graph_filtered_by, filtered_row};
ghost use Rattle.pf_yen.specs.Internal.Adjacency.{is_goal};
ghost use Rattle.pf_yen.specs.Internal.NamedWays.{is_first, IsSpent};

use crate::adjacency::Adjacency;
use crate::banned::Banned;
use crate::remaining::lesser;
use pf_base::{Cost, PathError};
use pf_core::numbered::{GoalGraph, NumberedGraph};
use pf_core::row::Row;
use std::alloc::Allocator;

/// A known graph without some steps: from a number with an onward one, the steps to that one alone
/// are left, from another number none to one with an onward one, and from the spur none to a banned
/// number.
#[derive(Drop)]
pub struct FilteredGraph<'k, C: Cost, A: Allocator> {
    pub adjacency: &'k Adjacency<C, A>,
    pub onward: Vec<Option<usize>, A>,
    pub spur: usize,
    pub banned: Banned<A>,
    /// What the way to the spur costs, where that fits.
    pub spent: Option<C>,
}

/// The cost of a cheapest step to the number `to` in a row, if there is one.
fn cheapest_step<C: Cost>(row: &[(usize, C)], to: usize) -> Option<C>
    ensures { IfSome result (λ c. Contains row.now (to, c) × ((d : C) → Contains row.now (to, d) → C.value c ≤ℤ C.value d)) }
{
    let mut least = None;
    'steps: for (next, price) in row {
        if *next == to {
            least = Some(lesser(least, *price));
        }
    }
    least
}

/// What was spent and a cheapest step of the row to the number `to` cost together, where that is known
/// and fits.
fn spent_on<C: Cost>(spent: Option<C>, row: &[(usize, C)], to: usize) -> Option<C>
    ensures { IfSome result (λ sum. (s c : C) × (spent ≡ Some s) × (C.value sum ≡ C.value s +ℤ C.value c) × Contains row.now (to, c) × ((d : C) → Contains row.now (to, d) → C.value c ≤ℤ C.value d)) }
{
    spent?.checked_add(&cheapest_step(row, to)?)
}

impl<'k, C: Cost, A: Allocator> FilteredGraph<'k, C, A> {
    /// The whole graph, with number 0 as the spur.
    pub fn new(alloc: A, adjacency: &'k Adjacency<C, A>) -> Result<Self, PathError>
    where
        A: Copy,
        ensures graph { IfOk result (λ filtered. (filtered.adjacency.now ≡ adjacency.now) × (filtered.spur ≡ 0) × (filtered.banned ≡ [])) }
        ensures onward { IfOk result (λ filtered. filtered.onward.items ≡ replicate (length adjacency.now.rows) None) }
        ensures spent { IfOk result (λ filtered. IsSpent C.value adjacency.now [] filtered.spent) }
        ensures refused { IfErr result (λ e. e ≡ PathError.OutOfMemory) }
    {
        let banned = Banned::nothing(alloc, adjacency.len())?;
        let mut onward = Vec::new(alloc);
        onward.resize(adjacency.len(), None)?;
        Ok(FilteredGraph {
            adjacency,
            onward,
            spur: 0,
            banned,
            spent: Some(C::zero()),
        })
    }

    /// Goes on from the spur to the next number alone, which is the spur from then on.
    pub fn go_on(&mut self, next: usize)
        requires inside { self.old.spur < length self.old.onward.items }
        requires wide { length self.old.onward.items ≡ length self.old.adjacency.now.rows }
        ensures adjacency { self.new.adjacency.now ≡ self.old.adjacency.now }
        ensures onward { self.new.onward.items ≡ slice_set self.old.onward.items self.old.spur (Some next) }
        ensures spur { self.new.spur ≡ next }
        ensures banned { self.new.banned ≡ self.old.banned }
        ensures spent { (q : List ℕ) → IsSpent C.value self.old.adjacency.now q self.old.spent → end_of 0 q ≡ self.old.spur → IsSpent C.value self.old.adjacency.now (q ++ next ∷ []) self.new.spent }
    {
        self.spent = spent_on(self.spent, self.adjacency.row(self.spur), next);
        self.onward[self.spur] = Some(next);
        self.spur = next;
    }

    /// Is a number neither the spur nor one before it?
    pub fn is_new(&self, number: usize) -> bool
        requires { number < length self.now.onward.items }
        ensures { result ≡ is_new self.now.onward.items self.now.spur number }
    {
        self.onward[number].is_none() && number != self.spur
    }

    /// May a path go on to a number from the spur, and not come back?
    pub fn may_be_first(&self, number: usize) -> bool
        requires { number < length self.now.onward.items }
        ensures { result ≡ is_first self.now.onward.items self.now.spur self.now.banned number }
    {
        self.is_new(number) && !self.banned.has(number)
    }

    /// Is a step from one number to the other left?
    fn allows(&self, from: usize, to: usize) -> bool
        requires { (from < length self.now.onward.items) × (to < length self.now.onward.items) }
        ensures { result ≡ allows (graph_filtered_by self.now) from to }
    {
        match self.onward[from] {
            Some(only) => to == only,
            None => self.onward[to].is_none() && (from != self.spur || !self.banned.has(to)),
        }
    }

    /// Puts those of some steps that are left from a number into an empty row.
    pub fn list_allowed<R: Row<C>>(
        &self,
        node: usize,
        steps: &[(usize, C)],
        row: &mut R,
    ) -> Result<(), PathError>
        requires inside { node < length self.now.onward.items }
        requires ends { (b : ℕ) (c : C) → Contains steps.now (b, c) → b < length self.now.onward.items }
        requires empty { R.holds row.old [] }
        ensures listed { OnOk result (R.holds row.new (filter (λ (e : ℕ × C). allows (graph_filtered_by self.now) node e.0) steps.now)) }
        ensures refused { IfErr result (λ e. e ≡ PathError.OutOfMemory) }
    {
        'steps: for (next, price) in steps {
            if self.allows(node, *next) {
                row.add(*next, *price)?;
            }
        }
        Ok(())
    }
}

impl<'k, C: Cost, A: Allocator> NumberedGraph<C> for FilteredGraph<'k, C, A> {
    ghost Node = { ℕ };

    ghost Graph = { FilteredLists C };

    ghost step = { FilteredStep C.value };

    ghost successors = { λ g a. map (λ (e : ℕ × C). e.0) (filtered_row g a) };

    ghost passes = { λ g. is_goal g.adjacency };

    ghost node_count = { λ s. length s.adjacency.now.rows };

    ghost stands = { λ s. StandsForItself (length s.adjacency.now.rows) };

    ghost explores = { λ s g. (g ≡ graph_filtered_by s)
        × EndsInside s.adjacency.now × (length s.onward.items ≡ length s.adjacency.now.rows) };

    ghost can_forget = { λ s k. k ≡ length s.adjacency.now.rows };

    fn node_count(&self) -> usize {
        self.adjacency.len()
    }

    fn expand<R: Row<C>>(&mut self, node: usize, row: &mut R) -> Result<(), PathError> {
        row.reset();
        self.list_allowed(node, self.adjacency.row(node), row)
    }

    fn forget(&mut self, _first: usize) {}

    ghost inside_law = { λ s k x h. h.1 };

    ghost one_law = { λ s g e i j x a b. a.0 ∙ sym b.0 };
}

impl<'k, C: Cost, A: Allocator> GoalGraph<C> for FilteredGraph<'k, C, A> {
    fn is_goal(&mut self, node: usize) -> bool {
        self.adjacency.is_goal(node)
    }
}
