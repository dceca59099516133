//! What is kept of the nodes on the way, and of those that a step from these leads to.

ghost use Rattle.std.specs.Prelude.{◌≡◌, ◌⊎◌, ◌≤◌, ◌<◌, ℕ, ℤ, Bool, [], true, Some, OnOk, IfOk, IfErr, MatchOption, ⊤, length};
ghost use Rattle.pf_core.specs.Nodes.{NodeGraph, StandsFor};
ghost use Rattle.pf_deepening.specs.declared.rows.Span.{Span};
ghost use Rattle.pf_informed.specs.Internal.Led.{IsLed};
ghost use Rattle.pf_deepening.specs.Ways.{HasSpan};
ghost use Rattle.pf_informed.specs.Internal.Rows.{found_in, IsTabled, IsWhole, KeepsNone, KnowsMore, Forgets, IsKnown};

use crate::directed::idastar::cheapest_row::CheapestRow;
use crate::estimates::ask;
use crate::functions::EstimateFunction;
use pf_base::{Cost, NodeTest, PathError};
use pf_core::numbered::{GoalGraph, NumberedGraph};
use pf_deepening::rows::{Rows, Span};
use pf_discovery::numbering::Numbering;
use pf_discovery::source::EdgeSource;
use pf_discovery::tested::TestedBy;
use std::alloc::Allocator;

/// The nodes that are kept, what is asked for them, and what was answered.
#[derive(Drop)]
pub(crate) struct Known<M, C: Cost, S, T, H, A: Allocator> {
    pub graph: TestedBy<M, S, T>,
    pub estimate: H,
    pub estimates: Vec<C, A>,
    pub rows: Rows<C, A>,
    pub row: CheapestRow<C, A>,
}

impl<N, M, C, S, T, H, A> Known<M, C, S, T, H, A>
where
    N: Eq + Drop,
    M: Numbering<Node = N>,
    C: Cost,
    S: EdgeSource<N, C>,
    T: NodeTest<N>,
    H: EstimateFunction<N, C>,
    A: Allocator + Copy,
{
    /// The nodes that were found, with no estimate and no steps.
    pub fn new(alloc: A, graph: TestedBy<M, S, T>, estimate: H) -> Self
        ensures graph { result.graph ≡ graph }
        ensures unasked { result.estimates.items ≡ [] }
        ensures table { IsTabled M.keys result }
        ensures unopened { KeepsNone result.rows.spans.items }
        ensures known { (g : NodeGraph N) (test : N → Bool) (least : N → ℤ) → IsLed M.keys N.eq C.value S.answers T.answers H.answers g test least graph estimate []
            → IsKnown M.keys N.eq C.value S.answers T.answers H.answers g test least result }
    {
        Known {
            graph,
            estimate,
            estimates: Vec::new(alloc),
            rows: Rows::new(alloc),
            row: CheapestRow::new(alloc),
        }
    }

    /// Where the steps from a number stand, which are asked for, or `None` where its node passes the
    /// test.
    pub fn span_of(&mut self, number: usize) -> Result<Option<Span>, PathError>
        requires inside { number < found_in M.keys self.old }
        requires whole { IsWhole M.keys self.old }
        requires unopened { (s : Span) → ¬ (HasSpan self.old.rows.spans.items number s) }
        requires graph { (g : NodeGraph N) × (test : N → Bool) × (least : N → ℤ)
            × IsKnown M.keys N.eq C.value S.answers T.answers H.answers g test least self.old }
        ensures more { OnOk result (KnowsMore M.keys N.eq self.old self.new) }
        ensures kept { IfOk result (λ r. MatchOption r ⊤ (λ s. HasSpan self.new.rows.spans.items number s)) }
        ensures opened { IfOk result (λ r. MatchOption r ⊤ (λ s. (s.begin ≡ length self.old.rows.steps.items) × (s.found ≡ found_in M.keys self.old))) }
        ensures only { OnOk result ((k : ℕ) (s : Span) → HasSpan self.new.rows.spans.items k s → HasSpan self.old.rows.spans.items k s ⊎ (k ≡ number)) }
        ensures graph { (g : NodeGraph N) (test : N → Bool) (least : N → ℤ)
            → IsKnown M.keys N.eq C.value S.answers T.answers H.answers g test least self.old
            → IfOk result (λ r. IsKnown M.keys N.eq C.value S.answers T.answers H.answers g test least self.new
            × MatchOption r ((x : N) → StandsFor N.eq (M.keys self.new.graph.discovery.nodes) number x → test x ≡ true) (λ _. ⊤)) }
        ensures refused { IfErr result (λ e. e ≡ PathError.OutOfMemory) }
    {
        let found = self.graph.node_count();
        if self.graph.is_goal(number) {
            return Ok(None);
        }
        self.graph.expand(number, &mut self.row)?;
        ask(
            &self.graph.discovery.nodes,
            &mut self.estimate,
            &mut self.estimates,
        )?;
        let span = self.rows.keep(number, &self.row.steps, found)?;
        Ok(Some(span))
    }

    /// Forgets the steps from a number, and the nodes that were found since these were asked for.
    pub fn forget(&mut self, number: usize)
        requires { (s : Span) → HasSpan self.old.rows.spans.items number s → s.found ≤ found_in M.keys self.old }
        ensures forgets { (s : Span) → HasSpan self.old.rows.spans.items number s → Forgets M.keys N.eq number s self.old self.new }
        ensures led { (g : NodeGraph N) (test : N → Bool) (least : N → ℤ)
            → IsLed M.keys N.eq C.value S.answers T.answers H.answers g test least self.old.graph self.old.estimate self.old.estimates.items
            → IsLed M.keys N.eq C.value S.answers T.answers H.answers g test least self.new.graph self.new.estimate self.new.estimates.items }
    {
        let Some(span) = self.rows.span(number) else {
            return;
        };
        self.graph.forget(span.found);
        self.estimates.truncate(span.found);
        self.rows.forget(number, span.begin);
    }
}
