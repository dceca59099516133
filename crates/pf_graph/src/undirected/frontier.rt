//! The steps that wait where a tree grows, the least first, and which numbers it covers.
//!
//! A number waits once for each step that leads to it. Only the first of them covers it; the others
//! are stale by then, and are passed over.

ghost use Rattle.std.specs.BinaryHeap.{IsHeap, heap_items, heap_len};
ghost use Rattle.std.specs.Prelude.{◌≡◌, ◌≢◌, ◌<◌, ◌+◌, true, ◌∷◌, [], IfErr, OnOk, OnSome, Contains, IsPermutation, MatchOption, length, slice_set};
ghost use Rattle.std.specs.declared.cmp.Ordering.TheVariants.{Greater};
ghost use Rattle.std.specs.declared.cmp.Reverse.{Reverse};
ghost use Rattle.pf_base.specs.declared.error.PathError.TheVariants.{OutOfMemory};
ghost use Rattle.pf_graph.specs.declared.undirected.steps.Step.{Step};
ghost use Rattle.pf_graph.specs.Internal.Spanning.Frontier.{AreChained, IsMarked, WaitsSave, Waits, Gains, TakesLeast, NoneLeaves, waiting_order, step_order};

use crate::undirected::chains::Chains;
use crate::undirected::steps::Step;
use pf_base::PathError;
use std::alloc::Allocator;
use std::cmp::Reverse;
use std::collections::BinaryHeap;

/// The steps that wait.
pub type Queue<'a, N, C, A> = BinaryHeap<Reverse<Step<'a, N, C>>, A>;

/// Takes out a least step.
fn pop_least<'a, N, C, A>(queue: &mut Queue<'a, N, C, A>) -> Option<Reverse<Step<'a, N, C>>>
where
    N: Ord,
    C: Ord,
    A: Allocator,
    requires { IsHeap (waiting_order N.cmp C.cmp) (heap_items queue.old) }
    ensures ordered { IsHeap (waiting_order N.cmp C.cmp) (heap_items queue.new) }
    ensures least { MatchOption result ((heap_items queue.old ≡ []) × (heap_items queue.new ≡ []))
        (λ r. IsPermutation (heap_items queue.old) (r ∷ heap_items queue.new)
        × ((t : Reverse (Step N C)) → Contains (heap_items queue.old) t → step_order N.cmp C.cmp r.0 t.0 ≢ Greater)) }
    ensures len { OnSome result (heap_len queue.new + 1 ≡ heap_len queue.old) }
{
    queue.pop()
}

/// Takes out a least step to a number that is not covered, and the stale ones that come before it.
pub fn next_leaving<'a, N, C, A>(
    covered: &[bool],
    queue: &mut Queue<'a, N, C, A>,
) -> Option<Step<'a, N, C>>
where
    N: Ord,
    C: Ord,
    A: Allocator,
    requires inside { (r : Reverse (Step N C)) → Contains (heap_items queue.old) r → r.0.number < length covered.now }
    requires ordered { IsHeap (waiting_order N.cmp C.cmp) (heap_items queue.old) }
    ensures ordered { IsHeap (waiting_order N.cmp C.cmp) (heap_items queue.new) }
    ensures taken { MatchOption result (NoneLeaves covered.now (heap_items queue.old))
        (λ s. TakesLeast N.cmp C.cmp covered.now (heap_items queue.old) (heap_items queue.new) s) }
{
    'entries: while let Some(entry) = pop_least(queue) {
        if !covered[entry.0.number as usize] {
            return Some(entry.0);
        }
    }
    None
}

/// Puts in the steps from a covered number that lead to numbers that are not covered.
fn push_leaving<'a, N, C, A>(
    queue: &mut Queue<'a, N, C, A>,
    covered: &[bool],
    chains: &Chains<'a, N, C, A>,
    number: usize,
) -> Result<(), PathError>
where
    N: Ord,
    C: Ord,
    A: Allocator,
    requires chained { AreChained chains.now }
    requires len { length covered.now ≡ length chains.now.lasts.items }
    requires covered { IsMarked true covered.now number }
    requires ordered { IsHeap (waiting_order N.cmp C.cmp) (heap_items queue.old) }
    ensures ordered { OnOk result (IsHeap (waiting_order N.cmp C.cmp) (heap_items queue.new)) }
    ensures gains { OnOk result (Gains chains.now number 0 covered.now (heap_items queue.old) (heap_items queue.new)) }
    ensures refused { IfErr result (λ e. e ≡ OutOfMemory) }
{
    let mut last = chains.last(number);
    'edges: while last > 0 {
        let (step, earlier) = chains.step(last - 1, number);
        if !covered[step.number as usize] {
            queue.push(Reverse(step))?;
        }
        last = earlier;
    }
    Ok(())
}

/// Covers a number, and puts in the steps that lead from it to numbers that are not covered.
pub fn cover<'a, N, C, A>(
    covered: &mut [bool],
    queue: &mut Queue<'a, N, C, A>,
    chains: &Chains<'a, N, C, A>,
    number: usize,
) -> Result<(), PathError>
where
    N: Ord,
    C: Ord,
    A: Allocator,
    requires chained { AreChained chains.now }
    requires len { length covered.old ≡ length chains.now.lasts.items }
    requires inside { number < length chains.now.lasts.items }
    requires waits { WaitsSave chains.now covered.old number (heap_items queue.old) }
    requires ordered { IsHeap (waiting_order N.cmp C.cmp) (heap_items queue.old) }
    ensures covered { OnOk result (covered.new ≡ slice_set covered.old number true) }
    ensures waits { OnOk result (Waits chains.now covered.new (heap_items queue.new)) }
    ensures ordered { OnOk result (IsHeap (waiting_order N.cmp C.cmp) (heap_items queue.new)) }
    ensures refused { IfErr result (λ e. e ≡ OutOfMemory) }
{
    covered[number] = true;
    push_leaving(queue, covered, chains, number)
}
