//! Edges between numbers, in chains: one for each number, through the edges at it.

ghost use Rattle.std.specs.Prelude.{◌≡◌, ◌<◌, ℕ, IfOk, IfErr, slice_get, Some, length};
ghost use Rattle.std.specs.List.{AllZip};
ghost use Rattle.pf_base.specs.declared.error.PathError.TheVariants.{OutOfMemory};
ghost use Rattle.pf_graph.specs.declared.undirected.chains.End.{End};
ghost use Rattle.pf_graph.specs.Spanning.{AreBelow};
ghost use Rattle.pf_graph.specs.Internal.Spanning.Chained.{HasNumbers, IsAt, IsLastBefore};
ghost use Rattle.pf_graph.specs.Internal.Spanning.Frontier.{AreChained, IsStepAt};

use crate::undirected::numbered::{NumberedEdge, narrowed};
use crate::undirected::steps::Step;
use pf_base::PathError;
use pf_base::filled::filled;
use std::alloc::Allocator;

/// An end of an edge: its number, and one more than the place of the last edge before it at that
/// number, or 0 where there is none. A graph has two ends for each edge, so an end takes 8 bytes.
#[derive(Clone, Copy)]
pub struct End {
    number: u32,
    earlier: u32,
}

/// Edges that others own, and the ends of each.
#[derive(Drop)]
pub struct Chains<'a, N, C, A: Allocator> {
    edges: &'a [(N, N, C)],
    ends: Vec<(End, End), A>,
    /// By number, one more than the place of the last edge at it, or 0 where there is none.
    lasts: Vec<u32, A>,
}

/// The edges in chains, by the numbers of their ends. The numbered edges are dropped here, before any
/// step waits.
pub fn chains_of<'a, N, C, A>(
    alloc: A,
    edges: &'a [(N, N, C)],
    count: usize,
    numbered: Vec<NumberedEdge<'a, N, C, ()>, A>,
) -> Result<Chains<'a, N, C, A>, PathError>
where
    A: Allocator + Copy,
    requires len { length numbered.items ≡ length edges.now }
    requires below { AreBelow count numbered.items }
    ensures edges { IfOk result (λ chains. chains.edges.now ≡ edges.now) }
    ensures ends { IfOk result (λ chains. AllZip HasNumbers numbered.entry.items chains.ends.items) }
    ensures len { IfOk result (λ chains. length chains.lasts.items ≡ count) }
    ensures chained { IfOk result (λ chains. AreChained chains) }
    ensures refused { IfErr result (λ e. e ≡ OutOfMemory) }
{
    let listed = numbered.as_slice();
    let mut ends = Vec::with_capacity(alloc, listed.len())?;
    let mut lasts = filled(alloc, count, 0u32)?;
    for edge in listed {
        let (one, other) = (edge.0 as usize, edge.1 as usize);
        let first = End {
            number: edge.0,
            earlier: lasts[one],
        };
        let second = End {
            number: edge.1,
            earlier: lasts[other],
        };
        ends.push((first, second))?;
        let last = narrowed(ends.len())?;
        lasts[one] = last;
        lasts[other] = last;
    }
    Ok(Chains { edges, ends, lasts })
}

impl<'a, N, C, A: Allocator> Chains<'a, N, C, A> {
    /// One more than the place of the last edge at a number, or 0 where there is none.
    pub fn last(&self, number: usize) -> usize
        requires chained { AreChained self.now }
        requires inside { number < length self.now.lasts.items }
        ensures { IsLastBefore self.now.ends.items number (length self.now.ends.items) result }
    {
        self.lasts[number] as usize
    }

    /// The step from the number `from` over the edge at a place, and one more than the place of the
    /// last edge before it at that number, or 0. An edge with this number at both ends is taken as it
    /// is written.
    pub fn step(&self, place: usize, from: usize) -> (Step<'a, N, C>, usize)
        requires chained { AreChained self.now }
        requires inside { place < length self.now.ends.items }
        requires at { (d : End × End) → slice_get self.now.ends.items place ≡ Some d → IsAt from d }
        ensures step { IsStepAt self.now place from result.0 }
        ensures earlier { IsLastBefore self.now.ends.items from place result.1 }
    {
        let edge = &self.edges[place];
        let (one, other) = self.ends[place];
        if one.number as usize == from {
            let step = Step {
                edge,
                number: other.number,
                onward: true,
            };
            (step, one.earlier as usize)
        } else {
            let step = Step {
                edge,
                number: one.number,
                onward: false,
            };
            (step, other.earlier as usize)
        }
    }
}
