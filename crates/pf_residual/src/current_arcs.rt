//! Arcs from vertex to vertex in levels, and which of them a search for paths has still to try.

ghost use Rattle.std.specs.Prelude.{◌≡◌, ◌<◌, ◌+◌, ℕ, Some, length, slice_get, slice_index, slice_set, OnOk, IfErr, IfSome};
ghost use Rattle.pf_base.specs.declared.error.PathError.TheVariants.{OutOfMemory};
ghost use Rattle.pf_residual.specs.Internal.CurrentArcs.{AreArcs};

use pf_base::PathError;
use std::alloc::Allocator;

/// For each vertex the arcs that lead from it one level up, and its current arc: the first of them
/// that is not retired.
#[derive(Drop)]
pub struct CurrentArcs<A: Allocator> {
    /// The heads of the arcs, in rows by the vertices that they leave, and by which number the store
    /// finds each of them.
    pub targets: Vec<(usize, usize), A>,
    /// For each vertex the place of its current arc.
    pub places: Vec<usize, A>,
    /// For each vertex the place after its last arc.
    pub ends: Vec<usize, A>,
}

impl<A: Allocator + Copy> CurrentArcs<A> {
    /// No vertices.
    pub fn new(alloc: A) -> Self {
        CurrentArcs {
            targets: Vec::new(alloc),
            places: Vec::new(alloc),
            ends: Vec::new(alloc),
        }
    }

    /// From now on no arc leaves any of so many vertices.
    pub fn reset(&mut self, size: usize) -> Result<(), PathError>
        ensures arcs { OnOk result (AreArcs size self.new.targets.items self.new.places.items self.new.ends.items) }
        ensures refused { IfErr result (λ e. e ≡ OutOfMemory) }
    {
        self.targets.clear();
        self.places.clear();
        self.places.resize(size, 0)?;
        self.ends.clear();
        self.ends.resize(size, 0)?;
        Ok(())
    }

    /// The arcs from a vertex of a level are those to the vertices of the list that are above it.
    pub fn add_row(
        &mut self,
        from: usize,
        level: usize,
        list: &[(usize, usize)],
        levels: &[usize],
    ) -> Result<(), PathError>
        requires arcs { AreArcs (length levels.now) self.old.targets.items self.old.places.items self.old.ends.items }
        requires from { from < length levels.now }
        requires inside { (k : ℕ) (end : ℕ × ℕ) → slice_get list.now k ≡ Some end → end.0 < length levels.now }
        ensures arcs { OnOk result (AreArcs (length levels.now) self.new.targets.items self.new.places.items self.new.ends.items) }
        ensures refused { IfErr result (λ e. e ≡ OutOfMemory) }
    {
        self.places[from] = self.targets.len();
        for end in list {
            let to = end.0;
            if levels[to] > level {
                self.targets.push(*end)?;
            }
        }
        self.ends[from] = self.targets.len();
        Ok(())
    }

    /// The head of the current arc of a vertex, and by which number the store finds it, if an arc is
    /// left.
    pub fn current_arc(&self, from: usize) -> Option<(usize, usize)>
        requires arcs { AreArcs (length self.now.places.items) self.now.targets.items self.now.places.items self.now.ends.items }
        requires from { from < length self.now.places.items }
        ensures inside { IfSome result (λ arc. arc.0 < length self.now.places.items) }
        ensures left { IfSome result (λ _. slice_index self.now.places.items from < slice_index self.now.ends.items from) }
    {
        let place = self.places[from];
        if place < self.ends[from] {
            Some(self.targets[place])
        } else {
            None
        }
    }

    /// Retires the current arc of a vertex.
    pub fn retire_arc(&mut self, from: usize)
        requires arcs { AreArcs (length self.old.places.items) self.old.targets.items self.old.places.items self.old.ends.items }
        requires from { from < length self.old.places.items }
        requires left { slice_index self.old.places.items from < slice_index self.old.ends.items from }
        ensures places { self.new.places.items ≡ slice_set self.old.places.items from (slice_index self.old.places.items from + 1) }
        ensures targets { self.new.targets.items ≡ self.old.targets.items }
        ensures ends { self.new.ends.items ≡ self.old.ends.items }
    {
        self.places[from] += 1;
    }
}
