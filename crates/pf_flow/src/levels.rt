//! Levels of vertices, found by breadth first over residual capacities.

ghost use Rattle.std.specs.Prelude.{◌≡◌, ◌<◌, ◌+◌, length, slice_index, OnOk, IfErr};
ghost use Rattle.pf_base.specs.declared.error.PathError.TheVariants.{OutOfMemory};
ghost use Rattle.pf_residual.specs.Networks.{Network};
ghost use Rattle.pf_residual.specs.Internal.Levels.{HasFound, IsTree, IsTreePath, Reaches};
ghost use Rattle.pf_residual.specs.Internal.CurrentArcs.{AreArcs};
ghost use Rattle.pf_flow.specs.Internal.Phases.{HoldsLevels};

use pf_base::{PathError, SignedCost};
use pf_residual::current_arcs::CurrentArcs;
use pf_residual::store::FlowStore;
use std::alloc::Allocator;

/// How far each vertex is from the source, by which vertex it was reached, and which arcs lead on
/// from it.
#[derive(Drop)]
pub struct Levels<A: Allocator> {
    /// The level of each vertex, or the number of vertices where it was not reached.
    pub levels: Vec<usize, A>,
    /// The vertex before each vertex that was reached, the source itself excepted.
    pub parents: Vec<usize, A>,
    /// The vertices in the order in which they were reached.
    queue: Vec<usize, A>,
    /// The arcs with residual capacity that lead one level up.
    pub arcs: CurrentArcs<A>,
}

impl<A: Allocator + Copy> Levels<A> {
    /// No vertices.
    pub fn new(alloc: A) -> Self {
        Levels {
            levels: Vec::new(alloc),
            parents: Vec::new(alloc),
            queue: Vec::new(alloc),
            arcs: CurrentArcs::new(alloc),
        }
    }

    /// Finds the levels of all vertices.
    pub fn find<C, S>(&mut self, alloc: A, store: &S) -> Result<(), PathError>
    where
        C: SignedCost,
        S: FlowStore<C>,
        ensures found { OnOk result (HoldsLevels (S.network store.now) self.new) }
        ensures refused { IfErr result (λ e. e ≡ OutOfMemory) }
    {
        self.begin(store)?;
        let mut ends = Vec::new(alloc);
        let mut at = 0;
        while at < self.queue.len() {
            self.follow(store, at, &mut ends)?;
            at += 1;
        }
        Ok(())
    }

    /// Reaches the source alone.
    fn begin<C, S>(&mut self, store: &S) -> Result<(), PathError>
    where
        C: SignedCost,
        S: FlowStore<C>,
        ensures found { OnOk result (HasFound (S.network store.now) self.new.levels.items self.new.parents.items self.new.queue.items 0) }
        ensures arcs { OnOk result (AreArcs (S.network store.now).vertices self.new.arcs.targets.items self.new.arcs.places.items self.new.arcs.ends.items) }
        ensures refused { IfErr result (λ e. e ≡ OutOfMemory) }
    {
        let size = store.size();
        let source = store.source();
        self.levels.clear();
        self.levels.resize(size, size)?;
        self.levels[source] = 0;
        self.parents.clear();
        self.parents.resize(size, source)?;
        self.queue.clear();
        self.queue.reserve(size)?;
        self.queue.push(source)?;
        self.arcs.reset(size)
    }

    /// Follows the pairs with residual capacity from the vertex at a place of the queue, which are
    /// listed for that.
    fn follow<C, S>(
        &mut self,
        store: &S,
        at: usize,
        ends: &mut Vec<(usize, usize), A>,
    ) -> Result<(), PathError>
    where
        C: SignedCost,
        S: FlowStore<C>,
        requires found { HasFound (S.network store.now) self.old.levels.items self.old.parents.items self.old.queue.items at }
        requires at { at < length self.old.queue.items }
        requires arcs { AreArcs (S.network store.now).vertices self.old.arcs.targets.items self.old.arcs.places.items self.old.arcs.ends.items }
        ensures found { OnOk result (HasFound (S.network store.now) self.new.levels.items self.new.parents.items self.new.queue.items (at + 1)) }
        ensures arcs { OnOk result (AreArcs (S.network store.now).vertices self.new.arcs.targets.items self.new.arcs.places.items self.new.arcs.ends.items) }
        ensures refused { IfErr result (λ e. e ≡ OutOfMemory) }
    {
        let from = self.queue[at];
        let level = self.levels[from];
        store.list_residual(from, ends)?;
        for end in ends.as_slice() {
            self.reach(from, level, end.0)?;
        }
        self.arcs
            .add_row(from, level, ends.as_slice(), &self.levels)
    }

    /// Reaches a vertex from one of a level, if it was not reached before.
    fn reach(&mut self, from: usize, level: usize, to: usize) -> Result<(), PathError>
        requires low { level < length self.old.levels.items }
        requires to { to < length self.old.levels.items }
        requires wide { length self.old.parents.items ≡ length self.old.levels.items }
        ensures reached { OnOk result (Reaches from level to self.old.levels.items self.old.parents.items self.old.queue.items self.new.levels.items self.new.parents.items self.new.queue.items) }
        ensures arcs { self.new.arcs ≡ self.old.arcs }
        ensures refused { IfErr result (λ e. e ≡ OutOfMemory) }
    {
        if self.levels[to] == self.levels.len() {
            self.levels[to] = level + 1;
            self.parents[to] = from;
            self.queue.push(to)?;
        }
        Ok(())
    }

    /// Writes the vertices on the path to a vertex that was reached, each at the place of its level.
    pub fn write_path(&self, path: &mut [usize], to: usize)
        requires tree { IsTree self.now.levels.items self.now.parents.items }
        requires to { to < length self.now.levels.items }
        requires reached { slice_index self.now.levels.items to < length self.now.levels.items }
        requires len { length path.old ≡ length self.now.levels.items }
        ensures { IsTreePath self.now.levels.items self.now.parents.items to path.new 0 }
    {
        let mut place = self.levels[to];
        path[place] = to;
        while place > 0 {
            let before = self.parents[path[place]];
            place -= 1;
            path[place] = before;
        }
    }
}
