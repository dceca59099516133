//! The search for strong components, over numbers.

ghost use Rattle.std.specs.Prelude.{◌≡◌, ◌<◌, ◌≤◌, ◌-◌, ◌++◌, ◌∷◌, [], ℕ, Some, None, true, false, OnOk, IfOk, IfErr, IfSome, IfNone, length, take, drop, slice_set};
ghost use Rattle.pf_core.specs.Numbered.{Grows};
ghost use Rattle.pf_orders.specs.declared.component_search.Place.{Place};
ghost use Rattle.pf_orders.specs.declared.component_search.Segment.{Segment};
ghost use Rattle.pf_orders.specs.StrongComponents.{lists_of};
ghost use Rattle.pf_orders.specs.Internal.ComponentSearch.{widened, IsAt, IsPlacedIn, IsOpenIn, AreClosing, AreNumberedComponents, Closes, Joins, IsLast};

use pf_base::PathError;
use pf_core::numbered::NumberedGraph;
use std::alloc::Allocator;

/// What is known of a number.
#[derive(Clone, Copy)]
pub enum Place {
    /// It was not visited.
    New,
    /// It was visited, and stands here among the open numbers.
    Open(usize),
    /// Its component was found.
    Closed,
}

/// A segment of the open path: its numbers lead to one another.
#[derive(Clone, Copy)]
pub struct Segment {
    /// Where the segment begins in the path.
    pub begin: usize,
    /// Where the ends of the steps from it that wait begin.
    pub waiting: usize,
}

/// Where a search for strong components stands.
#[derive(Drop)]
pub struct ComponentSearch<A: Allocator> {
    /// What is known of each number.
    pub places: Vec<Place, A>,
    /// The numbers that were visited and whose component is not yet found, in the order of the visits.
    pub path: Vec<usize, A>,
    /// The ends of the steps from open numbers that were not yet looked at, the next one last. What
    /// the search begins with waits before them.
    pub waiting: Vec<usize, A>,
    /// The segments of the open path, the last one last.
    pub segments: Vec<Segment, A>,
    /// The components that were found.
    pub components: Vec<Vec<usize, A>, A>,
    /// Room for an answer.
    pub row: Vec<usize, A>,
}

/// Closes the places of the numbers.
fn close_places(places: &mut [Place], numbers: &[usize])
    requires inside { (p k : ℕ) → IsAt numbers.now p k → k < length places.old }
    ensures { Closes numbers.now places.old places.new }
{
    'numbers: for number in numbers {
        places[*number] = Place::Closed;
    }
}

/// Takes the segments that begin behind this place of the open path out.
fn join_segments<A: Allocator>(segments: &mut Vec<Segment, A>, place: usize)
    ensures { Joins place segments.old.items segments.new.items }
{
    'segments: while let Some(segment) = segments.last() {
        if segment.begin <= place {
            return;
        }
        segments.pop();
    }
}

impl<A: Allocator + Copy> ComponentSearch<A> {
    /// A search that begins with so many numbers.
    fn new(alloc: A, found: usize) -> Result<ComponentSearch<A>, PathError>
        ensures placed { IfOk result (IsPlacedIn found) }
        ensures path { IfOk result (λ s. s.path.items ≡ []) }
        ensures segments { IfOk result (λ s. s.segments.items ≡ []) }
        ensures components { IfOk result (λ s. s.components.items ≡ []) }
        ensures refused { IfErr result (λ e. e ≡ PathError.OutOfMemory) }
    {
        let mut places = Vec::new(alloc);
        places.resize(found, Place::New)?;
        let mut waiting = Vec::new(alloc);
        'numbers: for number in 0..found {
            waiting.push(number)?;
        }
        Ok(ComponentSearch {
            places,
            path: Vec::new(alloc),
            waiting,
            segments: Vec::new(alloc),
            components: Vec::new(alloc),
            row: Vec::new(alloc),
        })
    }
}

impl<A: Allocator> ComponentSearch<A> {
    /// Where the last segment begins, if nothing of it waits.
    fn spent_segment(&self) -> Option<usize>
        ensures spent { IfSome result (λ begin. (c : Segment) × IsLast self.now.segments.items c × (c.begin ≡ begin) × (c.waiting ≡ length self.now.waiting.items)) }
        ensures left { IfNone result ((c : Segment) → IsLast self.now.segments.items c → ¬ (c.waiting ≡ length self.now.waiting.items)) }
    {
        match self.segments.last() {
            Some(segment) if segment.waiting == self.waiting.len() => Some(segment.begin),
            _ => None,
        }
    }

    /// Takes the last segment out: its numbers are a component.
    fn close(&mut self, alloc: A, begin: usize) -> Result<(), PathError>
        requires inside { (p k : ℕ) → IsAt self.old.path.items p k → k < length self.old.places.items }
        requires begins { begin ≤ length self.old.path.items }
        ensures waiting { self.new.waiting.items ≡ self.old.waiting.items }
        ensures path { OnOk result (self.new.path.items ≡ take begin self.old.path.items) }
        ensures segments { OnOk result (self.new.segments.items ≡ take (length self.old.segments.items - 1) self.old.segments.items) }
        ensures components { OnOk result (lists_of self.new.components.items ≡ lists_of self.old.components.items ++ drop begin self.old.path.items ∷ []) }
        ensures places { OnOk result (Closes (drop begin self.old.path.items) self.old.places.items self.new.places.items) }
        ensures refused { IfErr result (λ e. e ≡ PathError.OutOfMemory) }
    {
        let component = Vec::from_slice(alloc, &self.path[begin..])?;
        close_places(&mut self.places, &component);
        self.components.push(component)?;
        self.path.truncate(begin);
        self.segments.pop();
        Ok(())
    }

    /// Opens the number that waits last, whose steps are in the row, as a segment of its own.
    fn visit(&mut self, number: usize, found: usize) -> Result<(), PathError>
        requires inside { number < length self.old.places.items }
        requires found { length self.old.places.items ≤ found }
        ensures path { OnOk result (self.new.path.items ≡ self.old.path.items ++ number ∷ []) }
        ensures waiting { OnOk result (self.new.waiting.items ≡ take (length self.old.waiting.items - 1) self.old.waiting.items ++ self.old.row.items) }
        ensures segments { OnOk result (self.new.segments.items ≡ self.old.segments.items ++ record { begin = length self.old.path.items; waiting = length self.old.waiting.items - 1 } ∷ []) }
        ensures places { OnOk result (self.new.places.items ≡ slice_set (widened found self.old.places.items) number (Place.Open (length self.old.path.items))) }
        ensures components { self.new.components.items ≡ self.old.components.items }
        ensures refused { IfErr result (λ e. e ≡ PathError.OutOfMemory) }
    {
        self.waiting.pop();
        self.places.resize(found, Place::New)?;
        self.places[number] = Place::Open(self.path.len());
        self.segments.push(Segment {
            begin: self.path.len(),
            waiting: self.waiting.len(),
        })?;
        self.path.push(number)?;
        self.waiting.extend_from_slice(&self.row)?;
        Ok(())
    }
}

impl<A: Allocator + Copy> ComponentSearch<A> {
    /// Closes the last segment, where nothing of it waits, or looks at the number that waits last. The
    /// answer is `false` where nothing is left to do.
    fn turn<G: NumberedGraph<u8>>(&mut self, alloc: A, graph: &mut G) -> Result<bool, PathError>
        requires graph { (g : G.Graph) × G.explores graph.old g }
        requires placed { IsPlacedIn (G.node_count graph.old) self.old }
        ensures grows { Grows (G.node_count graph.old) (G.node_count graph.new) (G.stands graph.old) (G.stands graph.new) }
        ensures graph { (g : G.Graph) → G.explores graph.old g → G.explores graph.new g }
        ensures placed { OnOk result (IsPlacedIn (G.node_count graph.new) self.new) }
        ensures path { OnOk result ((g : G.Graph) → G.explores graph.old g
            → IsOpenIn (G.step g) (G.stands graph.old) self.old
            → IsOpenIn (G.step g) (G.stands graph.new) self.new) }
        ensures closing { OnOk result ((g : G.Graph) → G.explores graph.old g
            → IsOpenIn (G.step g) (G.stands graph.old) self.old
            → AreClosing (G.step g) (G.stands graph.old) (lists_of self.old.components.items)
            → AreClosing (G.step g) (G.stands graph.new) (lists_of self.new.components.items)) }
        ensures ended { IfOk result (λ more. more ≡ false → (self.new.path.items ≡ []) × (self.new.waiting.items ≡ [])) }
        ensures refused { IfErr result (λ e. e ≡ PathError.OutOfMemory) }
    {
        if let Some(begin) = self.spent_segment() {
            self.close(alloc, begin)?;
            return Ok(true);
        }
        let Some(number) = self.waiting.last().copied() else {
            return Ok(false);
        };
        match self.places[number] {
            Place::New => {
                graph.expand(number, &mut self.row)?;
                self.visit(number, graph.node_count())?;
                Ok(true)
            }
            Place::Open(place) => {
                self.waiting.pop();
                join_segments(&mut self.segments, place);
                Ok(true)
            }
            Place::Closed => {
                self.waiting.pop();
                Ok(true)
            }
        }
    }
}

/// The strong components of the nodes in reach, as numbers: each behind those that it reaches.
///
/// The open numbers stand in a row of segments, whose numbers lead to one another. A step back into the
/// row joins segments, and the last segment is a component when no step from it waits.
pub fn strong_components<G: NumberedGraph<u8>, A: Allocator + Copy>(
    alloc: A,
    graph: &mut G,
) -> Result<Vec<Vec<usize, A>, A>, PathError>
    requires graph { (g : G.Graph) × G.explores graph.old g }
    requires begins { (k : ℕ) → k < G.node_count graph.old → (s : G.Node) × G.stands graph.old k s }
    ensures grows { Grows (G.node_count graph.old) (G.node_count graph.new) (G.stands graph.old) (G.stands graph.new) }
    ensures graph { (g : G.Graph) → G.explores graph.old g → G.explores graph.new g }
    ensures numbered { IfOk result (λ components. (g : G.Graph) → G.explores graph.old g → AreNumberedComponents (G.step g) (G.stands graph.new) (G.node_count graph.new) (lists_of components.items)) }
    ensures refused { IfErr result (λ e. e ≡ PathError.OutOfMemory) }
{
    let mut search = ComponentSearch::new(alloc, graph.node_count())?;
    'turns: for _ in 0..usize::MAX {
        if !search.turn(alloc, graph)? {
            return Ok(search.components);
        }
    }
    // So many turns have no room.
    Err(PathError::OutOfMemory)
}
