//! Lazy walks, each gone along to its end, resumed where a step is refused.

use crate::answers::{Heap, Places};
use pf_base::PathError;
use pf_name_paths::yen_paths;
use pf_name_walks::{bfs_reach, dfs_reach, dijkstra_reach};

/// What came of a walk so far, beside the places that are to come.
#[derive(Drop)]
pub struct Seen {
    names: &'static [&'static str],
    count: usize,
    is_right: bool,
    refusal: Option<PathError>,
}

impl Seen {
    pub fn new(names: &'static [&'static str]) -> Seen {
        Seen {
            names,
            count: 0,
            is_right: true,
            refusal: None,
        }
    }

    /// Notes a place that came, or that a step was refused.
    pub fn note(&mut self, step: Result<&str, PathError>) {
        match step {
            Ok(place) => {
                let is_next = matches!(self.names.get(self.count), Some(name) if *name == place);
                self.is_right = self.is_right && is_next;
                self.count = self.count.saturating_add(1);
            }
            Err(refusal) => self.refusal = Some(refusal),
        }
    }

    /// Whether just these places came; or the refusal, where they came behind one.
    pub fn answer(&self) -> Result<bool, PathError> {
        let is_right = self.is_right && self.count == self.names.len();
        match self.refusal {
            Some(refusal) if is_right => Err(refusal),
            _ => Ok(is_right),
        }
    }
}

/// Whether the places in reach of `a` come in breadth order.
pub fn is_breadth(heap: Heap<'_>, places: &Places<'_, '_>) -> Result<bool, PathError> {
    let mut seen = Seen::new(&["a", "b", "c", "d"]);
    let mut walk = bfs_reach(heap, places, &"a")?;
    let mut left = walk.remaining_nodes_low_bound();
    for _ in 0..2 {
        for step in walk.by_ref() {
            seen.note(step.map(|place| *place));
        }
        walk.resume();
    }
    left = left.saturating_add(walk.remaining_nodes_low_bound());
    Ok(seen.answer()? && left == 1)
}

/// Whether they come in preorder.
pub fn is_preorder(heap: Heap<'_>, places: &Places<'_, '_>) -> Result<bool, PathError> {
    let mut seen = Seen::new(&["a", "b", "c", "d"]);
    let mut walk = dfs_reach(heap, places, &"a")?;
    let mut left = walk.remaining_nodes_low_bound();
    for _ in 0..2 {
        for step in walk.by_ref() {
            seen.note(step.map(|place| *place));
        }
        walk.resume();
    }
    left = left.saturating_add(walk.remaining_nodes_low_bound());
    Ok(seen.answer()? && left == 1)
}

/// Whether they come by rising cost.
pub fn is_by_cost(heap: Heap<'_>, places: &Places<'_, '_>) -> Result<bool, PathError> {
    let mut seen = Seen::new(&["a", "b", "d", "c"]);
    let mut cost = 0u32;
    let mut walk = dijkstra_reach(heap, places, &"a")?;
    for _ in 0..2 {
        for step in walk.by_ref() {
            if let Ok(item) = &step {
                cost = cost.saturating_add(item.total_cost);
            }
            seen.note(step.map(|item| *item.node));
        }
        walk.resume();
    }
    Ok(seen.answer()? && cost == 9)
}

/// Whether the paths from `a` to `c` come by rising cost.
pub fn is_ranked(heap: Heap<'_>, places: &Places<'_, '_>) -> Result<bool, PathError> {
    let mut seen = Seen::new(&["b", "c"]);
    let mut cost = 0u32;
    let mut walk = yen_paths(heap, places, &"a", &"c")?;
    for _ in 0..2 {
        for step in walk.by_ref() {
            match &step {
                Ok((path, sum)) => {
                    cost = cost.saturating_add(*sum);
                    if let Some(place) = path.get(1) {
                        seen.note(Ok(**place));
                    }
                }
                Err(refusal) => seen.note(Err(*refusal)),
            }
        }
        walk.resume();
    }
    Ok(seen.answer()? && cost == 15)
}
