//! Groups that functions answer: each start with the nodes next to it.

ghost use Rattle.std.specs.Prelude.{◌≡◌, ◌∷◌, ◌++◌, [], List, IfOk, IfErr};
ghost use Rattle.std.specs.Iterator.{IsFiniteIterable, Drains};
ghost use Rattle.pf_base.specs.Walks.{HasNode};
ghost use Rattle.pf_base.specs.Answers.{IsLawfulClone};
ghost use Rattle.pf_base.specs.declared.error.PathError.TheVariants.{OutOfMemory};
ghost use Rattle.pf_components.specs.Internal.Around.{AreGroupsAround};

use pf_base::{PathError, SuccessorFunction};
use std::alloc::Allocator;

/// The nodes next to a start, and a clone of the start.
fn group_around<N, IN, A>(alloc: A, start: &N, adjacent: IN) -> Result<Vec<N, A>, PathError>
where
    N: Clone,
    IN: IntoIterator<Item = N>,
    A: Allocator,
    requires ends { IsFiniteIterable IN.into_iter_gives IN.IntoIter.can_next IN.IntoIter.remaining adjacent }
    ensures members { IfOk result (λ group. (it : IN.IntoIter) × (xs : List N) × (copy : N) × IN.into_iter_gives adjacent it × Drains IN.IntoIter.next_gives it xs
        × N.is_clone start.now copy × (group.items ≡ xs ++ copy ∷ [])) }
    ensures refused { IfErr result (λ e. e ≡ OutOfMemory) }
{
    let mut group = Vec::new(alloc);
    'adjacent: for node in adjacent {
        group.push(node)?;
    }
    group.push(start.clone()?)?;
    Ok(group)
}

/// A group for each start, in order. The function is called on the starts alone, once on each.
pub fn groups_around<N, IN, FN, A>(
    alloc: A,
    starts: &[N],
    mut adjacent: FN,
) -> Result<Vec<Vec<N, A>, A>, PathError>
where
    N: Eq + Clone,
    IN: IntoIterator<Item = N>,
    FN: FnMut(&N) -> IN,
    A: Allocator + Copy,
    requires clones { IsLawfulClone N.eq N.is_clone }
    requires graph { (next : N → List N) × ⟦<FN as SuccessorFunction<N>>⟧.answers adjacent (HasNode N.eq starts.now) next }
    ensures groups { IfOk result (λ groups. (next : N → List N) → ⟦<FN as SuccessorFunction<N>>⟧.answers adjacent (HasNode N.eq starts.now) next
        → AreGroupsAround N.eq next starts.now groups.items) }
    ensures refused { IfErr result (λ e. e ≡ OutOfMemory) }
{
    let mut groups = Vec::with_capacity(alloc, starts.len())?;
    for start in starts {
        let items = adjacent(start);
        groups.push(group_around(alloc, start, items)?)?;
    }
    Ok(groups)
}
