//! The numbers that follow each number, and how often each one follows.

ghost use Rattle.std.specs.Prelude.{◌≡◌, ◌⊎◌, ◌<◌, [], ℕ, replicate, Err, Some, Vec, IfOk, IfErr, OnOk, Contains, length, nat_eq};
ghost use Rattle.pf_base.specs.Walks.{HasNode};
ghost use Rattle.pf_core.specs.Numbered.{Grows, StandsBelow};
ghost use Rattle.pf_orders.specs.Internal.Rounds.{AreRead, AreSuccessorRows, Falls};

use crate::rounds::Rows;
use pf_base::PathError;
use pf_core::numbered::NumberedGraph;
use std::alloc::Allocator;

/// Adds the numbers of a row to their counts.
fn count_row(row: &[usize], counts: &mut [usize]) -> Result<(), PathError>
    requires { (j : ℕ) → HasNode nat_eq row.now j → j < length counts.old }
    ensures counted { OnOk result (Falls row.now counts.new counts.old) }
    ensures refused { IfErr result (λ e. e ≡ PathError.OutOfMemory) }
{
    'targets: for target in row {
        let Some(count) = counts[*target].checked_add(1) else {
            // So many edges have no room.
            return Err(PathError::OutOfMemory);
        };
        counts[*target] = count;
    }
    Ok(())
}

/// Puts the row of each number found before at the end, and counts its numbers. Refused where a node
/// follows that was not found before.
fn fill_rows<G: NumberedGraph<u8>, A: Allocator + Copy>(
    alloc: A,
    graph: &mut G,
    rows: &mut Rows<A>,
    counts: &mut Vec<usize, A>,
) -> Result<(), PathError>
    requires graph { (g : G.Graph) × G.explores graph.old g }
    requires begins { (k : ℕ) → k < G.node_count graph.old → (s : G.Node) × G.stands graph.old k s }
    requires unread { (rows.old.items ≡ []) × (counts.old.items ≡ replicate (G.node_count graph.old) 0) }
    ensures graph { (g : G.Graph) → G.explores graph.old g → G.explores graph.new g }
    ensures grows { Grows (G.node_count graph.old) (G.node_count graph.new) (G.stands graph.old) (G.stands graph.new) }
    ensures read { OnOk result (AreRead (G.node_count graph.old) (G.node_count graph.new) rows.new.items counts.new.items) }
    ensures listed { (g : G.Graph) → G.explores graph.old g → OnOk result (AreSuccessorRows (G.stands graph.new) (G.successors g) rows.new.items) }
    ensures unknown { (g : G.Graph) → G.explores graph.old g → result ≡ Err PathError.UnknownVertex
        → (x : G.Node) × (y : G.Node) × StandsBelow (G.node_count graph.old) (G.stands graph.new) x × Contains (G.successors g x) y × ¬ (StandsBelow (G.node_count graph.old) (G.stands graph.new) y) }
    ensures errors { IfErr result (λ e. (e ≡ PathError.OutOfMemory) ⊎ (e ≡ PathError.UnknownVertex)) }
{
    let count = graph.node_count();
    'numbers: for number in 0..count {
        let mut row = Vec::new(alloc);
        graph.expand(number, &mut row)?;
        if graph.node_count() > count {
            return Err(PathError::UnknownVertex);
        }
        count_row(&row, counts)?;
        rows.push(row)?;
    }
    Ok(())
}

/// The numbers that follow each number found before, and how often each one follows. Refused where a
/// node follows that was not found before.
pub fn read_rows<G: NumberedGraph<u8>, A: Allocator + Copy>(
    alloc: A,
    graph: &mut G,
) -> Result<(Rows<A>, Vec<usize, A>), PathError>
    requires graph { (g : G.Graph) × G.explores graph.old g }
    requires begins { (k : ℕ) → k < G.node_count graph.old → (s : G.Node) × G.stands graph.old k s }
    ensures graph { (g : G.Graph) → G.explores graph.old g → G.explores graph.new g }
    ensures grows { Grows (G.node_count graph.old) (G.node_count graph.new) (G.stands graph.old) (G.stands graph.new) }
    ensures read { IfOk result (λ read. AreRead (G.node_count graph.old) (G.node_count graph.new) read.0.items read.1.items) }
    ensures listed { (g : G.Graph) → G.explores graph.old g → IfOk result (λ read. AreSuccessorRows (G.stands graph.new) (G.successors g) read.0.items) }
    ensures unknown { (g : G.Graph) → G.explores graph.old g → result ≡ Err PathError.UnknownVertex
        → (x : G.Node) × (y : G.Node) × StandsBelow (G.node_count graph.old) (G.stands graph.new) x × Contains (G.successors g x) y × ¬ (StandsBelow (G.node_count graph.old) (G.stands graph.new) y) }
    ensures errors { IfErr result (λ e. (e ≡ PathError.OutOfMemory) ⊎ (e ≡ PathError.UnknownVertex)) }
{
    let count = graph.node_count();
    let mut rows = Vec::with_capacity(alloc, count)?;
    let mut counts = Vec::new(alloc);
    counts.resize(count, 0)?;
    fill_rows(alloc, graph, &mut rows, &mut counts)?;
    Ok((rows, counts))
}
