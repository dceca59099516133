//! Flows between letters.

use crate::letter::Letter;
use pf_base::PathError;
use pf_flow::edmonds_karp::{EKFlows, Edge, edmonds_karp_dense, edmonds_karp_sparse};
use std::alloc::Global;

/// A pair of letters, and what flows between them or what it holds.
pub type Pipe = Edge<Letter, i8>;

/// A greatest flow from the first of three letters to the last one, by the dense store or by the
/// sparse one.
pub fn flow_through(
    alloc: Global,
    is_dense: bool,
    letters: [Letter; 3],
    pipes: &[Pipe],
) -> Result<EKFlows<Letter, i8>, PathError> {
    let [first, _, last] = letters;
    if is_dense {
        edmonds_karp_dense(alloc, &letters, &first, &last, pipes.iter().copied())
    } else {
        edmonds_karp_sparse(alloc, &letters, &first, &last, pipes.iter().copied())
    }
}
