//! Nodes that others own.

use indexmap::IndexSet;
use std::hash::{BuildHasherDefault, FoldHasher};

/// Nodes that others own, each once, numbered in the order in which they are found.
pub type Nodes<'a, N, A> = IndexSet<&'a N, BuildHasherDefault<FoldHasher>, A>;
