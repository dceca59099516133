mod around;
mod assignments;
mod components;
mod cycles;
mod refusals;
mod spanning;

use std::alloc::Global;
use test_allocator::Refusing;

/// A heap that refuses requests.
type Heap<'h> = &'h Refusing<Global>;
