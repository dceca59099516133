//! Directed graphs: cycles of a step.

pub mod cycle_detection;
