//! Tests of grids: worked values, a plain table beside them, and each growth refused in turn.

mod callers;
mod model;
mod refusals;
mod worked;
