//! What a run of `routes` reads from and writes to, and why it gives no answer.
//!
//! `Noted` notes the failures of a reader or a writer; `reading` and `writing` go to the end of one.
//! `pf_routes` exports `Noted` and `RouteError`.
#![tactic(auto)]

pub mod error;
pub mod noted;
pub mod reading;
pub mod sink;
pub mod source;
pub mod writing;
