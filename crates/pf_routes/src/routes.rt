//! The program `routes` as a library: edges as text in, an answer as text out.

mod answers;
mod by_ends;
mod bytes;
mod command_line;
mod commands;
mod decimals;
mod digits;
mod edge_lines;
mod edge_text;
mod flow;
mod links;
mod name;
mod name_table;
mod network;
mod path_text;
mod ranked;
mod read_name;
mod runs;
mod search;
mod spanning;

pub use command_line::command;
pub use commands::Command;
pub use pf_route_io::error::RouteError;
pub use pf_route_io::noted::Noted;
pub use runs::{run, run_with_hasher};
