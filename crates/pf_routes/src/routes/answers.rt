//! Answers as text.

ghost use Rattle.std.specs.Prelude.{ℕ, List, IfOk, IfErr};
ghost use Rattle.pf_routes.specs.AnswerText.{IsAnswer, IsFewestEdgesAnswer, IsPathAnswer, Overflows};
ghost use Rattle.pf_routes.specs.EdgeText.{Edge};
ghost use Rattle.pf_routes.specs.Internal.Parsed.{HoldsOfEdges, RefusesAnswer, RefusesText};
ghost use Rattle.pf_routes.specs.Roads.{HasCostOverflow};

use crate::routes::commands::Command;
use crate::routes::flow::flow_lines;
use crate::routes::network::Network;
use crate::routes::path_text::write_path;
use crate::routes::ranked::{all_lines, ranked_lines};
use crate::routes::search::{cheapest_path, fewest_edges_path};
use crate::routes::spanning::spanning_lines;
use pf_route_io::error::RouteError;
use std::alloc::Allocator;
use std::hash::BuildHasher;

/// The line of a cheapest path between two names, or that there is none.
fn cheapest_line<S: BuildHasher + Drop, A: Allocator + Copy>(
    alloc: A,
    from: &[u8],
    to: &[u8],
    text: Vec<u8, A>,
    hash_builder: S,
) -> Result<Vec<u8, A>, RouteError>
    ensures ok { IfOk result (λ line. HoldsOfEdges text.items (λ edges. IsPathAnswer edges from.now to.now line.items)) }
    ensures err { IfErr result (λ e. RefusesAnswer (λ edges. HasCostOverflow edges from.now to.now) e text.items) }
{
    let network = Network::read(alloc, from, to, text, hash_builder)?;
    match cheapest_path(alloc, &network.graph, network.from, network.to)? {
        None => Ok(Vec::from_slice(alloc, b"none\n")?),
        Some((path, cost)) => Ok(write_path(alloc, cost, &network.names, path.as_slice())?),
    }
}

/// The line of a path with fewest edges between two names, or that there is none.
fn fewest_edges_line<S: BuildHasher + Drop, A: Allocator + Copy>(
    alloc: A,
    from: &[u8],
    to: &[u8],
    text: Vec<u8, A>,
    hash_builder: S,
) -> Result<Vec<u8, A>, RouteError>
    ensures ok { IfOk result (λ line. HoldsOfEdges text.items (λ edges. IsFewestEdgesAnswer edges from.now to.now line.items)) }
    ensures err { IfErr result (λ e. RefusesText e text.items) }
{
    let network = Network::read(alloc, from, to, text, hash_builder)?;
    match fewest_edges_path(alloc, &network.graph, network.from, network.to)? {
        None => Ok(Vec::from_slice(alloc, b"none\n")?),
        Some(path) => {
            let edge_count = path.len() - 1;
            Ok(write_path(alloc, edge_count as u64, &network.names, path.as_slice())?)
        }
    }
}

/// The text of an answer to the command about the edges of a text.
pub(crate) fn answer_to<S: BuildHasher + Drop, A: Allocator + Copy>(
    alloc: A,
    command: &Command,
    text: Vec<u8, A>,
    hash_builder: S,
) -> Result<Vec<u8, A>, RouteError>
    ensures ok { IfOk result (λ answer. HoldsOfEdges text.items (λ edges. IsAnswer command.now edges answer.items)) }
    ensures err { IfErr result (λ e. RefusesAnswer (Overflows command.now) e text.items) }
{
    match command {
        Command::Dijkstra { from, to } => {
            cheapest_line(alloc, from.as_bytes(), to.as_bytes(), text, hash_builder)
        }
        Command::Bfs { from, to } => {
            fewest_edges_line(alloc, from.as_bytes(), to.as_bytes(), text, hash_builder)
        }
        Command::Kruskal => spanning_lines(alloc, text, hash_builder),
        Command::Yen { from, to, count } => {
            let (from, to) = (from.as_bytes(), to.as_bytes());
            ranked_lines(alloc, from, to, *count, text, hash_builder)
        }
        Command::YenAll { from, to } => {
            all_lines(alloc, from.as_bytes(), to.as_bytes(), text, hash_builder)
        }
        Command::Flow { from, to } => {
            flow_lines(alloc, from.as_bytes(), to.as_bytes(), text, hash_builder)
        }
    }
}
