//! The cheapest paths between two names, as text.

ghost use Rattle.std.specs.Prelude.{List, IfOk, IfErr};
ghost use Rattle.pf_routes.specs.AnswerText.{AreAllPathLines, AreCheapestPathLines};
ghost use Rattle.pf_routes.specs.EdgeText.{Edge};
ghost use Rattle.pf_routes.specs.Internal.Parsed.{HoldsOfEdges, RefusesAnswer};
ghost use Rattle.pf_routes.specs.Roads.{HasPathOverflow, HasRankedOverflow};

use crate::routes::network::Network;
use crate::routes::path_text::write_paths;
use crate::routes::search::cheapest_paths;
use pf_route_io::error::RouteError;
use std::alloc::Allocator;
use std::hash::BuildHasher;

/// The lines of the cheapest clean paths between two names, at most `count` of them, or that there is
/// none.
pub(crate) fn ranked_lines<S: BuildHasher + Drop, A: Allocator + Copy>(
    alloc: A,
    from: &[u8],
    to: &[u8],
    count: usize,
    text: Vec<u8, A>,
    hash_builder: S,
) -> Result<Vec<u8, A>, RouteError>
    ensures ok { IfOk result (λ lines. HoldsOfEdges text.items (λ edges. AreCheapestPathLines edges from.now to.now count lines.items)) }
    ensures err { IfErr result (λ e. RefusesAnswer (λ edges. HasRankedOverflow edges from.now to.now count) e text.items) }
{
    let network = Network::read(alloc, from, to, text, hash_builder)?;
    let paths = cheapest_paths(alloc, &network.graph, network.from, network.to, count)?;
    Ok(write_paths(alloc, &network.names, paths.as_slice())?)
}

/// The lines of all clean paths between two names, or that there is none.
pub(crate) fn all_lines<S: BuildHasher + Drop, A: Allocator + Copy>(
    alloc: A,
    from: &[u8],
    to: &[u8],
    text: Vec<u8, A>,
    hash_builder: S,
) -> Result<Vec<u8, A>, RouteError>
    ensures ok { IfOk result (λ lines. HoldsOfEdges text.items (λ edges. AreAllPathLines edges from.now to.now lines.items)) }
    ensures err { IfErr result (λ e. RefusesAnswer (λ edges. HasPathOverflow edges from.now to.now) e text.items) }
{
    // The lines stand in a vector, which has fewer bytes than this, and each path takes more than one.
    ranked_lines(alloc, from, to, usize::MAX, text, hash_builder)
}
