//! Edges as a graph of numbered names.

ghost use Rattle.std.specs.Prelude.{◌≡◌, [], IfOk, IfErr, OnOk};
ghost use Rattle.std.specs.List.{flat_map};
ghost use Rattle.pf_routes.specs.FlowText.{ends_of};
ghost use Rattle.pf_routes.specs.Internal.Links.{KeepsNames, NumbersInTurn, edges_between};
ghost use Rattle.pf_routes.specs.Internal.Parsed.{HoldsOfEdges, RefusesText};

use crate::routes::links::{Link, Names, number, read_links};
use crate::routes::name_table::NameTable;
use indexmap::IndexSet;
use pf_adjacency::AdjacencyList;
use pf_route_io::error::RouteError;
use std::alloc::Allocator;
use std::hash::BuildHasher;

/// Names, and the links between their numbers.
#[derive(Drop)]
pub(crate) struct Linked<A: Allocator + Copy> {
    pub(crate) names: NameTable<A>,
    pub(crate) links: Vec<Link, A>,
}

impl<A: Allocator + Copy> Linked<A> {
    ghost use Rattle.pf_routes.specs.Internal.Network.{LinksEdges, LinksNames, NumbersEdges};

    /// The edges of a text, by the numbers of their names.
    pub(crate) fn read<S: BuildHasher + Drop>(
        alloc: A,
        text: &[u8],
        hash_builder: S,
    ) -> Result<Self, RouteError>
        ensures ok { IfOk result (λ linked. HoldsOfEdges text.now (λ edges. LinksEdges linked edges)) }
        ensures err { IfErr result (λ e. RefusesText e text.now) }
    {
        let mut names = IndexSet::with_hasher(alloc, hash_builder);
        Self::read_into(alloc, &mut names, text)
    }

    /// The same, with the numbers of two names, which are numbered first.
    pub(crate) fn read_with_ends<S: BuildHasher + Drop>(
        alloc: A,
        from: &[u8],
        to: &[u8],
        text: &[u8],
        hash_builder: S,
    ) -> Result<(Self, usize, usize), RouteError>
        ensures ok { IfOk result (λ r. HoldsOfEdges text.now (λ edges. NumbersEdges r.0 r.1 r.2 edges from.now to.now)) }
        ensures err { IfErr result (λ e. RefusesText e text.now) }
    {
        let mut names = IndexSet::with_hasher(alloc, hash_builder);
        Self::read_with_ends_into(alloc, &mut names, from, to, text)
    }

    /// The edges of a text, by the numbers of their names. Those that are new are added to the names.
    fn read_into<'a, S: BuildHasher>(
        alloc: A,
        names: &mut Names<'a, S, A>,
        text: &'a [u8],
    ) -> Result<Self, RouteError>
        ensures ok { IfOk result (λ linked. LinksNames linked names.new.keys text.now) }
        ensures kept { OnOk result (KeepsNames names.old.keys names.new.keys) }
        ensures met { IfOk result (λ linked. NumbersInTurn names.old.keys (flat_map ends_of (edges_between names.new.keys linked.links.items)) names.new.keys) }
        ensures err { IfErr result (λ e. RefusesText e text.now) }
    {
        let links = read_links(alloc, names, text)?;
        let names = NameTable::of(alloc, names.as_slice())?;
        Ok(Linked { names, links })
    }

    /// The same, with the numbers of two names, which are numbered first: no name has a number yet.
    fn read_with_ends_into<'a, S: BuildHasher>(
        alloc: A,
        names: &mut Names<'a, S, A>,
        from: &'a [u8],
        to: &'a [u8],
        text: &'a [u8],
    ) -> Result<(Self, usize, usize), RouteError>
        requires none { names.old.keys ≡ [] }
        ensures ok { IfOk result (λ r. HoldsOfEdges text.now (λ edges. NumbersEdges r.0 r.1 r.2 edges from.now to.now)) }
        ensures err { IfErr result (λ e. RefusesText e text.now) }
    {
        let from = number(names, from)?;
        let to = number(names, to)?;
        let linked = Self::read_into(alloc, names, text)?;
        Ok((linked, from, to))
    }
}

/// Names, the graph of their numbers, and the numbers of the two names that a command asks about.
#[derive(Drop)]
pub(crate) struct Network<A: Allocator + Copy> {
    pub(crate) names: NameTable<A>,
    pub(crate) graph: AdjacencyList<u64, A>,
    pub(crate) from: usize,
    pub(crate) to: usize,
}

impl<A: Allocator + Copy> Network<A> {
    ghost use Rattle.pf_routes.specs.Internal.Network.{IsNetworkOf};

    /// The network of the edges of a text.
    pub(crate) fn read<S: BuildHasher + Drop>(
        alloc: A,
        from: &[u8],
        to: &[u8],
        text: Vec<u8, A>,
        hash_builder: S,
    ) -> Result<Self, RouteError>
        ensures ok { IfOk result (λ network. HoldsOfEdges text.items (λ edges. IsNetworkOf network edges from.now to.now)) }
        ensures err { IfErr result (λ e. RefusesText e text.items) }
    {
        let (linked, from, to) = Linked::read_with_ends(
            alloc,
            from,
            to,
            text.as_slice(),
            hash_builder,
        )?;
        // The text is given back before the graph takes its memory.
        drop(text);
        let Linked { names, links } = linked;
        let graph = AdjacencyList::from_sound_edges(alloc, names.len(), links.as_slice())?;
        Ok(Network {
            names,
            graph,
            from,
            to,
        })
    }
}
