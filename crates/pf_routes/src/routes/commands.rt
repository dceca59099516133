//! Commands.

/// What is asked about the edges.
#[derive(Debug, Drop)]
pub enum Command {
    /// A cheapest path from one name to another.
    Dijkstra {
        /// The name of the first node.
        from: String,
        /// The name of the last node.
        to: String,
    },
    /// A path with fewest edges from one name to another.
    Bfs {
        /// The name of the first node.
        from: String,
        /// The name of the last node.
        to: String,
    },
    /// Spanning edges of least weight.
    Kruskal,
    /// The cheapest clean paths from one name to another, as many as are asked for.
    Yen {
        /// The name of the first node.
        from: String,
        /// The name of the last node.
        to: String,
        /// How many paths are answered at most.
        count: usize,
    },
    /// All clean paths from one name to another, by rising cost.
    YenAll {
        /// The name of the first node.
        from: String,
        /// The name of the last node.
        to: String,
    },
    /// The total of a greatest flow from one name to another, and the edges of a least cut.
    Flow {
        /// The name of the first node, which the flow leaves.
        from: String,
        /// The name of the last node, which the flow reaches.
        to: String,
    },
}
