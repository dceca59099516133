//! Graphs in tables, over nodes that are numbers, and searches over them.

pub use pf_adjacency::{AdjacencyError, AdjacencyList, BothWays, NumberedEdge};
pub use pf_boards::{Board, Steps};
pub use pf_edge_lists::{EdgeList, EdgeListError};
pub use pf_table_both_ends::{bfs_bidirectional, dijkstra_bidirectional};
pub use pf_table_breadth::bfs;
pub use pf_table_estimates::{
    AstarSolution, BoardEstimates, EstimateError, EstimatedGraph, Estimates, astar, astar_bag,
    astar_bag_collect, fringe, idastar,
};
pub use pf_table_orders::{
    strongly_connected_component, strongly_connected_components, topological_sort,
    topological_sort_into_groups,
};
pub use pf_table_paths::{YenPaths, yen, yen_paths};
pub use pf_table_searches::{
    BfsReachable, DfsReachable, DijkstraReachable, bfs_loop, bfs_reach, dfs, dfs_reach,
    dijkstra_all, dijkstra_partial, dijkstra_reach, iddfs,
};
pub use pf_tables::{CompactRows, Costless, Goals, Graph, Row, Rows, TableError, dijkstra};
