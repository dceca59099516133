//! Searches by name over the edge lists of `graphs`: `EdgeList` has `dijkstra` and `bfs` as methods, and these
//! are the others; and flows between names.

pub use pf_flow_networks::FlowNetwork;
pub use pf_name_both_ends::{bfs_bidirectional, dijkstra_bidirectional};
pub use pf_name_estimates::{
    AstarSolution, NameEstimateError, NameEstimates, astar, astar_bag, astar_bag_collect, fringe,
    idastar,
};
pub use pf_name_orders::{
    strongly_connected_component, strongly_connected_components, topological_sort,
    topological_sort_into_groups,
};
pub use pf_name_paths::{YenPaths, yen, yen_paths};
pub use pf_name_searches::{NameParents, bfs_loop, dfs, dijkstra_all, dijkstra_partial, iddfs};
pub use pf_name_walks::{
    BfsReachable, DfsReachable, DijkstraReachable, bfs_reach, dfs_reach, dijkstra_reach,
};
