//! Graphs over states of one's own, told place by place, and searches over them.

pub use pf_state_estimates::{StateEstimate, astar, astar_bag, astar_bag_collect, fringe, idastar};
pub use pf_state_orders::{
    strongly_connected_component, strongly_connected_components, topological_sort,
    topological_sort_into_groups,
};
pub use pf_state_paths::{YenPaths, yen, yen_paths};
pub use pf_states::{
    Exact, Neighbours, StateGoal, StateSpace, bfs, bfs_loop, bfs_reach, dfs, dfs_reach, dijkstra,
    dijkstra_all, dijkstra_partial, dijkstra_reach, iddfs,
};
