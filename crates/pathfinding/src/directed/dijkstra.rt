//! Cheapest paths (Dijkstra 1959).

pub use pf_both_ends::dijkstra_bidirectional;
pub use pf_search::directed::dijkstra::{
    DijkstraReachable, DijkstraReachableItem, Parents, build_path, dijkstra, dijkstra_all,
    dijkstra_partial, dijkstra_reach, dijkstra_tallied,
};
