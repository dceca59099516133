//! Each public item by its path through `pathfinding` alone.

use pathfinding::matrix;
use std::marker::PhantomData;

mod paths {
    //! A path that is wrong stops the build.
    pub use pathfinding::cost::{Cost, SignedCost};
    pub use pathfinding::error::PathError;
    pub use pathfinding::kuhn_munkres::{
        Weights, kuhn_munkres, kuhn_munkres_min, kuhn_munkres_tallied, weights_fit,
    };
    pub use pathfinding::matrix::directions::{
        DIRECTIONS_4, DIRECTIONS_8, E, N, NE, NW, S, SE, SW, W,
    };
    pub use pathfinding::matrix::laws::{
        equal_copies, equal_hash_alike, four_quarter_turns, turns_undone, two_flips_lr,
        two_flips_ud, two_transpositions,
    };
    pub use pathfinding::matrix::{
        ColumnIterator, Items, ItemsMut, Keys, Matrix, MatrixFormatError, Neighbours, RowIterator,
        from_slices,
    };
    pub use pathfinding::noderefs::{NodeRefs, NodeRefsIntoIter, NodeRefsIter};
    pub use pathfinding::routes::{Command, Noted, RouteError, command, run, run_with_hasher};
    pub use pathfinding::undirected::connected_components::{
        ConnectedComponents, MapIn, SetIn, component_index, components, connected_components,
        separate_components,
    };
    pub use pathfinding::undirected::kruskal::{
        Kruskal, KruskalIndices, kruskal, kruskal_indices, spanning_weight,
    };
    pub use pathfinding::undirected::laws::{least_total_weight, least_tree_weight};
    pub use pathfinding::undirected::prim::prim;
    pub use pathfinding::utils::{
        InDirection, Tally, constrain, in_direction, move_in_direction, uint_sqrt,
    };
}

mod directed_paths {
    //! The same of what is directed.
    pub use pathfinding::directed::astar::{AstarSolution, astar, astar_bag, astar_bag_collect};
    pub use pathfinding::directed::bfs::{
        BfsReachable, bfs, bfs_bidirectional, bfs_loop, bfs_reach,
    };
    pub use pathfinding::directed::cycle_detection::{brent, brent_partial, floyd, floyd_partial};
    pub use pathfinding::directed::dfs::{DfsReachable, dfs, dfs_reach};
    pub use pathfinding::directed::dijkstra::{
        DijkstraReachable, DijkstraReachableItem, Parents, build_path, dijkstra, dijkstra_all,
        dijkstra_bidirectional, dijkstra_partial, dijkstra_reach, dijkstra_tallied,
    };
    pub use pathfinding::directed::edmonds_karp::{
        DenseCapacity, EKFlows, Edge, EdmondsKarp, FlowStore, SparseCapacity, edmonds_karp,
        edmonds_karp_dense, edmonds_karp_sparse,
    };
    pub use pathfinding::directed::fringe::fringe;
    pub use pathfinding::directed::idastar::idastar;
    pub use pathfinding::directed::iddfs::iddfs;
    pub use pathfinding::directed::laws::{
        breadth_order_is_by_distance, breadth_order_is_reach, cheapest_clean_paths_are_cheapest,
        fewest_edges_have_one_length, fewest_edges_of_cheapest, groups_joined_are_an_order,
        one_cheapest_cost, path_of_parents_is_cheapest, preorder_of_reach,
    };
    pub use pathfinding::directed::strongly_connected_components::{
        strongly_connected_component, strongly_connected_components,
        strongly_connected_components_from,
    };
    pub use pathfinding::directed::topological_sort::{
        topological_sort, topological_sort_into_groups, topological_sort_tallied,
    };
    pub use pathfinding::directed::yen::{YenPaths, yen, yen_paths};
    pub use pathfinding::functions::{EdgeFunction, EstimateFunction, NodeTest, SuccessorFunction};
}

mod over_tables {
    //! The same of grids and of graphs in tables.
    pub use pathfinding::graphs::{
        BfsReachable, Board, CompactRows, Costless, DfsReachable, DijkstraReachable, EdgeList,
        EdgeListError, Goals, Graph, Row, Rows, Steps, TableError, YenPaths, bfs, bfs_loop,
        bfs_reach, dfs, dfs_reach, dijkstra, dijkstra_all, dijkstra_partial, dijkstra_reach, iddfs,
        strongly_connected_component, strongly_connected_components, topological_sort,
        topological_sort_into_groups, yen, yen_paths,
    };
    pub use pathfinding::grid::{
        Coordinate, EdgesIterator, Grid, GridError, GridIntoIterator, GridIterator,
    };
}

mod in_prelude {
    //! The same by the prelude.
    pub use pathfinding::prelude::AstarSolution;
    pub use pathfinding::prelude::BfsReachable;
    pub use pathfinding::prelude::ColumnIterator;
    pub use pathfinding::prelude::ConnectedComponents;
    pub use pathfinding::prelude::Cost;
    pub use pathfinding::prelude::DfsReachable;
    pub use pathfinding::prelude::DijkstraReachable;
    pub use pathfinding::prelude::DijkstraReachableItem;
    pub use pathfinding::prelude::EdgeFunction;
    pub use pathfinding::prelude::EdgesIterator;
    pub use pathfinding::prelude::EstimateFunction;
    pub use pathfinding::prelude::Grid;
    pub use pathfinding::prelude::GridError;
    pub use pathfinding::prelude::GridIntoIterator;
    pub use pathfinding::prelude::GridIterator;
    pub use pathfinding::prelude::InDirection;
    pub use pathfinding::prelude::Items;
    pub use pathfinding::prelude::ItemsMut;
    pub use pathfinding::prelude::Keys;
    pub use pathfinding::prelude::Kruskal;
    pub use pathfinding::prelude::KruskalIndices;
    pub use pathfinding::prelude::MapIn;
    pub use pathfinding::prelude::Matrix;
    pub use pathfinding::prelude::MatrixFormatError;
    pub use pathfinding::prelude::Neighbours;
    pub use pathfinding::prelude::NodeRefs;
    pub use pathfinding::prelude::NodeRefsIntoIter;
    pub use pathfinding::prelude::NodeRefsIter;
    pub use pathfinding::prelude::NodeTest;
    pub use pathfinding::prelude::Parents;
    pub use pathfinding::prelude::PathError;
    pub use pathfinding::prelude::RowIterator;
    pub use pathfinding::prelude::SetIn;
    pub use pathfinding::prelude::SignedCost;
    pub use pathfinding::prelude::SuccessorFunction;
    pub use pathfinding::prelude::Tally;
    pub use pathfinding::prelude::Weights;
    pub use pathfinding::prelude::astar;
    pub use pathfinding::prelude::astar_bag;
    pub use pathfinding::prelude::astar_bag_collect;
    pub use pathfinding::prelude::bfs;
    pub use pathfinding::prelude::bfs_bidirectional;
    pub use pathfinding::prelude::bfs_loop;
    pub use pathfinding::prelude::bfs_reach;
    pub use pathfinding::prelude::breadth_order_is_by_distance;
    pub use pathfinding::prelude::breadth_order_is_reach;
    pub use pathfinding::prelude::brent;
    pub use pathfinding::prelude::brent_partial;
    pub use pathfinding::prelude::build_path;
    pub use pathfinding::prelude::cheapest_clean_paths_are_cheapest;
    pub use pathfinding::prelude::component_index;
    pub use pathfinding::prelude::components;
    pub use pathfinding::prelude::connected_components;
    pub use pathfinding::prelude::constrain;
    pub use pathfinding::prelude::dfs;
    pub use pathfinding::prelude::dfs_reach;
    pub use pathfinding::prelude::dijkstra;
    pub use pathfinding::prelude::dijkstra_all;
    pub use pathfinding::prelude::dijkstra_bidirectional;
    pub use pathfinding::prelude::dijkstra_partial;
    pub use pathfinding::prelude::dijkstra_reach;
    pub use pathfinding::prelude::dijkstra_tallied;
    pub use pathfinding::prelude::directions::DIRECTIONS_4;
    pub use pathfinding::prelude::directions::DIRECTIONS_8;
    pub use pathfinding::prelude::equal_copies;
    pub use pathfinding::prelude::equal_hash_alike;
    pub use pathfinding::prelude::fewest_edges_have_one_length;
    pub use pathfinding::prelude::fewest_edges_of_cheapest;
    pub use pathfinding::prelude::floyd;
    pub use pathfinding::prelude::floyd_partial;
    pub use pathfinding::prelude::four_quarter_turns;
    pub use pathfinding::prelude::fringe;
    pub use pathfinding::prelude::from_slices;
    pub use pathfinding::prelude::groups_joined_are_an_order;
    pub use pathfinding::prelude::idastar;
    pub use pathfinding::prelude::iddfs;
    pub use pathfinding::prelude::in_direction;
    pub use pathfinding::prelude::kruskal;
    pub use pathfinding::prelude::kruskal_indices;
    pub use pathfinding::prelude::kuhn_munkres;
    pub use pathfinding::prelude::kuhn_munkres_min;
    pub use pathfinding::prelude::kuhn_munkres_tallied;
    pub use pathfinding::prelude::least_total_weight;
    pub use pathfinding::prelude::least_tree_weight;
    pub use pathfinding::prelude::move_in_direction;
    pub use pathfinding::prelude::one_cheapest_cost;
    pub use pathfinding::prelude::path_of_parents_is_cheapest;
    pub use pathfinding::prelude::preorder_of_reach;
    pub use pathfinding::prelude::prim;
    pub use pathfinding::prelude::routes::Command;
    pub use pathfinding::prelude::routes::Noted;
    pub use pathfinding::prelude::routes::RouteError;
    pub use pathfinding::prelude::routes::command;
    pub use pathfinding::prelude::routes::run;
    pub use pathfinding::prelude::routes::run_with_hasher;
    pub use pathfinding::prelude::separate_components;
    pub use pathfinding::prelude::spanning_weight;
    pub use pathfinding::prelude::strongly_connected_component;
    pub use pathfinding::prelude::strongly_connected_components;
    pub use pathfinding::prelude::strongly_connected_components_from;
    pub use pathfinding::prelude::topological_sort;
    pub use pathfinding::prelude::topological_sort_into_groups;
    pub use pathfinding::prelude::topological_sort_tallied;
    pub use pathfinding::prelude::turns_undone;
    pub use pathfinding::prelude::two_flips_lr;
    pub use pathfinding::prelude::two_flips_ud;
    pub use pathfinding::prelude::two_transpositions;
    pub use pathfinding::prelude::uint_sqrt;
    pub use pathfinding::prelude::weights_fit;
}

#[test]
fn a_matrix_and_laws_by_their_paths(rt: HostRuntime) {
    let m: paths::Matrix<u8> = matrix![in rt.alloc(); [1, 2], [3, 4]].expect(&rt, "memory");
    let same = in_prelude::from_slices(rt.alloc(), &[&[1u8, 2], &[3, 4]]).expect(&rt, "memory");
    assert!(rt; m == same);
    directed_paths::fewest_edges_of_cheapest(PhantomData::<u8>);
    in_prelude::least_total_weight(PhantomData::<(u8, u64)>);
    paths::least_tree_weight(PhantomData::<(u8, u64)>);
    in_prelude::four_quarter_turns(PhantomData::<u8>);
}
