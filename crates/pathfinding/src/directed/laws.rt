//! Laws of the definitions, for proofs about programs that use them.

pub use pf_flow::laws::{flow_is_within_cut, stores_report_one_total};
pub use pf_informed::laws::cheapest_clean_paths_are_cheapest;
pub use pf_orders::laws::groups_joined_are_an_order;
pub use pf_search::laws::{
    breadth_order_is_by_distance, breadth_order_is_reach, cheapest_order_is_reach,
    fewest_edges_have_one_length, fewest_edges_of_cheapest, one_cheapest_cost,
    path_of_parents_is_cheapest, preorder_of_reach,
};
pub use pf_yen::laws::clean_paths_are_finitely_many;
