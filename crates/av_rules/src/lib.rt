//! What is asked of a tree before it is a module, as definitions alone: each operation in its place, with
//! what is visible there, and for each code whether the operation breaks it.
//!
//! Nothing here runs. av_verify finds the least pair of an operation and a code that fails.
#![tactic(auto)]

mod laws;
mod mode;

pub use laws::{
    all_sites, buffer_operations, every_row, least_pairs, loop_operations, region_operations,
    scalar_operations, some_edges, some_operations, some_trees, vector_operations, views_agree,
};
pub use mode::Mode;
