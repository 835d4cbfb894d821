//! Types as they are written, the types of values that they are, and how those of an operation are related.
#![tactic(auto)]

pub mod laws;
mod relations;
mod texts;
mod types;

pub use relations::{
    element_of, is_elem, is_extent, is_index, is_memref, is_scalar, is_truth, is_vector, part_of,
    rank_of, same_elements, same_sizes, same_type, stretches_to, with_elements,
};
pub use texts::{elem_of, is_trailing, is_type, is_vector_text, is_within_limits};
pub use types::type_of;
