//! What the rows of types, attributes, maps, values and subscripts make.
#![tactic(auto)]

mod attributes;
mod expressions;
mod types;

pub use attributes::{reduce_attribute, reduce_value};
pub use expressions::{reduce_map, reduce_subscript};
pub use types::reduce_type;
