//! Maps and sets of a tree: with numbers in place of names, what is asked of them, and their normal form at the operands of an operation.
#![tactic(auto)]

mod asked;
pub mod laws;
mod names;
mod normal;
mod roles;
mod written;

pub use asked::{has_few_results, has_few_rows, is_affine_map, is_affine_set, set_takes, takes};
pub use names::{map_in, set_in};
pub use normal::{MapUse, normal_use};
pub use roles::{Role, applied_role, are_in_place, may_be_dimension, may_be_symbol};
pub use written::{map_of, set_of};
