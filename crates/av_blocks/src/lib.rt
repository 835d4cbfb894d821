//! What the rows of files, functions, regions and the generic form make.
#![tactic(auto)]

mod files;
mod generic;
mod regions;

pub use files::{reduce_file, reduce_function};
pub use generic::reduce_generic;
pub use regions::reduce_region;
