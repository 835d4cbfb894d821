//! What the rows of operations make, and the rows of the parts that only they have.
#![tactic(auto)]

mod affine;
mod arith;
mod gifts;
mod operation;

pub use affine::reduce_affine;
pub use arith::reduce_arith;
pub use operation::reduce_operation;
