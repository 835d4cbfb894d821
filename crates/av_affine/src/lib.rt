//! Lists that contracts see as lists, and affine expressions, maps and sets over them.
//!
//! An affine expression is that of MLIR's Affine dialect: a sum of parameters with constant factors,
//! with `mod`, `floordiv` and `ceildiv` by positive constants.
#![tactic(auto)]

mod arithmetic;
mod combine;
mod duplicate;
mod expression;
mod forms;
mod held;
mod laws;
mod limits;
mod linear;
mod making;
mod rest;
mod results;
mod sameness;
mod seq;
mod spelling;
mod sums;
mod values;

pub use duplicate::{Duplicate, duplicate_all};
pub use expression::{AffMap, AffSet, Expr, Leaf, SetRow};
pub use held::Held;
pub use laws::{
    ceil_rounds_up, floor_rounds_down, form_is_bounded, form_keeps_value, remainder_completes,
    spelling_keeps_value,
};
pub use limits::is_admissible;
pub use linear::{DivKind, Linear, Opaque, Term};
pub use making::linear_of;
pub use results::{IndexRange, eval, holds};
pub use seq::{Seq, set_in};
pub use spelling::simplify;

/// A number or place of an operation, loop, function, value, leaf, argument or block, or a count of
/// parameters or rows.
pub type No = u64;

/// A text: its bytes in order.
pub type Text = Seq<u8>;
