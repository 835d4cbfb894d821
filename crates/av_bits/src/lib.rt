//! Integers of a width as bit patterns: wrapping, signed values, the twenty binary operations,
//! comparisons, casts and reduction kinds of MLIR's `arith` and `vector` dialects.
//!
//! A pattern of a width is a `u64` below 2 to the width. Nothing here takes memory.
#![tactic(auto)]

mod casts;
mod comparisons;
mod divisions;
mod kinds;
pub mod laws;
mod operations;
mod pattern;
mod shifts;
mod types;

pub use casts::cast;
pub use comparisons::compare;
pub use kinds::{combine, neutral, op_of_kind};
pub use operations::binary;
pub use pattern::{signed, wrap};
pub use types::{BinOp, CastOp, DivideTrap, Kind9, Pred, Width};
