//! The typed module: its functions, values, operations and types, and the arguments and ends of runs.
//!
//! A value of type `Module` is always well formed: its operands are visible, its types agree, its maps
//! are normalised, and its numbers follow the text.
#![tactic(auto)]

mod binding;
mod finding;
mod fitting;
pub mod laws;
mod marking;
mod module;
mod places;
mod run;
mod ty;
pub mod types;

pub use binding::{Bound, bind, ended};
pub use finding::func_of;
pub use fitting::{fits, is_value, width};
pub use marking::{InnerLoop, inner_loops, marked};
pub use module::{Const, Func, Marks, Module, Op, OpKind, Region, ValueId};
pub use places::{MAX_ELEMENTS, cells, place_of};
pub use run::{Arg, Args, Buffer, RunStop, TrapKind};
pub use ty::{Elem, Extent, Ty};
