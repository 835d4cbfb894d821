//! The tree of a text: its operations by the names, values, properties, regions and types that are
//! written, before any of them is looked up or checked.
#![tactic(auto)]

mod attribute;
mod class;
mod named_forms;
mod node;
pub mod table;
pub mod types;
mod written;

pub use attribute::{Alias, Attr, Element, Named};
pub use class::{Bracket, Class, Keyword, bracket_of, class_number, operation_in};
pub use named_forms::template;
pub use node::{Body, BodyArg, Node, Tree};
pub use written::{DimText, ExprText, LayoutText, MapText, RowText, SetText, SizeText, TypeText};
