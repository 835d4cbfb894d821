//! What is asked of each operation of the dialects, as one table: a row for each operation, with the
//! numbers of av_dialects. It says how many operands an operation has, where its results' types come
//! from, its properties, what its types and values have to be, its regions and its mark.
//!
//! The rows know neither trees nor modules; definitions read them too.
#![tactic(auto)]

mod laws;
mod rows;
mod signature;
mod table;

pub use laws::{keys_are_properties, places_exist, properties_differ, rows_agree};
pub use rows::{DROPPED, DROPPED_OF_FUNCTIONS, Row, SIGNATURES};
pub use signature::{
    Amount, Arguments, Class, Count, Demand, Ending, Form, Mark, Pair, Place, Property, Role,
    Segment, Signature, Source, Uses,
};
pub use table::signature_of;
