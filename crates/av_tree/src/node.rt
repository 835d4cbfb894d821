use super::{Alias, Named, TypeText};
use av_affine::{Seq, Text};

/// An operation as it is written.
#[cycle(nodes)]
#[derive(Debug, Drop, PartialEq)]
pub struct Node {
    /// The name of the operation.
    pub name: Text,
    /// The place in the text of the first byte of its first token; 0 where it is put in.
    pub place: u32,
    /// The names before `=`, as `%r` or `%r:2`.
    pub results: Seq<Text>,
    /// The values that it uses, as `%a` or `%r#0`.
    pub operands: Seq<Text>,
    /// What stands between `<{` and `}>`, or what the named form says in its own way.
    pub properties: Seq<Named>,
    pub attrs: Seq<Named>,
    pub regions: Seq<Body>,
    /// The types of the operands, in order; None where the named form doesn't write one.
    pub in_types: Seq<Option<TypeText>>,
    /// The types of the results, likewise.
    pub out_types: Seq<Option<TypeText>>,
}

/// A region: one block with its arguments and operations.
#[cycle(nodes)]
#[derive(Debug, Drop, PartialEq)]
pub struct Body {
    pub args: Seq<BodyArg>,
    pub nodes: Seq<Node>,
}

/// An argument of a block.
#[derive(Debug, Drop, PartialEq)]
pub struct BodyArg {
    pub name: Text,
    pub ty: TypeText,
}

/// A file: its aliases, and its module, written or put in.
#[derive(Debug, Drop, PartialEq)]
pub struct Tree {
    pub aliases: Seq<Alias>,
    pub root: Node,
}
