//! The values of rows and tokens. They are public for what is said of reading, and no function gives one.

use av_affine::{Held, Seq, Text};
use av_tree::{
    Alias, Attr, Body, BodyArg, DimText, Element, ExprText, LayoutText, Named, Node, RowText,
    SizeText, Tree, TypeText,
};

/// A value on the stack. Lists hold their last item first. What isn't a list is held on the heap, so that
/// a value is small.
#[derive(Drop)]
pub enum Value {
    Text(Text),
    Texts(Seq<Text>),
    Parameters(Held<Parameters>),
    Number(i128),
    Type(Held<TypeText>),
    Types(Seq<TypeText>),
    Sizes(Seq<SizeText>),
    Layout(Held<Option<LayoutText>>),
    Constant(Held<Constant>),
    Attr(Held<Attr>),
    Entry(Held<Named>),
    Entries(Seq<Named>),
    MapUse(Held<MapUse>),
    Carried(Held<Carried>),
    Expression(Held<Expression>),
    Expressions(Seq<Expression>),
    Parts(Seq<Part>),
    Node(Held<Node>),
    Nodes(Seq<Node>),
    Onward(Held<Onward>),
    Terminated(Held<Terminated>),
    Tree(Held<Tree>),
    Arg(Held<BodyArg>),
    Args(Seq<BodyArg>),
    TypedValues(Held<TypedValues>),
    Aliases(Seq<Alias>),
    Generic(Held<GenericParts>),
    Body(Held<Body>),
    Bodies(Seq<Body>),
    Attrs(Seq<Attr>),
    Words(Held<Option<Seq<Text>>>),
    Numbers(Seq<i128>),
    Element(Held<Element>),
    Elements(Seq<Element>),
    Dense(Held<Dense>),
    Dims(Seq<DimText>),
    Size(SizeText),
    Row(Held<RowText>),
    Rows(Seq<RowText>),
    Equal(bool),
    Selected(Held<Selected>),
    OptionalType(Held<Option<TypeText>>),
}

/// An operation, and the operations after it from the last to the first.
#[derive(Drop)]
pub struct Onward {
    pub node: Node,
    pub others: Seq<Node>,
}

/// What stands after the word of a terminator: its values, and the operations after it from the last
/// to the first.
#[derive(Drop)]
pub struct Terminated {
    pub values: TypedValues,
    pub nodes: Seq<Node>,
}

/// Values and their types, both from the last to the first.
#[derive(Drop)]
pub struct TypedValues {
    pub values: Seq<Text>,
    pub types: Seq<TypeText>,
}

/// The value of a constant and its type, where that is written.
#[derive(Drop)]
pub struct Constant {
    pub value: Attr,
    pub ty: Option<TypeText>,
}

/// What stands in `dense<..>`, and its type.
#[derive(Drop)]
pub struct Dense {
    pub elements: Element,
    pub ty: TypeText,
}

/// The types of a choice: that of the condition where it is written, and that of the operands.
#[derive(Drop)]
pub struct Selected {
    pub condition: Option<TypeText>,
    pub operands: TypeText,
}

/// What the generic form says of an operation besides its name, each list from the first to the last.
#[derive(Drop)]
pub struct GenericParts {
    pub operands: Seq<Text>,
    pub properties: Seq<Named>,
    pub regions: Seq<Body>,
    pub attrs: Seq<Named>,
    pub in_types: Seq<TypeText>,
    pub out_types: Seq<TypeText>,
}

/// The names of the parameters of a map, from the last to the first.
#[derive(Drop)]
pub struct Parameters {
    pub dims: Seq<Text>,
    pub syms: Seq<Text>,
}

/// Whether a value in a subscript stands as a dimension or, in `symbol(..)`, as a symbol.
#[derive(Clone, Copy)]
pub enum LeafKind {
    Dimension,
    Symbol,
}

/// An expression; of a subscript also the kinds of the values in it, from left to right.
#[derive(Drop)]
pub struct Expression {
    pub expr: ExprText,
    pub leaves: Seq<LeafKind>,
}

/// What a sign or word of an expression does with the sides around it.
#[derive(Clone, Copy)]
pub enum Operator {
    Add,
    Sub,
    Mul,
    Mod,
    Floor,
    Ceil,
}

/// The right side of a sign or word of an expression.
#[derive(Drop)]
pub struct Part {
    pub operator: Operator,
    pub right: Expression,
}

/// A map, written out, and the values of its parameters, from the first to the last.
#[derive(Drop)]
pub struct MapUse {
    pub map: Attr,
    pub operands: Seq<Text>,
}

/// A carried argument and its first value.
#[derive(Drop)]
pub struct CarriedPair {
    pub name: Text,
    pub init: Text,
}

/// Carried arguments from the last to the first, and their types from the first to the last.
#[derive(Drop)]
pub struct Carried {
    pub pairs: Seq<CarriedPair>,
    pub types: Seq<TypeText>,
}
