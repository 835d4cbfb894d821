use super::{MapText, SetText, TypeText};
use av_affine::{Seq, Text};

/// What stands in `dense<..>`.
#[derive(Debug, Drop, PartialEq)]
pub enum Element {
    Number(i128),
    Bool(bool),
    List(Seq<Element>),
}

/// An attribute as it is written.
#[cycle(attributes)]
#[derive(Debug, Drop, PartialEq)]
pub enum Attr {
    /// A number and its type; `i64` where none is written.
    Number { value: i128, ty: TypeText },
    Bool(bool),
    /// The bytes between the quotes.
    Quoted(Text),
    /// `@name`, with the `@`.
    Symbol(Text),
    Type(TypeText),
    Map(MapText),
    Set(SetText),
    /// `#name`, with the `#`.
    AliasUse(Text),
    /// `#name<word, ..>`, the name with the `#`.
    Hash { name: Text, words: Seq<Text> },
    List(Seq<Attr>),
    Dictionary(Seq<Named>),
    /// `array<T: n, ..>`.
    Array { elem: TypeText, numbers: Seq<i128> },
    /// `dense<..> : T`.
    Dense { elements: Element, ty: TypeText },
    /// A name without a value.
    Unit,
}

/// An entry of a dictionary.
#[cycle(attributes)]
#[derive(Debug, Drop, PartialEq)]
pub struct Named {
    pub name: Text,
    pub value: Attr,
}

/// `#name = MAP` or `#name = SET` at the top of a file; the name with the `#`.
#[derive(Debug, Drop, PartialEq)]
pub struct Alias {
    pub name: Text,
    pub value: Attr,
}
