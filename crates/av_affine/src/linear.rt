use crate::{Leaf, Seq};

/// A division of an expression.
#[derive(Clone, Copy, Debug, PartialEq, Eq, Drop)]
pub enum DivKind {
    Mod,
    Floor,
    Ceil,
}

/// A parameter with its factor.
#[derive(Clone, Copy, Debug, PartialEq, Drop)]
pub struct Term {
    pub leaf: Leaf,
    pub factor: i128,
}

/// A linear form: a sum of terms, of opaque terms and a constant.
///
/// The terms are in order of their parameters, dimensions first, and the opaque terms in order of their first occurrence;
/// no factor is zero.
#[cycle(forming)]
#[derive(Debug, Drop)]
pub struct Linear {
    pub terms: Seq<Term>,
    pub opaque: Seq<Opaque>,
    pub constant: i128,
}

/// A division that is no sum of parameters, with its factor.
#[cycle(forming)]
#[derive(Debug, Drop)]
pub struct Opaque {
    pub kind: DivKind,
    pub inner: Linear,
    pub by: i128,
    pub factor: i128,
}
