ghost use Rattle.std.specs.Prelude.{◌≡◌, IfOk};

use super::{Duplicate, Held, No, Seq, duplicate_all};
use std::alloc::{AllocError, Global};

/// A parameter of a map or set by its number, from 0.
#[derive(Clone, Copy, Debug, PartialEq, Eq, Drop)]
pub enum Leaf {
    Dim(No),
    Sym(No),
}

/// An affine expression.
#[derive(Debug, Drop, PartialEq)]
pub enum Expr {
    Param(Leaf),
    Const(i128),
    Neg(Held<Expr>),
    Add(Held<Expr>, Held<Expr>),
    Sub(Held<Expr>, Held<Expr>),
    Mul(Held<Expr>, Held<Expr>),
    /// `mod`: the remainder, from 0 to the divisor less one.
    Mod(Held<Expr>, Held<Expr>),
    /// `floordiv`: the quotient, rounded down.
    Floor(Held<Expr>, Held<Expr>),
    /// `ceildiv`: the quotient, rounded up.
    Ceil(Held<Expr>, Held<Expr>),
}

/// An affine map: its numbers of dimensions and symbols, and its results.
#[derive(Debug, Drop, PartialEq)]
pub struct AffMap {
    pub dims: No,
    pub syms: No,
    pub results: Seq<Expr>,
}

/// A row of an affine set: `left == 0` where `equal`, else `left >= 0`.
#[derive(Debug, Drop, PartialEq)]
pub struct SetRow {
    pub left: Expr,
    pub equal: bool,
}

/// An affine set: its numbers of dimensions and symbols, and its rows, which hold together.
#[derive(Debug, Drop, PartialEq)]
pub struct AffSet {
    pub dims: No,
    pub syms: No,
    pub rows: Seq<SetRow>,
}

#[cycle(copying)]
fn copy_expr(alloc: Global, e: &Expr) -> Result<Expr, AllocError>
    ensures { IfOk result (λ c. c ≡ e.now) }
{
    match e {
        Expr::Param(leaf) => Ok(Expr::Param(*leaf)),
        Expr::Const(value) => Ok(Expr::Const(*value)),
        Expr::Neg(a) => Ok(Expr::Neg(copy_held(alloc, a)?)),
        Expr::Add(a, b) => Ok(Expr::Add(copy_held(alloc, a)?, copy_held(alloc, b)?)),
        Expr::Sub(a, b) => Ok(Expr::Sub(copy_held(alloc, a)?, copy_held(alloc, b)?)),
        Expr::Mul(a, b) => Ok(Expr::Mul(copy_held(alloc, a)?, copy_held(alloc, b)?)),
        Expr::Mod(a, b) => Ok(Expr::Mod(copy_held(alloc, a)?, copy_held(alloc, b)?)),
        Expr::Floor(a, b) => Ok(Expr::Floor(copy_held(alloc, a)?, copy_held(alloc, b)?)),
        Expr::Ceil(a, b) => Ok(Expr::Ceil(copy_held(alloc, a)?, copy_held(alloc, b)?)),
    }
}

#[cycle(copying)]
fn copy_held(alloc: Global, e: &Held<Expr>) -> Result<Held<Expr>, AllocError>
    ensures { IfOk result (λ c. c ≡ e.now) }
{
    Held::new(alloc, copy_expr(alloc, e.get())?)
}

impl Duplicate for Expr {
    fn duplicate(&self, alloc: Global) -> Result<Expr, AllocError> {
        copy_expr(alloc, self)
    }
}

impl Duplicate for SetRow {
    fn duplicate(&self, alloc: Global) -> Result<SetRow, AllocError> {
        Ok(SetRow {
            left: copy_expr(alloc, &self.left)?,
            equal: self.equal,
        })
    }
}

impl Duplicate for AffMap {
    fn duplicate(&self, alloc: Global) -> Result<AffMap, AllocError> {
        Ok(AffMap {
            dims: self.dims,
            syms: self.syms,
            results: duplicate_all(alloc, self.results.as_slice())?,
        })
    }
}

impl Duplicate for AffSet {
    fn duplicate(&self, alloc: Global) -> Result<AffSet, AllocError> {
        Ok(AffSet {
            dims: self.dims,
            syms: self.syms,
            rows: duplicate_all(alloc, self.rows.as_slice())?,
        })
    }
}
