//! Maps and sets, their parameters by name: `d0`, .. and `s0`, ...

ghost use Rattle.std.specs.Prelude.{◌≡◌, IfOk, map};
ghost use Rattle.av_totree.specs.Maps.{expression_of, leaf_name as name_of_leaf, map_of, names_of, row_of, set_of};
ghost use Rattle.av_totree.specs.Texts.{numbered as numbered_text};

use crate::texts::numbered;
use av_affine::{AffMap, AffSet, Expr, Held, Leaf, No, Seq, SetRow, Text};
use av_tree::{ExprText, MapText, RowText, SetText};
use std::alloc::{AllocError, Global};

/// A map, its parameters by name.
pub(crate) fn map_text(alloc: Global, map: &AffMap) -> Result<MapText, AllocError>
    ensures { IfOk result (λ t. t ≡ map_of map.now) }
{
    Ok(MapText {
        dims: parameter_names(alloc, "d", map.dims)?,
        syms: parameter_names(alloc, "s", map.syms)?,
        results: expression_texts(alloc, map.results.as_slice())?,
    })
}

/// A set, its parameters by name.
pub(crate) fn set_text(alloc: Global, set: &AffSet) -> Result<SetText, AllocError>
    ensures { IfOk result (λ t. t ≡ set_of set.now) }
{
    Ok(SetText {
        dims: parameter_names(alloc, "d", set.dims)?,
        syms: parameter_names(alloc, "s", set.syms)?,
        rows: row_texts(alloc, set.rows.as_slice())?,
    })
}

fn row_texts(alloc: Global, rows: &[SetRow]) -> Result<Seq<RowText>, AllocError>
    ensures { IfOk result (λ t. t ≡ map row_of rows.now) }
{
    let mut texts = Seq::new(alloc);
    for row in rows {
        texts.push(row_text(alloc, row)?)?;
    }
    Ok(texts)
}

fn row_text(alloc: Global, row: &SetRow) -> Result<RowText, AllocError>
    ensures { IfOk result (λ t. t ≡ row_of row.now) }
{
    Ok(RowText {
        left: expression_text(alloc, &row.left)?,
        equal: row.equal,
    })
}

fn expression_texts(alloc: Global, exprs: &[Expr]) -> Result<Seq<ExprText>, AllocError>
    ensures { IfOk result (λ t. t ≡ map expression_of exprs.now) }
{
    let mut texts = Seq::new(alloc);
    for expr in exprs {
        texts.push(expression_text(alloc, expr)?)?;
    }
    Ok(texts)
}

fn parameter_names(alloc: Global, letter: &str, count: No) -> Result<Seq<Text>, AllocError>
    ensures { IfOk result (λ t. t ≡ names_of (numbered_text letter.now) count) }
{
    let mut names = Seq::new(alloc);
    for number in 0..count {
        names.push(numbered(alloc, letter, number)?)?;
    }
    Ok(names)
}

#[cycle(spelling)]
fn expression_text(alloc: Global, expr: &Expr) -> Result<ExprText, AllocError>
    ensures { IfOk result (λ t. t ≡ expression_of expr.now) }
{
    match expr {
        Expr::Param(leaf) => Ok(ExprText::Name(leaf_name(alloc, *leaf)?)),
        Expr::Const(value) => Ok(ExprText::Const(*value)),
        Expr::Neg(a) => Ok(ExprText::Neg(side(alloc, a)?)),
        Expr::Add(a, b) => Ok(ExprText::Add(side(alloc, a)?, side(alloc, b)?)),
        Expr::Sub(a, b) => Ok(ExprText::Sub(side(alloc, a)?, side(alloc, b)?)),
        Expr::Mul(a, b) => Ok(ExprText::Mul(side(alloc, a)?, side(alloc, b)?)),
        Expr::Mod(a, b) => Ok(ExprText::Mod(side(alloc, a)?, side(alloc, b)?)),
        Expr::Floor(a, b) => Ok(ExprText::Floor(side(alloc, a)?, side(alloc, b)?)),
        Expr::Ceil(a, b) => Ok(ExprText::Ceil(side(alloc, a)?, side(alloc, b)?)),
    }
}

#[cycle(spelling)]
fn side(alloc: Global, expr: &Held<Expr>) -> Result<Held<ExprText>, AllocError>
    ensures { IfOk result (λ t. t ≡ expression_of expr.now) }
{
    Held::new(alloc, expression_text(alloc, expr.get())?)
}

fn leaf_name(alloc: Global, leaf: Leaf) -> Result<Text, AllocError>
    ensures { IfOk result (λ t. t ≡ name_of_leaf leaf) }
{
    match leaf {
        Leaf::Dim(number) => numbered(alloc, "d", number),
        Leaf::Sym(number) => numbered(alloc, "s", number),
    }
}
