//! Expressions, maps and sets with numbers in place of names.

ghost use Rattle.std.specs.Prelude.{◌≡◌, IfOk, map};
ghost use Rattle.av_maps.specs.Written.{expr_of, map_of, row_of, set_of};

use super::names::leaf_of;
use av_affine::{AffMap, AffSet, Expr, Held, No, Seq, SetRow, Text};
use av_tree::{ExprText, MapText, RowText, SetText};
use std::alloc::{AllocError, Global};

/// A written map with numbers in place of names.
///
/// # Errors
///
/// Want of memory.
pub fn map_of(alloc: Global, text: &MapText) -> Result<AffMap, AllocError>
    ensures { IfOk result (λ m. m ≡ map_of text.now) }
{
    let (dims, syms) = (text.dims.as_slice(), text.syms.as_slice());
    let mut results = Seq::new(alloc);
    for expr in text.results.as_slice() {
        results.push(expr_of(alloc, dims, syms, expr)?)?;
    }
    Ok(AffMap {
        dims: dims.len() as No,
        syms: syms.len() as No,
        results,
    })
}

/// A written set with numbers in place of names.
///
/// # Errors
///
/// Want of memory.
pub fn set_of(alloc: Global, text: &SetText) -> Result<AffSet, AllocError>
    ensures { IfOk result (λ s. s ≡ set_of text.now) }
{
    let (dims, syms) = (text.dims.as_slice(), text.syms.as_slice());
    let mut rows = Seq::new(alloc);
    for row in text.rows.as_slice() {
        rows.push(row_of(alloc, dims, syms, row)?)?;
    }
    Ok(AffSet {
        dims: dims.len() as No,
        syms: syms.len() as No,
        rows,
    })
}

fn row_of(alloc: Global, dims: &[Text], syms: &[Text], row: &RowText) -> Result<SetRow, AllocError>
    ensures { IfOk result (λ r. r ≡ row_of dims.now syms.now row.now) }
{
    Ok(SetRow {
        left: expr_of(alloc, dims, syms, &row.left)?,
        equal: row.equal,
    })
}

// The expression over the dimensions and symbols of these names.
#[cycle(numbering)]
#[tactic(auto, using(crate::proofs::TextVariants::numbered))]
fn expr_of(alloc: Global, dims: &[Text], syms: &[Text], expr: &ExprText) -> Result<Expr, AllocError>
    ensures { IfOk result (λ e. e ≡ expr_of dims.now syms.now expr.now) }
{
    match expr {
        ExprText::Name(name) => Ok(Expr::Param(leaf_of(dims, syms, name.as_slice()))),
        ExprText::Const(value) => Ok(Expr::Const(*value)),
        ExprText::Neg(a) => Ok(Expr::Neg(part(alloc, dims, syms, a)?)),
        ExprText::Add(a, b) => {
            let (a, b) = (part(alloc, dims, syms, a)?, part(alloc, dims, syms, b)?);
            Ok(Expr::Add(a, b))
        }
        ExprText::Sub(a, b) => {
            let (a, b) = (part(alloc, dims, syms, a)?, part(alloc, dims, syms, b)?);
            Ok(Expr::Sub(a, b))
        }
        ExprText::Mul(a, b) => {
            let (a, b) = (part(alloc, dims, syms, a)?, part(alloc, dims, syms, b)?);
            Ok(Expr::Mul(a, b))
        }
        ExprText::Mod(a, b) => {
            let (a, b) = (part(alloc, dims, syms, a)?, part(alloc, dims, syms, b)?);
            Ok(Expr::Mod(a, b))
        }
        ExprText::Floor(a, b) => {
            let (a, b) = (part(alloc, dims, syms, a)?, part(alloc, dims, syms, b)?);
            Ok(Expr::Floor(a, b))
        }
        ExprText::Ceil(a, b) => {
            let (a, b) = (part(alloc, dims, syms, a)?, part(alloc, dims, syms, b)?);
            Ok(Expr::Ceil(a, b))
        }
    }
}

#[cycle(numbering)]
fn part(
    alloc: Global,
    dims: &[Text],
    syms: &[Text],
    expr: &Held<ExprText>,
) -> Result<Held<Expr>, AllocError>
    ensures { IfOk result (λ e. e ≡ expr_of dims.now syms.now expr.now) }
{
    let expr = expr_of(alloc, dims, syms, expr.get())?;
    Held::new(alloc, expr)
}
