//! Linear forms spelled as expressions.
ghost use Rattle.std.specs.Prelude.{◌≡◌, None, IfOk};
ghost use Rattle.av_affine.specs.Forms.{linear_form};
ghost use Rattle.av_affine.specs.Limits.{Admissible};
ghost use Rattle.av_affine.specs.declared.expression.Expr.TheVariants.{Const};
ghost use Rattle.av_affine.specs.Spelling.{division, plus, plus_constant, plus_opaques, plus_terms, spelled, spelled_opaque, times};

use crate::linear::{DivKind, Linear, Opaque, Term};
use crate::making::linear_of;
use crate::{Expr, Held};
use std::alloc::{AllocError, Global};

/// The expression that spells the linear form of an expression: the terms, then the opaque terms, then the constant,
/// added from the left.
///
/// A product has its factor on the right. A factor of 1 and a constant of 0 are left out, the inside of an opaque term is
/// spelled in the same way, and 0 stands where nothing is left.
///
/// # Errors
///
/// Want of memory.
pub fn simplify(alloc: Global, e: &Expr) -> Result<Expr, AllocError>
    requires { Admissible e.now }
    ensures { IfOk result (λ s. s ≡ spelled (linear_form e.now)) }
{
    let form = linear_of(alloc, e)?;
    spell(alloc, &form)
}

fn constant(alloc: Global, value: i128) -> Result<Held<Expr>, AllocError>
    ensures { IfOk result (λ c. c ≡ Const value) }
{
    Held::new(alloc, Expr::Const(value))
}

// A product with its factor on the right, where that isn't 1.
fn with_factor(alloc: Global, e: Expr, factor: i128) -> Result<Expr, AllocError>
    ensures { IfOk result (λ p. p ≡ times e factor) }
{
    if factor == 1 {
        return Ok(e);
    }
    let left = Held::new(alloc, e)?;
    let right = constant(alloc, factor)?;
    Ok(Expr::Mul(left, right))
}

fn with_summand(alloc: Global, sum: Option<Expr>, e: Expr) -> Result<Option<Expr>, AllocError>
    ensures { IfOk result (λ s. s ≡ plus sum e) }
{
    match sum {
        None => Ok(Some(e)),
        Some(left) => {
            let left = Held::new(alloc, left)?;
            let right = Held::new(alloc, e)?;
            Ok(Some(Expr::Add(left, right)))
        }
    }
}

fn with_constant(alloc: Global, sum: Option<Expr>, value: i128) -> Result<Expr, AllocError>
    ensures { IfOk result (λ s. s ≡ plus_constant sum value) }
{
    match sum {
        None => Ok(Expr::Const(value)),
        Some(left) => {
            if value == 0 {
                return Ok(left);
            }
            let left = Held::new(alloc, left)?;
            let right = constant(alloc, value)?;
            Ok(Expr::Add(left, right))
        }
    }
}

fn division_of(kind: DivKind, a: Held<Expr>, b: Held<Expr>) -> Expr
    ensures { result ≡ division kind a b }
{
    match kind {
        DivKind::Mod => Expr::Mod(a, b),
        DivKind::Floor => Expr::Floor(a, b),
        DivKind::Ceil => Expr::Ceil(a, b),
    }
}

fn spell_terms(alloc: Global, terms: &[Term]) -> Result<Option<Expr>, AllocError>
    ensures { IfOk result (λ s. s ≡ plus_terms None terms.now) }
{
    let mut sum = None;
    for term in terms {
        let summand = with_factor(alloc, Expr::Param(term.leaf), term.factor)?;
        sum = with_summand(alloc, sum, summand)?;
    }
    Ok(sum)
}

#[cycle(spelling)]
fn spell(alloc: Global, form: &Linear) -> Result<Expr, AllocError>
    ensures { IfOk result (λ s. s ≡ spelled form.now) }
{
    let sum = spell_terms(alloc, form.terms.as_slice())?;
    let sum = spell_opaques(alloc, sum, form.opaque.as_slice())?;
    with_constant(alloc, sum, form.constant)
}

#[cycle(spelling)]
fn spell_opaques(
    alloc: Global,
    before: Option<Expr>,
    opaques: &[Opaque],
) -> Result<Option<Expr>, AllocError>
    ensures { IfOk result (λ s. s ≡ plus_opaques before opaques.now) }
{
    let mut sum = before;
    for opaque in opaques {
        let summand = spell_opaque(alloc, opaque)?;
        sum = with_summand(alloc, sum, summand)?;
    }
    Ok(sum)
}

#[cycle(spelling)]
fn spell_opaque(alloc: Global, opaque: &Opaque) -> Result<Expr, AllocError>
    ensures { IfOk result (λ s. s ≡ spelled_opaque opaque.now) }
{
    let inner = spell(alloc, &opaque.inner)?;
    let inner = Held::new(alloc, inner)?;
    let by = constant(alloc, opaque.by)?;
    with_factor(alloc, division_of(opaque.kind, inner, by), opaque.factor)
}
