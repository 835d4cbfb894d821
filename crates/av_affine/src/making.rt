ghost use Rattle.std.specs.Prelude.{◌≡◌, negsuc, IfOk};
ghost use Rattle.av_affine.specs.Forms.{divided, linear_form, parts_of, scaled};
ghost use Rattle.av_affine.specs.Limits.{Admissible, IsAffine, IsDivisor, IsWithin};
ghost use Rattle.av_affine.specs.declared.expression.Expr.TheVariants.{Param};
ghost use Rattle.av_affine.specs.declared.linear.Linear.{roll-Linear};

use crate::forms::{constant_form, divided, joined, product_form, scaled};
use crate::linear::{DivKind, Linear, Term};
use crate::values::value_at;
use crate::{Expr, Held, Leaf, Seq};
use std::alloc::{AllocError, Global};

/// The linear form of an expression, made part by part.
///
/// Terms are in order of their parameters, dimensions first. Opaque terms are in order of their first occurrence, and
/// equal ones are added at the first place. Factors of zero are dropped, and a division of a constant is a constant.
///
/// # Errors
///
/// Want of memory.
pub fn linear_of(alloc: Global, e: &Expr) -> Result<Linear, AllocError>
    requires { Admissible e.now }
    ensures { IfOk result (λ l. l ≡ linear_form e.now) }
{
    form_of(alloc, e)
}

fn parameter_form(alloc: Global, leaf: Leaf) -> Result<Linear, AllocError>
    ensures { IfOk result (λ l. l ≡ linear_form (Param leaf)) }
{
    let mut terms = Seq::new(alloc);
    terms.push(Term { leaf, factor: 1 })?;
    Ok(Linear {
        terms,
        opaque: Seq::new(alloc),
        constant: 0,
    })
}

#[cycle(making)]
fn form_of(alloc: Global, e: &Expr) -> Result<Linear, AllocError>
    requires affine { IsAffine e.now }
    requires within { IsWithin e.now }
    ensures { IfOk result (λ l. l ≡ linear_form e.now) }
{
    match e {
        Expr::Param(leaf) => parameter_form(alloc, *leaf),
        Expr::Const(value) => Ok(constant_form(alloc, *value)),
        Expr::Neg(a) => negated(alloc, a),
        Expr::Add(a, b) => {
            let left = held_form(alloc, a)?;
            let right = held_form(alloc, b)?;
            joined(left, right)
        }
        Expr::Sub(a, b) => {
            let left = held_form(alloc, a)?;
            let right = negated(alloc, b)?;
            joined(left, right)
        }
        Expr::Mul(a, b) => {
            let left = held_form(alloc, a)?;
            let right = held_form(alloc, b)?;
            product_form(alloc, left, right)
        }
        Expr::Mod(a, b) => division(alloc, DivKind::Mod, a, b),
        Expr::Floor(a, b) => division(alloc, DivKind::Floor, a, b),
        Expr::Ceil(a, b) => division(alloc, DivKind::Ceil, a, b),
    }
}

#[cycle(making)]
fn held_form(alloc: Global, e: &Held<Expr>) -> Result<Linear, AllocError>
    requires affine { IsAffine e.now }
    requires within { IsWithin e.now }
    ensures { IfOk result (λ l. l ≡ linear_form e.now) }
{
    form_of(alloc, e.get())
}

// The form of the negation.
#[cycle(making)]
fn negated(alloc: Global, e: &Held<Expr>) -> Result<Linear, AllocError>
    requires affine { IsAffine e.now }
    requires within { IsWithin e.now }
    ensures { IfOk result (λ l. l ≡ roll-Linear (scaled (negsuc 0) (parts_of e.now))) }
{
    let form = form_of(alloc, e.get())?;
    scaled(alloc, form, -1)
}

// The form of a division by an expression without parameters.
#[cycle(making)]
fn division(
    alloc: Global,
    kind: DivKind,
    a: &Held<Expr>,
    b: &Held<Expr>,
) -> Result<Linear, AllocError>
    requires left { IsAffine a.now × IsWithin a.now }
    requires right { IsAffine b.now × IsWithin b.now }
    requires divisor { IsDivisor b.now }
    ensures { IfOk result (λ l. l ≡ roll-Linear (divided kind (parts_of a.now) (parts_of b.now))) }
{
    let form = form_of(alloc, a.get())?;
    divided(alloc, kind, form, value_at(b.get(), &[], &[]))
}
