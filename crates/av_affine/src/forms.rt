//! Sums, multiples, products and divisions of whole linear forms.
ghost use Rattle.std.specs.Prelude.{◌≡◌, [], ◌+◌, ◌*◌, ◌≤◌, ◌^◌, ◌↔◌, pos, ◌≤ℤ◌, unsigned_abs, IfOk, IsTrue};
ghost use Rattle.av_affine.specs.Forms.{constant_parts, divide, division_of, joined, product_by, scaled};
ghost use Rattle.av_affine.specs.Sizes.{parts_size};
ghost use Rattle.av_affine.specs.declared.linear.Linear.{out-Linear, roll-Linear};

use crate::Seq;
use crate::arithmetic::{ceil_of, floor_of, product, remainder_of, sum};
use crate::linear::{DivKind, Linear, Opaque};
use crate::sums::{add_opaques, add_terms, scale_opaques, scale_terms};
use std::alloc::{AllocError, Global};

pub fn constant_form(alloc: Global, constant: i128) -> Linear
    ensures { result ≡ roll-Linear (constant_parts constant) }
{
    Linear {
        terms: Seq::new(alloc),
        opaque: Seq::new(alloc),
        constant,
    }
}

fn is_constant(form: &Linear) -> bool
    ensures { IsTrue result ↔ (((out-Linear form.now).terms ≡ []) × ((out-Linear form.now).opaque ≡ [])) }
{
    form.terms.is_empty() && form.opaque.is_empty()
}

pub fn joined(left: Linear, right: Linear) -> Result<Linear, AllocError>
    requires { parts_size (out-Linear left) + parts_size (out-Linear right) ≤ 2 ^ 110 }
    ensures { IfOk result (λ l. l ≡ roll-Linear (joined (out-Linear left) (out-Linear right))) }
{
    let Linear {
        mut terms,
        mut opaque,
        constant,
    } = left;
    let Linear {
        terms: more_terms,
        opaque: more_opaque,
        constant: more,
    } = right;
    add_terms(&mut terms, more_terms)?;
    add_opaques(&mut opaque, more_opaque)?;
    let constant = sum(constant, more);
    Ok(Linear {
        terms,
        opaque,
        constant,
    })
}

pub fn scaled(alloc: Global, form: Linear, by: i128) -> Result<Linear, AllocError>
    requires { parts_size (out-Linear form) * unsigned_abs by ≤ 2 ^ 110 }
    ensures { IfOk result (λ l. l ≡ roll-Linear (scaled by (out-Linear form))) }
{
    let Linear {
        terms,
        opaque,
        constant,
    } = form;
    let terms = scale_terms(alloc, by, terms)?;
    let opaque = scale_opaques(alloc, by, opaque)?;
    let constant = product(constant, by);
    Ok(Linear {
        terms,
        opaque,
        constant,
    })
}

pub fn product_form(alloc: Global, left: Linear, right: Linear) -> Result<Linear, AllocError>
    requires { parts_size (out-Linear left) * parts_size (out-Linear right) ≤ 2 ^ 110 }
    ensures { IfOk result (λ l. l ≡ roll-Linear
        (product_by (out-Linear right).terms (out-Linear right).opaque (out-Linear left) (out-Linear right))) }
{
    if is_constant(&right) {
        let by = right.constant;
        scaled(alloc, left, by)
    } else {
        let by = left.constant;
        scaled(alloc, right, by)
    }
}

fn quotient(kind: DivKind, x: i128, by: i128) -> i128
    requires bound { unsigned_abs x ≤ 2 ^ 110 }
    requires divisor { pos 1 ≤ℤ by }
    ensures { result ≡ divide kind x by }
{
    match kind {
        DivKind::Mod => remainder_of(x, by),
        DivKind::Floor => floor_of(x, by),
        DivKind::Ceil => ceil_of(x, by),
    }
}

pub fn divided(alloc: Global, kind: DivKind, form: Linear, by: i128) -> Result<Linear, AllocError>
    requires bound { parts_size (out-Linear form) ≤ 2 ^ 110 }
    requires divisor { pos 1 ≤ℤ by }
    ensures { IfOk result (λ l. l ≡ roll-Linear
        (division_of (out-Linear form).terms (out-Linear form).opaque kind (out-Linear form) by)) }
{
    if is_constant(&form) {
        return Ok(constant_form(alloc, quotient(kind, form.constant, by)));
    }
    let mut opaque = Seq::new(alloc);
    opaque.push(Opaque {
        kind,
        inner: form,
        by,
        factor: 1,
    })?;
    Ok(Linear {
        terms: Seq::new(alloc),
        opaque,
        constant: 0,
    })
}
