//! Sums, multiples and divisions of linear forms.
ghost use Rattle.std.specs.Prelude.{◌≡◌, ◌+◌, ◌*◌, ◌≤◌, ◌^◌, [], ◌++◌, unsigned_abs, IfOk, OnOk};
ghost use Rattle.av_affine.specs.Forms.{add_opaques, add_terms, opaque_unless_zero, scale_opaques, scale_terms, term_unless_zero};
ghost use Rattle.av_affine.specs.Sizes.{opaques_size, terms_size};

use crate::arithmetic::product;
use crate::combine::{add_opaque, add_term};
use crate::linear::{Opaque, Term};
use crate::rest::Rest;
use crate::{Leaf, Seq};
use std::alloc::{AllocError, Global};

pub fn add_terms(terms: &mut Seq<Term>, more: Seq<Term>) -> Result<(), AllocError>
    requires { terms_size terms.old + terms_size more ≤ 2 ^ 110 }
    ensures { OnOk result (terms.new ≡ add_terms terms.old more) }
{
    let mut rest = Rest::of(more);
    while let Some(term) = rest.next() {
        add_term(terms, term)?;
    }
    Ok(())
}

pub fn add_opaques(opaques: &mut Seq<Opaque>, more: Seq<Opaque>) -> Result<(), AllocError>
    requires { opaques_size opaques.old + opaques_size more ≤ 2 ^ 110 }
    ensures { OnOk result (opaques.new ≡ add_opaques opaques.old more) }
{
    let mut rest = Rest::of(more);
    while let Some(opaque) = rest.next() {
        add_opaque(opaques, opaque)?;
    }
    Ok(())
}

// Puts a term at the end, unless its factor is zero.
fn push_term(terms: &mut Seq<Term>, leaf: Leaf, factor: i128) -> Result<(), AllocError>
    ensures { OnOk result (terms.new ≡ terms.old ++ term_unless_zero leaf factor []) }
{
    if factor == 0 {
        Ok(())
    } else {
        terms.push(Term { leaf, factor })
    }
}

pub fn scale_terms(alloc: Global, by: i128, terms: Seq<Term>) -> Result<Seq<Term>, AllocError>
    requires { terms_size terms * unsigned_abs by ≤ 2 ^ 110 }
    ensures { IfOk result (λ ts. ts ≡ scale_terms by terms) }
{
    let mut scaled = Seq::new(alloc);
    let mut rest = Rest::of(terms);
    while let Some(term) = rest.next() {
        let factor = product(term.factor, by);
        push_term(&mut scaled, term.leaf, factor)?;
    }
    Ok(scaled)
}

// Puts an opaque term with this factor at the end, unless that is zero.
fn push_opaque(opaques: &mut Seq<Opaque>, opaque: Opaque, factor: i128) -> Result<(), AllocError>
    ensures { OnOk result (opaques.new ≡ opaques.old ++ opaque_unless_zero opaque factor []) }
{
    if factor == 0 {
        return Ok(());
    }
    let Opaque {
        kind,
        inner,
        by,
        ..
    } = opaque;
    opaques.push(Opaque {
        kind,
        inner,
        by,
        factor,
    })
}

pub fn scale_opaques(
    alloc: Global,
    by: i128,
    opaques: Seq<Opaque>,
) -> Result<Seq<Opaque>, AllocError>
    requires { opaques_size opaques * unsigned_abs by ≤ 2 ^ 110 }
    ensures { IfOk result (λ os. os ≡ scale_opaques by opaques) }
{
    let mut scaled = Seq::new(alloc);
    let mut rest = Rest::of(opaques);
    while let Some(opaque) = rest.next() {
        let factor = product(opaque.factor, by);
        push_opaque(&mut scaled, opaque, factor)?;
    }
    Ok(scaled)
}
