//! Terms and opaque terms added to those of a form.
ghost use Rattle.std.specs.Prelude.{◌≡◌, [], ◌∷◌, ◌++◌, ◌+◌, ◌<◌, ◌≤◌, ◌^◌, ◌||◌, length, unsigned_abs, slice_index_or, ℤ, MatchOption, MatchResult, OnOk};
ghost use Rattle.std.specs.List.{insert};
ghost use Rattle.av_affine.specs.Forms.{add_opaque, add_term, factor_of, is_before, same_leaf};
ghost use Rattle.av_affine.specs.Places.{opaque_raised, term_raised};
ghost use Rattle.av_affine.specs.Sizes.{opaques_size, terms_size};
ghost use Rattle.av_affine.specs.declared.linear.Opaque.{Opaque};
ghost use Rattle.av_affine.specs.declared.linear.Term.{Term};

use crate::arithmetic::sum;
use crate::linear::{Opaque, Term};
use crate::sameness::{is_same_division, is_same_leaf};
use crate::{Leaf, Seq};
use std::alloc::AllocError;

// Adds to the factor of the opaque term at a place, which goes where that is zero.
fn raise_opaque(opaques: &mut Seq<Opaque>, at: usize, more: i128) -> Result<(), AllocError>
    requires place { at < length opaques.old }
    requires bound { (d : Opaque) → unsigned_abs (factor_of (slice_index_or opaques.old at d)) + unsigned_abs more ≤ 2 ^ 110 }
    ensures { OnOk result ((d : Opaque) → opaques.new ≡ opaque_raised opaques.old at d more) }
{
    let Opaque {
        kind,
        inner,
        by,
        factor,
    } = opaques.remove(at);
    let factor = sum(factor, more);
    if factor == 0 {
        return Ok(());
    }
    let raised = Opaque {
        kind,
        inner,
        by,
        factor,
    };
    opaques.insert(at, raised)
}

// The place of the opaque term that is equal but for its factor.
fn opaque_place(opaques: &[Opaque], opaque: &Opaque) -> Option<usize>
    ensures { MatchOption result (add_opaque opaque.now opaques.now ≡ opaques.now ++ opaque.now ∷ [])
        (λ at. (at < length opaques.now)
        × (add_opaque opaque.now opaques.now ≡ opaque_raised opaques.now at opaque.now (factor_of opaque.now))) }
{
    for at in 0..opaques.len() {
        if is_same_division(opaque, &opaques[at]) {
            return Some(at);
        }
    }
    None
}

/// Adds an opaque term to the equal one, or puts it at the end.
///
/// # Errors
///
/// Want of memory.
pub fn add_opaque(opaques: &mut Seq<Opaque>, opaque: Opaque) -> Result<(), AllocError>
    requires { opaques_size opaques.old + unsigned_abs (factor_of opaque) ≤ 2 ^ 110 }
    ensures { OnOk result (opaques.new ≡ add_opaque opaque opaques.old) }
{
    match opaque_place(opaques.as_slice(), &opaque) {
        Some(at) => raise_opaque(opaques, at, opaque.factor),
        None => opaques.push(opaque),
    }
}

// Adds to the factor of the term at a place, which goes where that is zero.
fn raise_term(terms: &mut Seq<Term>, at: usize, more: i128)
    requires place { at < length terms.old }
    requires bound { (d : Term) → unsigned_abs (slice_index_or terms.old at d).factor + unsigned_abs more ≤ 2 ^ 110 }
    ensures { (d : Term) → terms.new ≡ term_raised terms.old at d more }
{
    let Term { leaf, factor } = terms.as_slice()[at];
    let factor = sum(factor, more);
    if factor == 0 {
        let _ = terms.remove(at);
    } else {
        terms.set(at, Term { leaf, factor });
    }
}

fn is_before_leaf(a: Leaf, b: Leaf) -> bool
    ensures { result ≡ is_before a b }
{
    match (a, b) {
        (Leaf::Dim(j), Leaf::Dim(k)) => j < k,
        (Leaf::Dim(_), Leaf::Sym(_)) => true,
        (Leaf::Sym(_), Leaf::Dim(_)) => false,
        (Leaf::Sym(j), Leaf::Sym(k)) => j < k,
    }
}

// The place of the term of a parameter, or else the place where it belongs.
fn term_place(terms: &[Term], leaf: Leaf) -> Result<usize, usize>
    ensures { MatchResult result
        (λ at. (at < length terms.now)
        × ((f : ℤ) (d : Term) → add_term (record { leaf = leaf; factor = f }) terms.now ≡ term_raised terms.now at d f))
        (λ at. (at ≤ length terms.now)
        × ((f : ℤ) → add_term (record { leaf = leaf; factor = f }) terms.now ≡ insert terms.now at (record { leaf = leaf; factor = f }))) }
{
    for at in 0..terms.len() {
        if is_same_leaf(leaf, terms[at].leaf) {
            return Ok(at);
        }
        if is_before_leaf(leaf, terms[at].leaf) {
            return Err(at);
        }
    }
    Err(terms.len())
}

/// Adds a term to that of its parameter, or puts it in its place.
///
/// # Errors
///
/// Want of memory.
pub fn add_term(terms: &mut Seq<Term>, term: Term) -> Result<(), AllocError>
    requires { terms_size terms.old + unsigned_abs term.factor ≤ 2 ^ 110 }
    ensures { OnOk result (terms.new ≡ add_term term terms.old) }
{
    match term_place(terms.as_slice(), term.leaf) {
        Ok(at) => {
            raise_term(terms, at, term.factor);
            Ok(())
        }
        Err(at) => terms.insert(at, term),
    }
}
