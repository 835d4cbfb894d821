//! Whether forms are equal.
ghost use Rattle.std.specs.Prelude.{◌≡◌};
ghost use Rattle.std.specs.Ordering.{int_eq};
ghost use Rattle.av_affine.specs.Forms.{all_same, same_division, same_form, same_kind, same_leaf, same_opaque, same_term, same_terms};

use crate::Leaf;
use crate::linear::{DivKind, Linear, Opaque, Term};

pub fn is_same_leaf(a: Leaf, b: Leaf) -> bool
    ensures { result ≡ same_leaf a b }
{
    match (a, b) {
        (Leaf::Dim(j), Leaf::Dim(k)) => j == k,
        (Leaf::Sym(j), Leaf::Sym(k)) => j == k,
        _ => false,
    }
}

fn is_same_kind(a: DivKind, b: DivKind) -> bool
    ensures { result ≡ same_kind a b }
{
    match (a, b) {
        (DivKind::Mod, DivKind::Mod) => true,
        (DivKind::Floor, DivKind::Floor) => true,
        (DivKind::Ceil, DivKind::Ceil) => true,
        _ => false,
    }
}

fn is_same_number(a: i128, b: i128) -> bool
    ensures { result ≡ int_eq a b }
{
    a == b
}

fn is_same_term(a: &Term, b: &Term) -> bool
    ensures { result ≡ same_term a.now b.now }
{
    is_same_leaf(a.leaf, b.leaf) && is_same_number(a.factor, b.factor)
}

fn are_same_terms(xs: &[Term], ys: &[Term]) -> bool
    ensures { result ≡ same_terms xs.now ys.now }
{
    if xs.len() != ys.len() {
        return false;
    }
    for i in 0..xs.len() {
        if !is_same_term(&xs[i], &ys[i]) {
            return false;
        }
    }
    true
}

#[cycle(comparing)]
#[tactic(auto, using(crate::proofs::Opened::opened))]
fn is_same_form(a: &Linear, b: &Linear) -> bool
    ensures { result ≡ same_form a.now b.now }
{
    are_same_terms(a.terms.as_slice(), b.terms.as_slice())
        && are_same_opaques(a.opaque.as_slice(), b.opaque.as_slice())
        && is_same_number(a.constant, b.constant)
}

#[cycle(comparing)]
#[tactic(auto, using(crate::proofs::Opened::opened))]
fn are_same_opaques(xs: &[Opaque], ys: &[Opaque]) -> bool
    ensures { result ≡ all_same same_opaque xs.now ys.now }
{
    if xs.len() != ys.len() {
        return false;
    }
    for i in 0..xs.len() {
        if !is_same_opaque(&xs[i], &ys[i]) {
            return false;
        }
    }
    true
}

#[cycle(comparing)]
#[tactic(auto, using(crate::proofs::Opened::opened))]
fn is_same_opaque(a: &Opaque, b: &Opaque) -> bool
    ensures { result ≡ same_opaque a.now b.now }
{
    is_same_number(a.factor, b.factor) && is_same_division(a, b)
}

/// Whether two opaque terms are equal but for their factors.
#[cycle(comparing)]
#[tactic(auto, using(crate::proofs::Opened::opened))]
pub fn is_same_division(a: &Opaque, b: &Opaque) -> bool
    ensures { result ≡ same_division a.now b.now }
{
    is_same_kind(a.kind, b.kind) && is_same_number(a.by, b.by) && is_same_form(&a.inner, &b.inner)
}
