//! What is asked of maps and sets.

ghost use Rattle.std.specs.Prelude.{◌≡◌, length};
ghost use Rattle.std.specs.List.{list_all};
ghost use Rattle.av_maps.specs.Asked.{has_few_results, has_few_rows, has_own, is_affine_map, is_affine_set, is_good, is_own, set_takes, takes};
ghost use Rattle.av_maps.specs.Written.{map_of, set_of};

use super::names::parameters_differ;
use av_affine::{AffMap, AffSet, Expr, Leaf, No, SetRow, is_admissible};
use av_tree::{MapText, SetText};

/// The most results of a map.
const MAX_RESULTS: usize = 8;

/// The most rows of a set.
const MAX_ROWS: usize = 64;

/// Whether a map has one parameter for each of so many operands.
pub fn takes(map: &AffMap, operands: usize) -> bool
    ensures { result ≡ takes map.now operands }
{
    u128::from(map.dims) + u128::from(map.syms) == operands as u128
}

/// Whether a set has one parameter for each of so many operands.
pub fn set_takes(set: &AffSet, operands: usize) -> bool
    ensures { result ≡ set_takes set.now operands }
{
    u128::from(set.dims) + u128::from(set.syms) == operands as u128
}

/// Whether a map has at most 8 results.
pub fn has_few_results(map: &AffMap) -> bool
    ensures { result ≡ has_few_results map.now }
{
    map.results.len() <= MAX_RESULTS
}

/// Whether a set has at most 64 rows.
pub fn has_few_rows(set: &AffSet) -> bool
    ensures { result ≡ has_few_rows set.now }
{
    set.rows.len() <= MAX_ROWS
}

/// Whether the parameters of a written map differ, and its results, with numbers in place of names, are affine over them and within
/// the limits.
pub fn is_affine_map(text: &MapText, map: &AffMap) -> bool
    requires { map.now ≡ map_of text.now }
    ensures { result ≡ is_affine_map text.now }
{
    parameters_differ(text.dims.as_slice(), text.syms.as_slice())
        && are_good(map.dims, map.syms, map.results.as_slice())
}

/// The same of a set and its rows.
pub fn is_affine_set(text: &SetText, set: &AffSet) -> bool
    requires { set.now ≡ set_of text.now }
    ensures { result ≡ is_affine_set text.now }
{
    parameters_differ(text.dims.as_slice(), text.syms.as_slice())
        && are_good_rows(set.dims, set.syms, set.rows.as_slice())
}

fn are_good(dims: No, syms: No, results: &[Expr]) -> bool
    ensures { result ≡ list_all (is_good dims syms) results.now }
{
    results.iter().all(|e| is_good(dims, syms, e))
}

fn are_good_rows(dims: No, syms: No, rows: &[SetRow]) -> bool
    ensures { result ≡ list_all (λ row. is_good dims syms row.left) rows.now }
{
    rows.iter().all(|row| is_good(dims, syms, &row.left))
}

// Whether the parameters of an expression are among so many, it is affine, and within the limits.
fn is_good(dims: No, syms: No, e: &Expr) -> bool
    ensures { result ≡ is_good dims syms e.now }
{
    has_own(dims, syms, e) && is_admissible(e)
}

#[tactic(auto, using(crate::proofs::Variants::owned))]
fn has_own(dims: No, syms: No, e: &Expr) -> bool
    ensures { result ≡ has_own dims syms e.now }
{
    match e {
        Expr::Param(leaf) => is_own(dims, syms, *leaf),
        Expr::Const(_) => true,
        Expr::Neg(a) => has_own(dims, syms, a.get()),
        Expr::Add(a, b)
        | Expr::Sub(a, b)
        | Expr::Mul(a, b)
        | Expr::Mod(a, b)
        | Expr::Floor(a, b)
        | Expr::Ceil(a, b) => has_own(dims, syms, a.get()) && has_own(dims, syms, b.get()),
    }
}

// Whether a parameter is one of so many dimensions and symbols.
fn is_own(dims: No, syms: No, leaf: Leaf) -> bool
    ensures { result ≡ is_own dims syms leaf }
{
    match leaf {
        Leaf::Dim(k) => k < dims,
        Leaf::Sym(k) => k < syms,
    }
}
