ghost use Rattle.std.specs.Prelude.{◌≡◌, ◌+◌, ◌-◌, ◌^◌, ◌≤◌, ◌↔◌, ℤ, pos, ◌≤ℤ◌, min, unsigned_abs, Bool, IsTrue, Option};
ghost use Rattle.av_affine.specs.Limits.{Admissible, has_parameter, node_count, constant_value};
ghost use Rattle.av_affine.specs.Finding.{bound_found, divisor_found, limited, product_found, quotient_found, remainder_found, sum_found};

use crate::values::value_at;
use crate::{Expr, Held};

/// The most nodes of an expression.
const MAX_NODES: u64 = 64;

/// The greatest bound of an expression and of each of its parts.
const MAX_BOUND: u128 = 1 << 110;

#[cycle(counting)]
#[tactic(auto, using(crate::proofs::Variants::counts))]
fn nodes(e: &Expr) -> u64
    ensures { result ≡ min (node_count e.now) (2 ^ 64 - 1) }
{
    match e {
        Expr::Param(_) | Expr::Const(_) => 1,
        Expr::Neg(a) => held_nodes(a).saturating_add(1),
        Expr::Add(a, b)
        | Expr::Sub(a, b)
        | Expr::Mul(a, b)
        | Expr::Mod(a, b)
        | Expr::Floor(a, b)
        | Expr::Ceil(a, b) => held_nodes(a)
            .saturating_add(held_nodes(b))
            .saturating_add(1),
    }
}

#[cycle(counting)]
#[tactic(auto, using(crate::proofs::Variants::counts))]
fn held_nodes(e: &Held<Expr>) -> u64
    ensures { result ≡ min (node_count e.now) (2 ^ 64 - 1) }
{
    nodes(e.get())
}

#[cycle(naming)]
#[tactic(auto, using(crate::proofs::Variants::names))]
fn names_parameter(e: &Expr) -> bool
    ensures { result ≡ has_parameter e.now }
{
    match e {
        Expr::Param(_) => true,
        Expr::Const(_) => false,
        Expr::Neg(a) => held_names(a),
        Expr::Add(a, b)
        | Expr::Sub(a, b)
        | Expr::Mul(a, b)
        | Expr::Mod(a, b)
        | Expr::Floor(a, b)
        | Expr::Ceil(a, b) => held_names(a) || held_names(b),
    }
}

#[cycle(naming)]
#[tactic(auto, using(crate::proofs::Variants::names))]
fn held_names(e: &Held<Expr>) -> bool
    ensures { result ≡ has_parameter e.now }
{
    names_parameter(e.get())
}

// A bound, if it is at most the limit.
fn within_limit(bound: u128) -> Option<u128>
    ensures { result ≡ limited bound }
{
    if bound <= MAX_BOUND {
        Some(bound)
    } else {
        None
    }
}

fn sum_bound(left: Option<u128>, right: Option<u128>) -> Option<u128>
    ensures { result ≡ sum_found left right }
{
    within_limit(left?.saturating_add(right?))
}

fn product_bound(both_vary: bool, left: Option<u128>, right: Option<u128>) -> Option<u128>
    ensures { result ≡ product_found both_vary left right }
{
    let bound = left?.saturating_mul(right?);
    if both_vary { None } else { within_limit(bound) }
}

fn remainder_bound(left: Option<u128>, divisor: Option<u128>) -> Option<u128>
    ensures { result ≡ remainder_found left divisor }
{
    let _left = left?;
    within_limit(divisor?)
}

fn quotient_bound(left: Option<u128>, divisor: Option<u128>) -> Option<u128>
    ensures { result ≡ quotient_found left divisor }
{
    let bound = left?.saturating_add(1);
    let _divisor = divisor?;
    within_limit(bound)
}

// The bound of an affine expression whose parts are all within the limit.
#[cycle(bounding)]
#[tactic(auto, using(crate::proofs::Variants::found, crate::proofs::Found::tested))]
fn bound(e: &Expr) -> Option<u128>
    ensures { result ≡ bound_found e.now }
{
    match e {
        Expr::Param(_) => Some(1 << 63),
        Expr::Const(value) => within_limit(value.unsigned_abs()),
        Expr::Neg(a) => held_bound(a),
        Expr::Add(a, b) => sum_bound(held_bound(a), held_bound(b)),
        Expr::Sub(a, b) => sum_bound(held_bound(a), held_bound(b)),
        Expr::Mul(a, b) => {
            let both_vary = names_parameter(a.get()) && names_parameter(b.get());
            product_bound(both_vary, held_bound(a), held_bound(b))
        }
        Expr::Mod(a, b) => remainder_bound(held_bound(a), divisor(b)),
        Expr::Floor(a, b) => quotient_bound(held_bound(a), divisor(b)),
        Expr::Ceil(a, b) => quotient_bound(held_bound(a), divisor(b)),
    }
}

#[cycle(bounding)]
#[tactic(auto, using(crate::proofs::Variants::found, crate::proofs::Found::tested))]
fn held_bound(e: &Held<Expr>) -> Option<u128>
    ensures { result ≡ bound_found e.now }
{
    bound(e.get())
}

// The value of a right side of a division: no parameter, and at least 1.
#[cycle(bounding)]
#[tactic(auto, using(crate::proofs::Variants::found, crate::proofs::Found::tested))]
fn divisor(e: &Held<Expr>) -> Option<u128>
    ensures { result ≡ divisor_found (bound_found e.now) (has_parameter e.now) (constant_value e.now) }
{
    let _bound = bound(e.get())?;
    if names_parameter(e.get()) {
        return None;
    }
    let value = value_at(e.get(), &[], &[]);
    if value >= 1 {
        Some(value.unsigned_abs())
    } else {
        None
    }
}

/// Whether an expression is affine, has at most 64 nodes, and no part of it can pass 2^110 in magnitude.
pub fn is_admissible(e: &Expr) -> bool
    ensures { IsTrue result ↔ Admissible e.now }
{
    nodes(e) <= MAX_NODES && bound(e).is_some()
}
