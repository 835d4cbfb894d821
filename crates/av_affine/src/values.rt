ghost use Rattle.std.specs.Prelude.{◌≡◌, ◌≤ℤ◌, ◌<◌, ◌≤◌, ◌^◌, pos, unsigned_abs};
ghost use Rattle.av_affine.specs.Values.{leaves, value_of};
ghost use Rattle.av_affine.specs.Limits.{IsAffine, IsWithin, bound_of};

use crate::arithmetic::{ceil_of, difference, floor_of, negation, product, remainder_of, sum};
use crate::{Expr, Held, Leaf};

// The value of a parameter, 0 where there is none of its number.
fn leaf_value(leaf: &Leaf, dims: &[i64], syms: &[i64]) -> i128
    ensures value { result ≡ leaves dims.now syms.now leaf.now }
    ensures bound { unsigned_abs result ≤ 2 ^ 63 }
{
    let found = match leaf {
        Leaf::Dim(no) => dims.get(*no as usize),
        Leaf::Sym(no) => syms.get(*no as usize),
    };
    match found {
        Some(value) => i128::from(*value),
        None => 0,
    }
}

/// The value of an expression over whole numbers, where its parameters have these values.
#[cycle(valuing)]
pub fn value_at(e: &Expr, dims: &[i64], syms: &[i64]) -> i128
    requires affine { IsAffine e.now }
    requires within { IsWithin e.now }
    ensures value { result ≡ value_of (leaves dims.now syms.now) e.now }
    ensures bound { unsigned_abs result ≤ bound_of e.now }
{
    match e {
        Expr::Param(leaf) => leaf_value(leaf, dims, syms),
        Expr::Const(value) => *value,
        Expr::Neg(a) => negation(held_value(a, dims, syms)),
        Expr::Add(a, b) => sum(held_value(a, dims, syms), held_value(b, dims, syms)),
        Expr::Sub(a, b) => difference(held_value(a, dims, syms), held_value(b, dims, syms)),
        Expr::Mul(a, b) => product(held_value(a, dims, syms), held_value(b, dims, syms)),
        Expr::Mod(a, b) => remainder_of(held_value(a, dims, syms), held_value(b, dims, syms)),
        Expr::Floor(a, b) => floor_of(held_value(a, dims, syms), held_value(b, dims, syms)),
        Expr::Ceil(a, b) => ceil_of(held_value(a, dims, syms), held_value(b, dims, syms)),
    }
}

#[cycle(valuing)]
fn held_value(e: &Held<Expr>, dims: &[i64], syms: &[i64]) -> i128
    requires affine { IsAffine e.now }
    requires within { IsWithin e.now }
    ensures value { result ≡ value_of (leaves dims.now syms.now) e.now }
    ensures bound { unsigned_abs result ≤ bound_of e.now }
{
    value_at(e.get(), dims, syms)
}
