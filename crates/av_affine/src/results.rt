ghost use Rattle.std.specs.Prelude.{◌≡◌, ◌↔◌, ◌≤◌, length, IsOk, IsTrue, IfOk};
ghost use Rattle.std.specs.List.{All};
ghost use Rattle.av_affine.specs.Values.{leaves, value_of};
ghost use Rattle.av_affine.specs.Limits.{Admissible};
ghost use Rattle.av_affine.specs.Results.{GivesIndex, MeetsZero, RowHolds, values_of};

use crate::values::value_at;
use crate::{AffMap, AffSet, Expr, SetRow};
use smallvec::SmallVec;

/// A result of a map is outside -2^47 to 2^47.
#[derive(Clone, Copy, Debug, PartialEq, Eq, Drop)]
pub struct IndexRange;

/// The greatest magnitude of a result of a map.
const MAX_INDEX: i128 = 1 << 47;

// The value of an expression, if a map may give it.
fn index_of(e: &Expr, dims: &[i64], syms: &[i64]) -> Result<i64, IndexRange>
    requires { Admissible e.now }
    ensures value { IfOk result (λ v. v ≡ value_of (leaves dims.now syms.now) e.now) }
    ensures range { IsOk result ↔ GivesIndex (leaves dims.now syms.now) e.now }
{
    let value = value_at(e, dims, syms);
    if value < -MAX_INDEX || value > MAX_INDEX {
        return Err(IndexRange);
    }
    Ok(value as i64)
}

/// The results of a map, in order, where its parameters have these values.
///
/// It takes no memory: the results stand in the value itself. A parameter past the end of its list is 0.
///
/// # Errors
///
/// A result is outside -2^47 to 2^47, of which both ends are allowed.
pub fn eval(map: &AffMap, dims: &[i64], syms: &[i64]) -> Result<SmallVec<i64, 8>, IndexRange>
    requires admissible { All Admissible map.now.results }
    requires few { length map.now.results ≤ 8 }
    ensures values { IfOk result (λ v. v.items ≡ values_of (leaves dims.now syms.now) map.now.results) }
    ensures range { IsOk result ↔ All (GivesIndex (leaves dims.now syms.now)) map.now.results }
{
    let mut values = SmallVec::new(map.results.global());
    for e in map.results.as_slice() {
        let value = index_of(e, dims, syms)?;
        values.push_reserved(value);
    }
    Ok(values)
}

fn meets_zero(equal: bool, left: i128) -> bool
    ensures { IsTrue result ↔ MeetsZero equal left }
{
    if equal { left == 0 } else { left >= 0 }
}

// Whether a row holds.
fn row_holds(row: &SetRow, dims: &[i64], syms: &[i64]) -> bool
    requires { Admissible row.now.left }
    ensures { IsTrue result ↔ RowHolds (leaves dims.now syms.now) row.now }
{
    meets_zero(row.equal, value_at(&row.left, dims, syms))
}

/// Whether all rows of a set hold where its parameters have these values.
///
/// It takes no memory. A parameter past the end of its list is 0.
pub fn holds(set: &AffSet, dims: &[i64], syms: &[i64]) -> bool
    requires { All (λ row. Admissible row.left) set.now.rows }
    ensures { IsTrue result ↔ All (RowHolds (leaves dims.now syms.now)) set.now.rows }
{
    for row in set.rows.as_slice() {
        if !row_holds(row, dims, syms) {
            return false;
        }
    }
    true
}
