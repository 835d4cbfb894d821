//! Maps at the words of their operands.

ghost use Rattle.std.specs.Prelude.{◌≡◌, drop, map, take, IfErr, IfOk, Some};
ghost use Rattle.av_bits.specs.Pattern.{signed_value};
ghost use Rattle.av_ir.specs.ScalarRun.{evaluated, set_holds};
ghost use Rattle.av_ir.specs.WellFormed.{IsUsable, IsUsableSet};
ghost use Rattle.av_scalar.specs.Maps.{StopsAtMap};
ghost use Rattle.av_scalar.specs.Names.{values};

use av_affine::{AffMap, AffSet, No, eval, holds};
use av_bits::{Width, signed};
use av_ir::{RunStop, TrapKind};
use smallvec::SmallVec;
use std::alloc::{AllocError, Global};

/// The first items, at most so many.
fn ahead<T>(items: &[T], count: u64) -> &[T]
    ensures { result.now ≡ take count items.now }
{
    let count = count as usize;
    if count < items.len() {
        &items[..count]
    } else {
        items
    }
}

/// The items behind so many.
pub fn behind<T>(items: &[T], count: u64) -> &[T]
    ensures { result.now ≡ drop count items.now }
{
    let count = count as usize;
    if count < items.len() {
        &items[count..]
    } else {
        &items[items.len()..]
    }
}

/// The signed numbers for which words stand.
///
/// # Errors
///
/// Want of memory.
pub fn indices(alloc: Global, words: &[u64]) -> Result<Vec<i64>, AllocError>
    ensures { IfOk result (λ v. v.items ≡ map (signed_value 64) words.now) }
{
    words
        .iter()
        .map(|word| signed(Width::W64, *word))
        .collect(alloc)
}

/// The results of a map at the words of its operands, the dimensions first.
///
/// # Errors
///
/// A result is out of range, which traps at the operation of this number, or memory lacks.
pub fn evaluate(
    alloc: Global,
    number: No,
    map: &AffMap,
    operands: &[u64],
) -> Result<SmallVec<i64, 8>, RunStop>
    requires { IsUsable map.now }
    ensures value { IfOk result (λ v. evaluated map.now (values operands.now) ≡ Some v.items) }
    ensures stop { IfErr result (StopsAtMap number (evaluated map.now (values operands.now))) }
{
    let indices = indices(alloc, operands)?;
    let dims = ahead(&indices, map.dims);
    let syms = ahead(behind(&indices, map.dims), map.syms);
    match eval(map, dims, syms) {
        Ok(results) => Ok(results),
        Err(_) => Err(RunStop::Trap(TrapKind::IndexRange, number)),
    }
}

/// Whether a set holds at the words of its operands, the dimensions first.
///
/// # Errors
///
/// Want of memory.
pub fn test(alloc: Global, set: &AffSet, operands: &[u64]) -> Result<bool, AllocError>
    requires { IsUsableSet set.now }
    ensures { IfOk result (λ held. held ≡ set_holds set.now (values operands.now)) }
{
    let indices = indices(alloc, operands)?;
    let dims = ahead(&indices, set.dims);
    let syms = ahead(behind(&indices, set.dims), set.syms);
    Ok(holds(set, dims, syms))
}
