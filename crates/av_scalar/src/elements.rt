//! Operations on elements.

ghost use Rattle.std.specs.Prelude.{◌≡◌, Ok};
ghost use Rattle.av_ir.specs.Elements.{binary_element, bit_of, cast_element, compare_element, element_width, first_width, low, select_element};
ghost use Rattle.av_ir.specs.Run.{types_at};
ghost use Rattle.av_ir.specs.ScalarRun.{constant_of};

use super::words::word_at;
use av_bits::{BinOp, CastOp, DivideTrap, Pred, Width, binary, cast, compare, wrap};
use av_ir::{Const, Ty, ValueId, width};

fn element_width(ty: &Ty) -> Width
    ensures { result ≡ element_width ty.now }
{
    match ty {
        Ty::Scalar(elem) | Ty::MemRef { elem, .. } | Ty::Vector { elem, .. } => width(*elem),
    }
}

/// The width of the first of these values.
pub fn first_width(types: &[Ty], ids: &[ValueId]) -> Width
    ensures { result ≡ first_width (types_at types.now ids.now) }
{
    if ids.is_empty() {
        return Width::W64;
    }
    let place = ids[0].0 as usize;
    if place < types.len() {
        element_width(&types[place])
    } else {
        Width::W64
    }
}

/// The pattern of a constant of a scalar type.
pub fn pattern_of(value: &Const) -> u64
    ensures { result ≡ constant_of value.now }
{
    match value {
        Const::Splat(pattern) => *pattern,
        Const::Each(patterns) => word_at(patterns.as_slice(), 0),
    }
}

// The low bits of a pattern, as many as the width has.
fn low_bits(width: Width, pattern: u64) -> u64
    ensures { result ≡ low width pattern }
{
    wrap(width, i128::from(pattern))
}

/// A binary operation.
///
/// # Errors
///
/// A division traps.
pub fn binary_element(op: BinOp, width: Width, operands: &[u64]) -> Result<u64, DivideTrap>
    ensures { result ≡ binary_element op width operands.now }
{
    let first = low_bits(width, word_at(operands, 0));
    let second = low_bits(width, word_at(operands, 1));
    binary(op, width, first, second)
}

fn bit_of(holds: bool) -> u64
    ensures { result ≡ bit_of holds }
{
    if holds { 1 } else { 0 }
}

/// A comparison: 1 where the predicate holds.
pub fn compare_element(pred: Pred, width: Width, operands: &[u64]) -> u64
    ensures { Ok result ≡ compare_element pred width operands.now }
{
    let first = low_bits(width, word_at(operands, 0));
    let second = low_bits(width, word_at(operands, 1));
    bit_of(compare(pred, width, first, second))
}

/// The second operand where the first is 1, else the third.
pub fn select_element(operands: &[u64]) -> u64
    ensures { Ok result ≡ select_element operands.now }
{
    if word_at(operands, 0) == 1 {
        word_at(operands, 1)
    } else {
        word_at(operands, 2)
    }
}

/// A cast from one width to another.
pub fn cast_element(op: CastOp, from: Width, to: Width, operands: &[u64]) -> u64
    ensures { Ok result ≡ cast_element op from to operands.now }
{
    cast(op, from, to, low_bits(from, word_at(operands, 0)))
}
