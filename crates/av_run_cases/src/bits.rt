//! Cases of the arithmetic of patterns.

use crate::words::{named, pattern, whole};
use av_bits::{
    BinOp, CastOp, Kind9, Pred, Width, binary, cast, combine, compare, neutral, op_of_kind, signed,
    wrap,
};
use av_cases::Why;
use std::alloc::Global;

const WIDTHS: [Width; 5] = [Width::W1, Width::W8, Width::W16, Width::W32, Width::W64];

/// The binary operations.
pub const OPERATIONS: [BinOp; 20] = [
    BinOp::Addi,
    BinOp::Subi,
    BinOp::Muli,
    BinOp::Divsi,
    BinOp::Divui,
    BinOp::Remsi,
    BinOp::Remui,
    BinOp::Floordivsi,
    BinOp::Ceildivsi,
    BinOp::Ceildivui,
    BinOp::Andi,
    BinOp::Ori,
    BinOp::Xori,
    BinOp::Shli,
    BinOp::Shrsi,
    BinOp::Shrui,
    BinOp::Minsi,
    BinOp::Minui,
    BinOp::Maxsi,
    BinOp::Maxui,
];

/// The predicates of comparisons.
pub const PREDICATES: [Pred; 10] = [
    Pred::Eq,
    Pred::Ne,
    Pred::Slt,
    Pred::Sle,
    Pred::Sgt,
    Pred::Sge,
    Pred::Ult,
    Pred::Ule,
    Pred::Ugt,
    Pred::Uge,
];

/// The casts.
pub const CASTS: [CastOp; 5] = [
    CastOp::Extsi,
    CastOp::Extui,
    CastOp::Trunci,
    CastOp::IndexCast,
    CastOp::IndexCastui,
];

/// The kinds of reductions.
pub const KINDS: [Kind9; 9] = [
    Kind9::Add,
    Kind9::Mul,
    Kind9::And,
    Kind9::Or,
    Kind9::Xor,
    Kind9::Minsi,
    Kind9::Minui,
    Kind9::Maxsi,
    Kind9::Maxui,
];

fn width_of(alloc: Global, word: &str) -> Result<Width, Why> {
    named(alloc, &WIDTHS, word)
}

fn kind_of(alloc: Global, word: &str) -> Result<Kind9, Why> {
    named(alloc, &KINDS, word)
}

fn shown(alloc: Global, pattern: u64) -> Result<String, Why> {
    Ok(format!(in alloc; "0x{pattern:x}")?)
}

/// `OPERATION WIDTH A B`: the pattern, or that it traps.
pub fn binary_case(alloc: Global, words: &[String]) -> Result<String, Why> {
    let [op, width, a, b] = words else {
        return Err(Why::BadValue);
    };
    let op = named(alloc, &OPERATIONS, op.as_str())?;
    let width = width_of(alloc, width.as_str())?;
    let a = pattern(width, a.as_str())?;
    let b = pattern(width, b.as_str())?;
    match binary(op, width, a, b) {
        Ok(result) => shown(alloc, result),
        Err(_) => Ok(String::from_str(alloc, "trap")?),
    }
}

/// `PREDICATE WIDTH A B`: whether it holds.
pub fn compare_case(alloc: Global, words: &[String]) -> Result<String, Why> {
    let [predicate, width, a, b] = words else {
        return Err(Why::BadValue);
    };
    let predicate = named(alloc, &PREDICATES, predicate.as_str())?;
    let width = width_of(alloc, width.as_str())?;
    let a = pattern(width, a.as_str())?;
    let b = pattern(width, b.as_str())?;
    let holds = compare(predicate, width, a, b);
    Ok(format!(in alloc; "{holds}")?)
}

/// `CAST FROM TO A`: the pattern.
pub fn cast_case(alloc: Global, words: &[String]) -> Result<String, Why> {
    let [op, from, to, a] = words else {
        return Err(Why::BadValue);
    };
    let op = named(alloc, &CASTS, op.as_str())?;
    let from = width_of(alloc, from.as_str())?;
    let to = width_of(alloc, to.as_str())?;
    let a = pattern(from, a.as_str())?;
    shown(alloc, cast(op, from, to, a))
}

/// `WIDTH A`: the signed value of its pattern.
pub fn signed_case(alloc: Global, words: &[String]) -> Result<String, Why> {
    let [width, a] = words else {
        return Err(Why::BadValue);
    };
    let width = width_of(alloc, width.as_str())?;
    let value = signed(width, pattern(width, a.as_str())?);
    Ok(format!(in alloc; "{value}")?)
}

/// `WIDTH A`: its pattern.
pub fn wrap_case(alloc: Global, words: &[String]) -> Result<String, Why> {
    let [width, a] = words else {
        return Err(Why::BadValue);
    };
    let width = width_of(alloc, width.as_str())?;
    shown(alloc, wrap(width, whole(a.as_str())?))
}

/// `KIND WIDTH A B`: the pattern.
pub fn combine_case(alloc: Global, words: &[String]) -> Result<String, Why> {
    let [kind, width, a, b] = words else {
        return Err(Why::BadValue);
    };
    let kind = kind_of(alloc, kind.as_str())?;
    let width = width_of(alloc, width.as_str())?;
    let a = pattern(width, a.as_str())?;
    let b = pattern(width, b.as_str())?;
    shown(alloc, combine(kind, width, a, b))
}

/// `KIND WIDTH`: the pattern.
pub fn neutral_case(alloc: Global, words: &[String]) -> Result<String, Why> {
    let [kind, width] = words else {
        return Err(Why::BadValue);
    };
    let kind = kind_of(alloc, kind.as_str())?;
    let width = width_of(alloc, width.as_str())?;
    shown(alloc, neutral(kind, width))
}

/// `KIND`: the operation by which it combines.
pub fn operation_case(alloc: Global, words: &[String]) -> Result<String, Why> {
    let [kind] = words else {
        return Err(Why::BadValue);
    };
    let op = op_of_kind(kind_of(alloc, kind.as_str())?);
    Ok(format!(in alloc; "{op:?}")?)
}
