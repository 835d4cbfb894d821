//! Kinds of operations by their names and properties.

use crate::bits::{CASTS, KINDS, OPERATIONS, PREDICATES};
use crate::expressions;
use crate::notation::Line;
use crate::words::{magnitude, spelled};
use av_affine::{AffMap, AffSet, Seq};
use av_cases::Why;
use av_ir::{Const, OpKind};
use std::alloc::Global;

/// The kind of operation that a line names.
pub fn kind(alloc: Global, line: &Line) -> Result<OpKind, Why> {
    let (dialect, name) = line.name.as_str().split_once(".").ok_or(Why::BadValue)?;
    match dialect {
        "arith" => arith_kind(alloc, name, line),
        "affine" => affine_kind(alloc, name, line),
        "vector" => vector_kind(alloc, name, line),
        _ => plain_kind(line.name.as_str()),
    }
}

fn plain_kind(name: &str) -> Result<OpKind, Why> {
    match name {
        "func.return" => Ok(OpKind::FuncReturn),
        "memref.load" => Ok(OpKind::MemrefLoad),
        "memref.store" => Ok(OpKind::MemrefStore),
        "memref.dim" => Ok(OpKind::MemrefDim),
        "scf.for" => Ok(OpKind::ScfFor),
        "scf.yield" => Ok(OpKind::ScfYield),
        _ => Err(Why::BadValue),
    }
}

fn arith_kind(alloc: Global, name: &str, line: &Line) -> Result<OpKind, Why> {
    match name {
        "constant" => Ok(OpKind::ArithConstant(constant(alloc, line)?)),
        "cmpi" => {
            let predicate = spelled(alloc, &PREDICATES, line.property("predicate")?)?;
            Ok(OpKind::ArithCmpi(predicate))
        }
        "select" => Ok(OpKind::ArithSelect),
        _ => match spelled(alloc, &CASTS, name) {
            Ok(op) => Ok(OpKind::ArithCast(op)),
            Err(_) => Ok(OpKind::ArithBinary(spelled(alloc, &OPERATIONS, name)?)),
        },
    }
}

// One pattern, or several with commas between them.
fn constant(alloc: Global, line: &Line) -> Result<Const, Why> {
    let value = line.property("value")?;
    if !value.contains(",") {
        return Ok(Const::Splat(magnitude(value)?));
    }
    let mut patterns = Seq::new(alloc);
    for word in value.split(',') {
        patterns.push(magnitude(word)?)?;
    }
    Ok(Const::Each(patterns))
}

fn affine_kind(alloc: Global, name: &str, line: &Line) -> Result<OpKind, Why> {
    match name {
        "for" => Ok(OpKind::AffineFor {
            lower: map(alloc, line, "lower")?,
            upper: map(alloc, line, "upper")?,
            step: magnitude(line.property("step")?)?,
        }),
        "if" => Ok(OpKind::AffineIf(set(alloc, line)?)),
        "yield" => Ok(OpKind::AffineYield),
        "apply" => Ok(OpKind::AffineApply(map(alloc, line, "map")?)),
        "min" => Ok(OpKind::AffineMin(map(alloc, line, "map")?)),
        "max" => Ok(OpKind::AffineMax(map(alloc, line, "map")?)),
        "load" => Ok(OpKind::AffineLoad(map(alloc, line, "map")?)),
        "store" => Ok(OpKind::AffineStore(map(alloc, line, "map")?)),
        _ => Err(Why::BadValue),
    }
}

fn map(alloc: Global, line: &Line, key: &str) -> Result<AffMap, Why> {
    expressions::map(alloc, line.property(key)?.as_bytes())
}

fn set(alloc: Global, line: &Line) -> Result<AffSet, Why> {
    expressions::set(alloc, line.property("set")?.as_bytes())
}

fn vector_kind(alloc: Global, name: &str, line: &Line) -> Result<OpKind, Why> {
    match name {
        "load" => Ok(OpKind::VectorLoad),
        "store" => Ok(OpKind::VectorStore),
        "maskedload" => Ok(OpKind::VectorMaskedLoad),
        "maskedstore" => Ok(OpKind::VectorMaskedStore),
        "gather" => Ok(OpKind::VectorGather),
        "scatter" => Ok(OpKind::VectorScatter),
        "broadcast" => Ok(OpKind::VectorBroadcast),
        "create_mask" => Ok(OpKind::VectorCreateMask),
        "reduction" => {
            let kind = spelled(alloc, &KINDS, line.property("kind")?)?;
            Ok(OpKind::VectorReduction(kind))
        }
        "extract" => Ok(OpKind::VectorExtract(places(alloc, line)?)),
        "insert" => Ok(OpKind::VectorInsert(places(alloc, line)?)),
        "shuffle" => Ok(OpKind::VectorShuffle(places(alloc, line)?)),
        "step" => Ok(OpKind::VectorStep),
        "vscale" => Ok(OpKind::VectorVscale),
        _ => Err(Why::BadValue),
    }
}

// The places of elements, with commas between them.
fn places(alloc: Global, line: &Line) -> Result<Seq<u16>, Why> {
    let mut places = Seq::new(alloc);
    for word in line.property("at")?.split(',') {
        match u16::try_from(magnitude(word)?) {
            Ok(place) => places.push(place)?,
            Err(_) => return Err(Why::BadValue),
        }
    }
    Ok(places)
}
