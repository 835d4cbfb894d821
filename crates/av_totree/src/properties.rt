//! What operations say besides their operands: properties and marks.

ghost use Rattle.std.specs.Prelude.{◌≡◌, ◌+◌, ◌^◌, ◌<◌, pos, ◌++◌, ◌∷◌, [], IfOk, OnOk, codes, length};
ghost use Rattle.std.specs.Option.{option_copied};
ghost use Rattle.av_ir.specs.declared.module.Op.{out-Op};
ghost use Rattle.av_totree.specs.Texts.{entry as entry_of};
ghost use Rattle.av_totree.specs.Properties.{combining_of, distinct_mark, first_type as type_first, function_properties_of, map_entry, marks_of, number_mark, number_of, numbers_of, predicate_of, properties_of, segments_of, typed_value as value_typed};

use crate::constants::constant;
use crate::kinds::combining_name;
use crate::maps::{map_text, set_text};
use crate::texts::{entry, text_of};
use crate::types::scalar;
use av_affine::{AffMap, AffSet, No, Seq};
use av_bits::{Kind9, Pred};
use av_ir::{Const, Marks, Op, OpKind, Ty, ValueId};
use av_tree::{Attr, Named, TypeText};
use std::alloc::{AllocError, Global};

/// The properties of an operation, in the order in which its own form has them.
pub(crate) fn properties(alloc: Global, types: &[Ty], op: &Op) -> Result<Seq<Named>, AllocError>
    ensures { let x = out-Op op.now in IfOk result (λ p. p ≡ properties_of types.now x.kind (length x.operands) x.results) }
{
    match &op.kind {
        OpKind::ArithConstant(value) => {
            typed_value(alloc, value, first_type(types, op.results.as_slice()))
        }
        OpKind::ArithCmpi(pred) => one_property(
            alloc,
            b"predicate",
            number(alloc, predicate_number(*pred), b"i64")?,
        ),
        OpKind::AffineFor { lower, upper, step } => {
            loop_properties(alloc, lower, upper, *step, op.operands.len() as u64)
        }
        OpKind::AffineIf(set) => {
            one_property(alloc, b"condition", Attr::Set(set_text(alloc, set)?))
        }
        OpKind::AffineApply(map)
        | OpKind::AffineMin(map)
        | OpKind::AffineMax(map)
        | OpKind::AffineLoad(map)
        | OpKind::AffineStore(map) => {
            one_property(alloc, b"map", Attr::Map(map_text(alloc, map)?))
        }
        OpKind::VectorReduction(kind) => one_property(alloc, b"kind", combining(alloc, *kind)?),
        OpKind::VectorExtract(at) | OpKind::VectorInsert(at) => one_property(
            alloc,
            b"static_position",
            numbers(alloc, at.as_slice())?,
        ),
        OpKind::VectorShuffle(picks) => {
            one_property(alloc, b"mask", numbers(alloc, picks.as_slice())?)
        }
        OpKind::FuncReturn
        | OpKind::ArithBinary(_)
        | OpKind::ArithSelect
        | OpKind::ArithCast(_)
        | OpKind::AffineYield
        | OpKind::MemrefLoad
        | OpKind::MemrefStore
        | OpKind::MemrefDim
        | OpKind::ScfFor
        | OpKind::ScfYield
        | OpKind::VectorLoad
        | OpKind::VectorStore
        | OpKind::VectorMaskedLoad
        | OpKind::VectorMaskedStore
        | OpKind::VectorGather
        | OpKind::VectorScatter
        | OpKind::VectorBroadcast
        | OpKind::VectorCreateMask
        | OpKind::VectorStep
        | OpKind::VectorVscale => Ok(Seq::new(alloc)),
    }
}

// A property alone.
fn one_property(alloc: Global, name: &[u8], value: Attr) -> Result<Seq<Named>, AllocError>
    ensures { IfOk result (λ p. p ≡ entry_of name.now value ∷ []) }
{
    let mut properties = Seq::new(alloc);
    properties.push(entry(alloc, name, value)?)?;
    Ok(properties)
}

fn predicate_number(pred: Pred) -> u64
    ensures { result ≡ predicate_of pred }
{
    match pred {
        Pred::Eq => 0,
        Pred::Ne => 1,
        Pred::Slt => 2,
        Pred::Sle => 3,
        Pred::Sgt => 4,
        Pred::Sge => 5,
        Pred::Ult => 6,
        Pred::Ule => 7,
        Pred::Ugt => 8,
        Pred::Uge => 9,
    }
}

fn combining(alloc: Global, kind: Kind9) -> Result<Attr, AllocError>
    ensures { IfOk result (λ a. a ≡ combining_of kind) }
{
    let mut words = Seq::new(alloc);
    words.push(text_of(alloc, combining_name(kind))?)?;
    Ok(Attr::Hash {
        name: text_of(alloc, b"#vector.kind")?,
        words,
    })
}

// Positions of elements.
fn numbers(alloc: Global, positions: &[u16]) -> Result<Attr, AllocError>
    ensures { IfOk result (λ a. a ≡ numbers_of positions.now) }
{
    let mut numbers = Seq::new(alloc);
    for position in positions {
        numbers.push(i128::from(*position))?;
    }
    Ok(Attr::Array {
        elem: scalar(alloc, b"i64")?,
        numbers,
    })
}

fn first_type<'a>(types: &'a [Ty], results: &[ValueId]) -> Option<&'a Ty>
    ensures { option_copied result ≡ type_first types.now results.now }
{
    match results {
        [result, ..] => types.get(result.0 as usize),
        [] => None,
    }
}

fn typed_value(alloc: Global, value: &Const, ty: Option<&Ty>) -> Result<Seq<Named>, AllocError>
    ensures { IfOk result (λ p. p ≡ value_typed value.now (option_copied ty.entry)) }
{
    let mut properties = Seq::new(alloc);
    if let Some(ty) = ty {
        let value = constant(alloc, value, ty)?;
        properties.push(entry(alloc, b"value", value)?)?;
    }
    Ok(properties)
}

fn loop_properties(
    alloc: Global,
    lower: &AffMap,
    upper: &AffMap,
    step: u64,
    operands: u64,
) -> Result<Seq<Named>, AllocError>
    ensures { IfOk result (λ p. p ≡
        entry_of (codes "operandSegmentSizes") (segments_of lower.now upper.now operands)
        ∷ entry_of (codes "step") (number_of (codes "index") step)
        ∷ map_entry (codes "lowerBoundMap") lower.now
        ∷ map_entry (codes "upperBoundMap") upper.now
        ∷ []) }
{
    let mut properties = Seq::new(alloc);
    let segments = segments(alloc, lower, upper, operands)?;
    properties.push(entry(alloc, b"operandSegmentSizes", segments)?)?;
    let step = number(alloc, step, b"index")?;
    properties.push(entry(alloc, b"step", step)?)?;
    push_map(alloc, &mut properties, b"lowerBoundMap", lower)?;
    push_map(alloc, &mut properties, b"upperBoundMap", upper)?;
    Ok(properties)
}

// How many operands the lower map has, the upper map, and the rest.
fn segments(
    alloc: Global,
    lower: &AffMap,
    upper: &AffMap,
    operands: u64,
) -> Result<Attr, AllocError>
    ensures { IfOk result (λ a. a ≡ segments_of lower.now upper.now operands) }
{
    let below = operands_of(lower);
    let above = operands_of(upper);
    let others = i128::from(operands) - below - above;
    let mut numbers = Seq::new(alloc);
    numbers.push(below)?;
    numbers.push(above)?;
    numbers.push(others)?;
    Ok(Attr::Array {
        elem: scalar(alloc, b"i32")?,
        numbers,
    })
}

fn operands_of(map: &AffMap) -> i128
    ensures value { result ≡ pos (map.now.dims + map.now.syms) }
    ensures bound { map.now.dims + map.now.syms < 2 ^ 65 }
{
    let dims = map.dims;
    let syms = map.syms;
    i128::from(dims) + i128::from(syms)
}

fn number(alloc: Global, value: u64, ty: &[u8]) -> Result<Attr, AllocError>
    ensures { IfOk result (λ a. a ≡ number_of ty.now value) }
{
    Ok(Attr::Number {
        value: i128::from(value),
        ty: scalar(alloc, ty)?,
    })
}

fn push_map(
    alloc: Global,
    properties: &mut Seq<Named>,
    name: &[u8],
    map: &AffMap,
) -> Result<(), AllocError>
    ensures { OnOk result (properties.new ≡ properties.old ++ map_entry name.now map.now ∷ []) }
{
    let map = Attr::Map(map_text(alloc, map)?);
    properties.push(entry(alloc, name, map)?)
}

/// The properties of a function.
pub(crate) fn function_properties(
    alloc: Global,
    name: &[u8],
    inputs: Seq<TypeText>,
    results: Seq<TypeText>,
) -> Result<Seq<Named>, AllocError>
    ensures { IfOk result (λ p. p ≡ function_properties_of name.now inputs results) }
{
    let mut properties = Seq::new(alloc);
    let ty = Attr::Type(TypeText::Func { inputs, results });
    properties.push(entry(alloc, b"function_type", ty)?)?;
    let name = Attr::Quoted(text_of(alloc, name)?);
    properties.push(entry(alloc, b"sym_name", name)?)?;
    Ok(properties)
}

/// Marks as attributes, in order of name.
pub(crate) fn mark_attributes(alloc: Global, marks: &Marks) -> Result<Seq<Named>, AllocError>
    ensures { IfOk result (λ a. a ≡ marks_of marks.now) }
{
    let mut attributes = distinct_attribute(alloc, marks.distinct)?;
    push_mark(alloc, &mut attributes, b"affvec.loop", marks.loop_no)?;
    push_mark(alloc, &mut attributes, b"affvec.of", marks.source)?;
    Ok(attributes)
}

fn distinct_attribute(alloc: Global, distinct: bool) -> Result<Seq<Named>, AllocError>
    ensures { IfOk result (λ a. a ≡ distinct_mark distinct) }
{
    let mut attributes = Seq::new(alloc);
    if distinct {
        attributes.push(entry(alloc, b"affvec.distinct", Attr::Unit)?)?;
    }
    Ok(attributes)
}

fn push_mark(
    alloc: Global,
    attributes: &mut Seq<Named>,
    name: &[u8],
    mark: Option<No>,
) -> Result<(), AllocError>
    ensures { OnOk result (attributes.new ≡ attributes.old ++ number_mark name.now mark) }
{
    if let Some(value) = mark {
        let value = number(alloc, value, b"i64")?;
        attributes.push(entry(alloc, name, value)?)?;
    }
    Ok(())
}
