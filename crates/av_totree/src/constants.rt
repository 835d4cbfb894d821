//! The values of constants.

ghost use Rattle.std.specs.Prelude.{◌≡◌, ◌/◌, IfOk, length, map};
ghost use Rattle.av_totree.specs.Constants.{constant_of, element_of, elements_of, first_of as first_pattern, nested_of, pieces, scalar_of, one_of};
ghost use Rattle.av_totree.specs.Types.{type_of};

use crate::types::type_text;
use av_affine::Seq;
use av_bits::{Width, signed, wrap};
use av_ir::{Const, Elem, Ty};
use av_shapes::Shape;
use av_tree::{Attr, Element};
use std::alloc::{AllocError, Global};

/// A constant of a type: a signed number, or a truth value of i1, in `dense` for a vector.
pub(crate) fn constant(alloc: Global, value: &Const, ty: &Ty) -> Result<Attr, AllocError>
    ensures { IfOk result (λ a. a ≡ constant_of ty.now value.now) }
{
    match ty {
        Ty::Scalar(elem) | Ty::MemRef { elem, .. } => {
            scalar_constant(alloc, value_of(first_of(value), *elem), ty)
        }
        Ty::Vector { shape, elem } => Ok(Attr::Dense {
            elements: elements(alloc, value, shape, *elem)?,
            ty: type_text(alloc, ty)?,
        }),
    }
}

/// The value of one element.
#[derive(Clone, Copy, Debug, Drop, PartialEq, Eq)]
enum OneValue {
    Truth(bool),
    Number(i128),
}

fn value_of(pattern: u64, elem: Elem) -> OneValue
    ensures { result ≡ one_of elem pattern }
{
    let width = match elem {
        Elem::Int(Width::W1) => return OneValue::Truth(pattern % 2 == 1),
        Elem::Int(width) => width,
        Elem::Index => Width::W64,
    };
    OneValue::Number(i128::from(signed(width, wrap(width, i128::from(pattern)))))
}

fn first_of(value: &Const) -> u64
    ensures { result ≡ first_pattern value.now }
{
    match value {
        Const::Splat(pattern) => *pattern,
        Const::Each(patterns) => patterns.get(0).copied().unwrap_or(0),
    }
}

fn scalar_constant(alloc: Global, value: OneValue, ty: &Ty) -> Result<Attr, AllocError>
    ensures { IfOk result (λ a. a ≡ scalar_of (type_of ty.now) value) }
{
    match value {
        OneValue::Truth(value) => Ok(Attr::Bool(value)),
        OneValue::Number(value) => Ok(Attr::Number {
            value,
            ty: type_text(alloc, ty)?,
        }),
    }
}

fn elements(alloc: Global, value: &Const, shape: &Shape, elem: Elem) -> Result<Element, AllocError>
    ensures { IfOk result (λ e. e ≡ elements_of shape.now.sizes elem value.now) }
{
    match value {
        Const::Splat(pattern) => Ok(element(value_of(*pattern, elem))),
        Const::Each(patterns) => nested(alloc, shape.sizes(), patterns.as_slice(), elem),
    }
}

fn element(value: OneValue) -> Element
    ensures { result ≡ element_of value }
{
    match value {
        OneValue::Truth(value) => Element::Bool(value),
        OneValue::Number(value) => Element::Number(value),
    }
}

// Patterns in row-major order as lists of lists, one level for each size.
#[cycle(nesting)]
fn nested(alloc: Global, sizes: &[u16], patterns: &[u64], elem: Elem) -> Result<Element, AllocError>
    ensures { IfOk result (λ e. e ≡ nested_of sizes.now elem patterns.now) }
{
    match sizes {
        [size, inner @ ..] => Ok(Element::List(parts(alloc, *size, inner, patterns, elem)?)),
        [] => Ok(element(value_of(patterns.first().copied().unwrap_or(0), elem))),
    }
}

// So many parts of one length, each nested.
#[cycle(nesting)]
fn parts(
    alloc: Global,
    count: u16,
    sizes: &[u16],
    patterns: &[u64],
    elem: Elem,
) -> Result<Seq<Element>, AllocError>
    ensures { IfOk result (λ e. e ≡ map (nested_of sizes.now elem) (pieces count (length patterns.now / count) patterns.now)) }
{
    let each = patterns.len() / usize::from(count).max(1);
    let mut parts = Seq::new(alloc);
    let mut others = patterns;
    for _done in 0..count {
        let (now, later) = others.split_at(each.min(others.len()));
        parts.push(nested(alloc, sizes, now, elem)?)?;
        others = later;
    }
    Ok(parts)
}
