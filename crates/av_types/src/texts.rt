//! What is asked of a type as it is written.

ghost use Rattle.std.specs.Prelude.{◌≡◌, ◌-◌, ◌^◌, min, map};
ghost use Rattle.std.specs.List.{list_all, list_any};
ghost use Rattle.av_shapes.specs.Shape.{product};
ghost use Rattle.av_tree.specs.declared.written.TypeText.{MemRef, Vector};
ghost use Rattle.av_types.specs.Texts.{elem_of, is_positive, is_scalable, is_small, is_trailing, is_type, is_vector_text, is_within_limits, scales_last, size_of};

use av_bits::Width;
use av_ir::Elem;
use av_tree::{DimText, SizeText, TypeText};

/// The greatest number of sizes of a memref type.
const MAX_RANK: usize = 8;

/// The greatest size of a memref type.
const MAX_SIZE: u128 = 0x7FFF_FFFF;

/// The greatest number of dimensions of a vector type.
const MAX_VECTOR_RANK: usize = 3;

/// The greatest number of lanes of a vector type at scale 1.
const MAX_LANES: u128 = 256;

/// The element type of this name, if there is one.
pub fn elem_of(name: &[u8]) -> Option<Elem>
    ensures { result ≡ elem_of name.now }
{
    if name == b"index".as_slice() {
        Some(Elem::Index)
    } else if name == b"i1".as_slice() {
        Some(Elem::Int(Width::W1))
    } else if name == b"i8".as_slice() {
        Some(Elem::Int(Width::W8))
    } else if name == b"i16".as_slice() {
        Some(Elem::Int(Width::W16))
    } else if name == b"i32".as_slice() {
        Some(Elem::Int(Width::W32))
    } else if name == b"i64".as_slice() {
        Some(Elem::Int(Width::W64))
    } else {
        None
    }
}

/// Whether some value has a type that is written so: its element type is known, and a vector has dimensions of at least one.
pub fn is_type(ty: &TypeText) -> bool
    ensures { result ≡ is_type ty.now }
{
    match ty {
        TypeText::Scalar(name) | TypeText::MemRef { elem: name, .. } => {
            elem_of(name.as_slice()).is_some()
        }
        TypeText::Vector { dims, elem } => is_vector_type(dims.as_slice(), elem.as_slice()),
        TypeText::Func { .. } => false,
    }
}

fn is_vector_type(dims: &[DimText], elem: &[u8]) -> bool
    ensures { result ≡ is_type (Vector dims.now elem.now) }
{
    !dims.is_empty() && elem_of(elem).is_some() && are_positive(dims)
}

fn are_positive(dims: &[DimText]) -> bool
    ensures { result ≡ list_all is_positive dims.now }
{
    dims.iter().all(|dim| is_positive(*dim))
}

fn is_positive(dim: DimText) -> bool
    ensures { result ≡ is_positive dim }
{
    match dim {
        DimText::Fixed(size) | DimText::Scalable(size) => 0 < size,
        DimText::Dynamic => false,
    }
}

/// Whether rank and sizes of a written type are within their limits. A layout isn't taken yet.
pub fn is_within_limits(ty: &TypeText) -> bool
    ensures { result ≡ is_within_limits ty.now }
{
    match ty {
        TypeText::MemRef { sizes, layout, .. } => {
            layout.is_none() && sizes.len() <= MAX_RANK && are_small(sizes.as_slice())
        }
        TypeText::Vector { dims, .. } => {
            dims.len() <= MAX_VECTOR_RANK && lanes(dims.as_slice()) <= MAX_LANES
        }
        TypeText::Scalar(_) | TypeText::Func { .. } => true,
    }
}

fn are_small(sizes: &[SizeText]) -> bool
    ensures { result ≡ list_all is_small sizes.now }
{
    sizes.iter().all(|size| is_small(*size))
}

fn is_small(size: SizeText) -> bool
    ensures { result ≡ is_small size }
{
    match size {
        SizeText::Fixed(size) => size <= MAX_SIZE,
        SizeText::Dynamic => true,
    }
}

// The number of lanes at scale 1, or the greatest number.
fn lanes(dims: &[DimText]) -> u128
    ensures { result ≡ min (product (map size_of dims.now)) (2 ^ 128 - 1) }
{
    match dims {
        [] => 1,
        [dim, dims @ ..] => size_of(*dim).saturating_mul(lanes(dims)),
    }
}

/// The size of a dimension at scale 1; 0 where it has none.
pub(crate) fn size_of(dim: DimText) -> u128
    ensures { result ≡ size_of dim }
{
    match dim {
        DimText::Fixed(size) | DimText::Scalable(size) => size,
        DimText::Dynamic => 0,
    }
}

/// Whether some dimension counts times the scale.
pub(crate) fn are_scalable(dims: &[DimText]) -> bool
    ensures { result ≡ list_any is_scalable dims.now }
{
    dims.iter().any(|dim| is_scalable(*dim))
}

fn is_scalable(dim: DimText) -> bool
    ensures { result ≡ is_scalable dim }
{
    matches!(dim, DimText::Scalable(_))
}

/// Whether no dimension of a vector type but the last is scalable.
pub fn is_trailing(ty: &TypeText) -> bool
    ensures { result ≡ is_trailing ty.now }
{
    match ty {
        TypeText::Vector { dims, .. } => scales_last(dims.as_slice()),
        _ => true,
    }
}

fn scales_last(dims: &[DimText]) -> bool
    ensures { result ≡ scales_last dims.now }
{
    !are_scalable(&dims[..dims.len().saturating_sub(1)])
}

/// Whether a written type is that of vectors.
pub fn is_vector_text(ty: &TypeText) -> bool
    ensures { result ≡ is_vector_text ty.now }
{
    matches!(ty, TypeText::Vector { .. })
}
