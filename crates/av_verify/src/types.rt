//! Types as they are written, and the types of values.

ghost use Rattle.std.specs.Prelude.{◌≡◌, true, Some, IfOk};
ghost use Rattle.std.specs.Cmp.Lexicographic.{pointwise};
ghost use Rattle.std.specs.List.{list_all};
ghost use Rattle.std.specs.Option.{SomeIff};
ghost use Rattle.av_tree.specs.declared.written.SizeText.TheVariants.{Dynamic, Fixed};
ghost use Rattle.av_tree.specs.declared.written.TypeText.{MemRef, Scalar};
ghost use Rattle.av_verify.specs.Types.{agrees, elem_of, extent_of, extents_of, is_elem, is_extent, is_small, is_type, is_within_limits, memref_of, names_elem, same_layout, same_size, same_type, scalar_of, type_of, written_scalar};

use av_affine::Seq;
use av_bits::Width;
use av_ir::{Elem, Extent, Ty};
use av_tree::{LayoutText, SizeText, TypeText};
use std::alloc::{AllocError, Global};

/// The greatest number of sizes of a memref type.
const MAX_RANK: usize = 8;

/// The greatest size of a memref type.
const MAX_SIZE: u128 = 0x7FFF_FFFF;

/// The element type of this name, if there is one.
pub(crate) fn elem_of(name: &[u8]) -> Option<Elem>
    ensures { result ≡ elem_of name.now }
{
    if name == b"index".as_slice() {
        Some(Elem::Index)
    } else if name == b"i1".as_slice() {
        Some(Elem::Int(Width::W1))
    } else if name == b"i8".as_slice() {
        Some(Elem::Int(Width::W8))
    } else if name == b"i16".as_slice() {
        Some(Elem::Int(Width::W16))
    } else if name == b"i32".as_slice() {
        Some(Elem::Int(Width::W32))
    } else if name == b"i64".as_slice() {
        Some(Elem::Int(Width::W64))
    } else {
        None
    }
}

/// The element type that a written scalar type names.
pub(crate) fn written_scalar(ty: &TypeText) -> Option<Elem>
    ensures { result ≡ written_scalar ty.now }
{
    match ty {
        TypeText::Scalar(name) => elem_of(name.as_slice()),
        _ => None,
    }
}

/// The element type of a scalar type.
pub(crate) fn scalar_of(ty: &Ty) -> Option<Elem>
    ensures { result ≡ scalar_of ty.now }
{
    match ty {
        Ty::Scalar(elem) => Some(*elem),
        _ => None,
    }
}

/// Whether a written type is that of some value. Vectors aren't taken yet.
pub(crate) fn is_type(ty: &TypeText) -> bool
    ensures { result ≡ is_type ty.now }
{
    match ty {
        TypeText::Scalar(name) | TypeText::MemRef { elem: name, .. } => {
            elem_of(name.as_slice()).is_some()
        }
        TypeText::Vector { .. } | TypeText::Func { .. } => false,
    }
}

/// Whether rank and sizes of a written type are within their limits; layouts aren't taken yet.
pub(crate) fn is_within_limits(ty: &TypeText) -> bool
    ensures { result ≡ is_within_limits ty.now }
{
    match ty {
        TypeText::MemRef { sizes, layout, .. } => layout.is_none()
            && sizes.len() <= MAX_RANK
            && are_small(sizes.as_slice()),
        _ => true,
    }
}

fn are_small(sizes: &[SizeText]) -> bool
    ensures { result ≡ list_all is_small sizes.now }
{
    sizes.iter().all(|size| is_small(*size))
}

fn is_small(size: SizeText) -> bool
    ensures { result ≡ is_small size }
{
    match size {
        SizeText::Fixed(size) => size <= MAX_SIZE,
        SizeText::Dynamic => true,
    }
}

/// Whether two types of values are written alike. Vectors aren't taken yet.
pub(crate) fn same_type(a: &TypeText, b: &TypeText) -> bool
    ensures { result ≡ same_type a.now b.now }
{
    match a {
        TypeText::Scalar(name) => is_scalar(b, name.as_slice()),
        TypeText::MemRef {
            sizes,
            elem,
            layout,
        } => is_memref(b, sizes.as_slice(), elem.as_slice(), layout),
        _ => false,
    }
}

fn is_scalar(ty: &TypeText, name: &[u8]) -> bool
    ensures { result ≡ same_type (Scalar name.now) ty.now }
{
    match ty {
        TypeText::Scalar(other) => name == other.as_slice(),
        _ => false,
    }
}

fn is_memref(ty: &TypeText, sizes: &[SizeText], elem: &[u8], layout: &Option<LayoutText>) -> bool
    ensures { result ≡ same_type (MemRef sizes.now elem.now layout.now) ty.now }
{
    match ty {
        TypeText::MemRef {
            sizes: others,
            elem: name,
            layout: placed,
        } => same_sizes(sizes, others.as_slice())
            && elem == name.as_slice()
            && same_layout(layout, placed),
        _ => false,
    }
}

fn same_layout(a: &Option<LayoutText>, b: &Option<LayoutText>) -> bool
    ensures { result ≡ same_layout a.now b.now }
{
    match a {
        Some(layout) => is_layout(b, layout),
        None => b.is_none(),
    }
}

fn is_layout(other: &Option<LayoutText>, layout: &LayoutText) -> bool
    ensures { result ≡ same_layout (Some layout.now) other.now }
{
    match other {
        Some(other) => same_sizes(layout.strides.as_slice(), other.strides.as_slice())
            && same_size(layout.offset, other.offset),
        None => false,
    }
}

fn same_sizes(a: &[SizeText], b: &[SizeText]) -> bool
    ensures { result ≡ pointwise same_size a.now b.now }
{
    if a.len() != b.len() {
        return false;
    }
    for at in 0..a.len() {
        if !same_size(a[at], b[at]) {
            return false;
        }
    }
    true
}

fn same_size(a: SizeText, b: SizeText) -> bool
    ensures { result ≡ same_size a b }
{
    match a {
        SizeText::Fixed(size) => is_fixed(b, size),
        SizeText::Dynamic => is_dynamic(b),
    }
}

fn is_fixed(size: SizeText, number: u128) -> bool
    ensures { result ≡ same_size (Fixed number) size }
{
    match size {
        SizeText::Fixed(other) => number == other,
        SizeText::Dynamic => false,
    }
}

fn is_dynamic(size: SizeText) -> bool
    ensures { result ≡ same_size Dynamic size }
{
    matches!(size, SizeText::Dynamic)
}

/// The type that a written type is, where its sizes are small.
pub(crate) fn type_of(alloc: Global, ty: &TypeText) -> Result<Option<Ty>, AllocError>
    ensures { IfOk result (λ t. t ≡ type_of ty.now) }
{
    match ty {
        TypeText::Scalar(name) => match elem_of(name.as_slice()) {
            Some(elem) => Ok(Some(Ty::Scalar(elem))),
            None => Ok(None),
        },
        TypeText::MemRef { sizes, elem, .. } => memref_of(alloc, sizes.as_slice(), elem.as_slice()),
        _ => Ok(None),
    }
}

fn memref_of(alloc: Global, sizes: &[SizeText], elem: &[u8]) -> Result<Option<Ty>, AllocError>
    ensures { IfOk result (λ t. t ≡ memref_of (elem_of elem.now) (extents_of sizes.now)) }
{
    let Some(elem) = elem_of(elem) else {
        return Ok(None);
    };
    match extents(alloc, sizes)? {
        Some(sizes) => Ok(Some(Ty::MemRef { sizes, elem })),
        None => Ok(None),
    }
}

fn extents(alloc: Global, sizes: &[SizeText]) -> Result<Option<Seq<Extent>>, AllocError>
    ensures { IfOk result (λ e. e ≡ extents_of sizes.now) }
{
    let mut extents = Seq::new(alloc);
    for size in sizes {
        match extent_of(*size) {
            Some(extent) => extents.push(extent)?,
            None => return Ok(None),
        }
    }
    Ok(Some(extents))
}

// The extent of a small size.
fn extent_of(size: SizeText) -> Option<Extent>
    ensures { SomeIff result (is_small size ≡ true) (extent_of size) }
{
    match size {
        SizeText::Fixed(size) => {
            if size <= MAX_SIZE {
                Some(Extent::Fixed(size as u64))
            } else {
                None
            }
        }
        SizeText::Dynamic => Some(Extent::Dyn),
    }
}

/// Whether a type that is written, or left out, agrees with the type of its value.
pub(crate) fn agrees(written: &Option<TypeText>, ty: &Ty) -> bool
    ensures { result ≡ agrees written.now ty.now }
{
    match written {
        None => true,
        Some(TypeText::Scalar(name)) => match ty {
            Ty::Scalar(elem) => names_elem(name.as_slice(), *elem),
            _ => false,
        },
        Some(
            TypeText::MemRef {
                sizes,
                elem: name,
                layout: None,
            },
        ) => match ty {
            Ty::MemRef {
                sizes: extents,
                elem,
            } => names_elem(name.as_slice(), *elem)
                && are_extents(sizes.as_slice(), extents.as_slice()),
            _ => false,
        },
        Some(_) => false,
    }
}

fn names_elem(name: &[u8], elem: Elem) -> bool
    ensures { result ≡ names_elem name.now elem }
{
    match elem_of(name) {
        Some(named) => is_elem(elem, named),
        None => false,
    }
}

/// Whether two element types are the same.
pub(crate) fn is_elem(elem: Elem, other: Elem) -> bool
    ensures { result ≡ is_elem elem other }
{
    match elem {
        Elem::Index => matches!(other, Elem::Index),
        Elem::Int(width) => match other {
            Elem::Int(other) => width == other,
            Elem::Index => false,
        },
    }
}

// Both lists end together, so nothing is looked at past the end of the shorter one.
fn are_extents(sizes: &[SizeText], extents: &[Extent]) -> bool
    ensures { result ≡ pointwise is_extent sizes.now extents.now }
{
    match sizes {
        [] => extents.is_empty(),
        [size, sizes @ ..] => match extents {
            [] => false,
            [extent, extents @ ..] => is_extent(*size, *extent) && are_extents(sizes, extents),
        },
    }
}

fn is_extent(size: SizeText, extent: Extent) -> bool
    ensures { result ≡ is_extent size extent }
{
    match size {
        SizeText::Fixed(size) => match extent {
            Extent::Fixed(extent) => size == u128::from(extent),
            Extent::Dyn => false,
        },
        SizeText::Dynamic => matches!(extent, Extent::Dyn),
    }
}
