//! Classes of types, and how two types are related.

ghost use Rattle.std.specs.Prelude.{◌≡◌, [], ◌∷◌, IfOk};
ghost use Rattle.std.specs.Cmp.Lexicographic.{pointwise};
ghost use Rattle.av_ir.specs.declared.ty.Ty.TheVariants.{MemRef, Scalar, Vector};
ghost use Rattle.av_ir.specs.declared.ty.Extent.TheVariants.{Fixed};
ghost use Rattle.av_types.specs.Relations.{element_of, fits_behind, is_elem, is_extent, is_index, is_memref, is_scalar, is_truth, is_vector, part_of, rank_of, same_elements, same_sizes, same_type, stretch, stretches_to, with_elements};

use av_affine::Duplicate;
use av_bits::Width;
use av_ir::{Elem, Extent, Ty};
use av_shapes::Shape;
use std::alloc::{AllocError, Global};

/// Whether a type is that of one integer or index.
pub fn is_scalar(ty: &Ty) -> bool
    ensures { result ≡ is_scalar ty.now }
{
    matches!(ty, Ty::Scalar(_))
}

/// Whether a type is that of vectors.
pub fn is_vector(ty: &Ty) -> bool
    ensures { result ≡ is_vector ty.now }
{
    matches!(ty, Ty::Vector { .. })
}

/// Whether a type is that of buffers.
pub fn is_memref(ty: &Ty) -> bool
    ensures { result ≡ is_memref ty.now }
{
    matches!(ty, Ty::MemRef { .. })
}

/// The number of sizes of a type.
pub fn rank_of(ty: &Ty) -> usize
    ensures { result ≡ rank_of ty.now }
{
    match ty {
        Ty::Scalar(_) => 0,
        Ty::MemRef { sizes, .. } => sizes.len(),
        Ty::Vector { shape, .. } => shape.rank(),
    }
}

/// The type of the elements; a scalar is its one element.
pub fn element_of(ty: &Ty) -> Elem
    ensures { result ≡ element_of ty.now }
{
    match ty {
        Ty::Scalar(elem) | Ty::MemRef { elem, .. } | Ty::Vector { elem, .. } => *elem,
    }
}

/// Whether two element types are the same.
pub fn is_elem(elem: Elem, other: Elem) -> bool
    ensures { result ≡ is_elem elem other }
{
    match elem {
        Elem::Index => matches!(other, Elem::Index),
        Elem::Int(width) => match other {
            Elem::Int(other) => width == other,
            Elem::Index => false,
        },
    }
}

/// Whether an element type is `index`.
pub fn is_index(elem: Elem) -> bool
    ensures { result ≡ is_index elem }
{
    matches!(elem, Elem::Index)
}

/// Whether an element type is that of truth values.
pub fn is_truth(elem: Elem) -> bool
    ensures { result ≡ is_truth elem }
{
    is_elem(elem, Elem::Int(Width::W1))
}

/// Whether two sizes of memref types are the same.
pub fn is_extent(extent: Extent, other: Extent) -> bool
    ensures { result ≡ is_extent extent other }
{
    match extent {
        Extent::Fixed(size) => is_fixed(other, size),
        Extent::Dyn => matches!(other, Extent::Dyn),
    }
}

fn is_fixed(extent: Extent, size: u64) -> bool
    ensures { result ≡ is_extent (Fixed size) extent }
{
    match extent {
        Extent::Fixed(other) => size == other,
        Extent::Dyn => false,
    }
}

/// Whether two types have the same form and the same sizes.
pub fn same_sizes(a: &Ty, b: &Ty) -> bool
    ensures { result ≡ same_sizes a.now b.now }
{
    match a {
        Ty::Scalar(_) => is_scalar(b),
        Ty::MemRef { sizes, .. } => has_extents(b, sizes.as_slice()),
        Ty::Vector { shape, .. } => has_shape(b, shape),
    }
}

fn has_extents(ty: &Ty, extents: &[Extent]) -> bool
    ensures { (elem : _) → result ≡ same_sizes (MemRef extents.now elem) ty.now }
{
    match ty {
        Ty::MemRef { sizes, .. } => are_extents(extents, sizes.as_slice()),
        _ => false,
    }
}

fn are_extents(extents: &[Extent], others: &[Extent]) -> bool
    ensures { result ≡ pointwise is_extent extents.now others.now }
{
    if extents.len() != others.len() {
        return false;
    }
    for at in 0..extents.len() {
        if !is_extent(extents[at], others[at]) {
            return false;
        }
    }
    true
}

fn has_shape(ty: &Ty, shape: &Shape) -> bool
    ensures { (elem : _) → result ≡ same_sizes (Vector shape.now elem) ty.now }
{
    match ty {
        Ty::Vector { shape: other, .. } => shape == other,
        _ => false,
    }
}

/// Whether two types have the same elements.
pub fn same_elements(a: &Ty, b: &Ty) -> bool
    ensures { result ≡ same_elements a.now b.now }
{
    is_elem(element_of(a), element_of(b))
}

/// Whether two types are the same.
pub fn same_type(a: &Ty, b: &Ty) -> bool
    ensures { result ≡ same_type a.now b.now }
{
    same_sizes(a, b) && same_elements(a, b)
}

/// The type of this form and these sizes with other elements.
///
/// # Errors
///
/// Want of memory.
pub fn with_elements(alloc: Global, ty: &Ty, elem: Elem) -> Result<Ty, AllocError>
    ensures { IfOk result (λ t. t ≡ with_elements ty.now elem) }
{
    match ty {
        Ty::Scalar(_) => Ok(Ty::Scalar(elem)),
        Ty::MemRef { sizes, .. } => Ok(Ty::MemRef {
            sizes: sizes.duplicate(alloc)?,
            elem,
        }),
        Ty::Vector { shape, .. } => Ok(Ty::Vector {
            shape: shape.copy(),
            elem,
        }),
    }
}

/// The type of what stands at so many positions of the leading dimensions of a vector.
///
/// # Errors
///
/// Want of memory.
pub fn part_of(alloc: Global, ty: &Ty, positions: usize) -> Result<Ty, AllocError>
    ensures { IfOk result (λ t. t ≡ part_of ty.now positions) }
{
    match ty {
        Ty::Vector { shape, elem } => Ok(part(alloc, shape, *elem, positions)),
        _ => ty.duplicate(alloc),
    }
}

fn part(alloc: Global, shape: &Shape, elem: Elem, positions: usize) -> Ty
    ensures { result ≡ part_of (Vector shape.now elem) positions }
{
    if positions < shape.rank() {
        let shape = Shape::new(alloc, &shape.sizes()[positions..], shape.is_scalable());
        Ty::Vector { shape, elem }
    } else {
        Ty::Scalar(elem)
    }
}

/// Whether values of a type can be repeated and stretched to fill vectors of another one.
pub fn stretches_to(a: &Ty, b: &Ty) -> bool
    ensures { result ≡ stretches_to a.now b.now }
{
    match b {
        Ty::Vector { shape, elem } => fills(a, shape, *elem),
        _ => false,
    }
}

fn fills(ty: &Ty, other: &Shape, to: Elem) -> bool
    ensures { result ≡ stretches_to ty.now (Vector other.now to) }
{
    match ty {
        Ty::Scalar(elem) => is_elem(*elem, to),
        Ty::MemRef { .. } => false,
        Ty::Vector { shape, elem } => is_elem(*elem, to) && fits_behind(shape, other),
    }
}

// Whether the dimensions are those at the end of another shape's, each the same or stretched from 1.
fn fits_behind(shape: &Shape, other: &Shape) -> bool
    ensures { result ≡ fits_behind shape.now other.now }
{
    if shape.rank() <= other.rank() {
        let behind = &other.sizes()[other.rank() - shape.rank()..];
        stretch(
            shape.sizes(),
            shape.is_scalable(),
            behind,
            other.is_scalable(),
        )
    } else {
        false
    }
}

fn stretch(sizes: &[u16], scales: bool, others: &[u16], scaled: bool) -> bool
    ensures { result ≡ stretch sizes.now scales others.now scaled }
{
    match sizes {
        [] => others.is_empty(),
        [size] => stretches_last(*size, scales, others, scaled),
        [size, sizes @ ..] => match others {
            [] => false,
            [other, others @ ..] => {
                (*size == *other || *size == 1) && stretch(sizes, scales, others, scaled)
            }
        },
    }
}

fn stretches_last(size: u16, scales: bool, others: &[u16], scaled: bool) -> bool
    ensures { result ≡ stretch (size ∷ []) scales others.now scaled }
{
    match others {
        [other] => (size == *other && scales == scaled) || (size == 1 && !scales),
        _ => false,
    }
}
