//! The type that a written type is.

ghost use Rattle.std.specs.Prelude.{◌≡◌, ◌≤◌, true, All, IfOk, map, None};
ghost use Rattle.std.specs.List.{list_all};
ghost use Rattle.av_shapes.specs.Shape.{AreSizes};
ghost use Rattle.av_tree.specs.declared.written.TypeText.{MemRef, Vector};
ghost use Rattle.av_types.specs.Texts.{is_small, size_of};
ghost use Rattle.av_types.specs.Types.{extent_of, is_taken, named_type, shape_of, type_of};

use super::texts::{are_scalable, elem_of, is_trailing, is_type, is_within_limits, size_of};
use av_affine::Seq;
use av_ir::{Extent, Ty};
use av_shapes::Shape;
use av_tree::{DimText, SizeText, TypeText};
use std::alloc::{AllocError, Global};

/// The type that a written type is; none where it is no type, is over a limit, or is scalable before its end.
///
/// # Errors
///
/// Want of memory.
pub fn type_of(alloc: Global, ty: &TypeText) -> Result<Option<Ty>, AllocError>
    ensures { IfOk result (λ t. t ≡ type_of ty.now) }
{
    if is_taken(ty) {
        named_type(alloc, ty)
    } else {
        Ok(None)
    }
}

fn is_taken(ty: &TypeText) -> bool
    ensures { result ≡ is_taken ty.now }
{
    is_type(ty) && is_within_limits(ty) && is_trailing(ty)
}

fn named_type(alloc: Global, ty: &TypeText) -> Result<Option<Ty>, AllocError>
    requires { is_taken ty.now ≡ true }
    ensures { IfOk result (λ t. t ≡ named_type ty.now) }
{
    match ty {
        TypeText::Scalar(name) => match elem_of(name.as_slice()) {
            Some(elem) => Ok(Some(Ty::Scalar(elem))),
            None => Ok(None),
        },
        TypeText::MemRef { sizes, elem, .. } => memref(alloc, sizes.as_slice(), elem.as_slice()),
        TypeText::Vector { dims, elem } => vector(alloc, dims.as_slice(), elem.as_slice()),
        TypeText::Func { .. } => Ok(None),
    }
}

fn memref(alloc: Global, sizes: &[SizeText], name: &[u8]) -> Result<Option<Ty>, AllocError>
    requires { list_all is_small sizes.now ≡ true }
    ensures { IfOk result (λ t. t ≡ named_type (MemRef sizes.now name.now None)) }
{
    let Some(elem) = elem_of(name) else {
        return Ok(None);
    };
    let sizes = extents(alloc, sizes)?;
    Ok(Some(Ty::MemRef { sizes, elem }))
}

fn extents(alloc: Global, sizes: &[SizeText]) -> Result<Seq<Extent>, AllocError>
    requires { list_all is_small sizes.now ≡ true }
    ensures { IfOk result (λ e. e ≡ map extent_of sizes.now) }
{
    let mut extents = Seq::new(alloc);
    for size in sizes {
        extents.push(extent_of(*size))?;
    }
    Ok(extents)
}

// The extent of a small size.
fn extent_of(size: SizeText) -> Extent
    requires { is_small size ≡ true }
    ensures { result ≡ extent_of size }
{
    match size {
        SizeText::Fixed(size) => Extent::Fixed(size as u64),
        SizeText::Dynamic => Extent::Dyn,
    }
}

fn vector(alloc: Global, dims: &[DimText], name: &[u8]) -> Result<Option<Ty>, AllocError>
    requires { is_taken (Vector dims.now name.now) ≡ true }
    ensures { IfOk result (λ t. t ≡ named_type (Vector dims.now name.now)) }
{
    let Some(elem) = elem_of(name) else {
        return Ok(None);
    };
    let shape = shape_of(alloc, dims)?;
    Ok(Some(Ty::Vector { shape, elem }))
}

fn shape_of(alloc: Global, dims: &[DimText]) -> Result<Shape, AllocError>
    requires { AreSizes (map size_of dims.now) }
    ensures { IfOk result (λ s. s ≡ shape_of dims.now) }
{
    let sizes = sizes_of(alloc, dims)?;
    Ok(Shape::new(alloc, sizes.as_slice(), are_scalable(dims)))
}

fn sizes_of(alloc: Global, dims: &[DimText]) -> Result<Seq<u16>, AllocError>
    requires { AreSizes (map size_of dims.now) }
    ensures { IfOk result (λ s. s ≡ map size_of dims.now) }
{
    let mut sizes = Seq::new(alloc);
    for dim in dims {
        sizes.push(size_of(*dim) as u16)?;
    }
    Ok(sizes)
}
