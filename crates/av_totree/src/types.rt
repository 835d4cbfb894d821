//! Types.

ghost use Rattle.std.specs.Prelude.{◌≡◌, ◌&&◌, map, if◌then◌else◌, IfOk};
ghost use Rattle.av_tree.specs.declared.written.TypeText.TheVariants as text;
ghost use Rattle.av_tree.specs.declared.written.DimText.TheVariants as dim;
ghost use Rattle.av_totree.specs.Types.{dims_of as dims_text, elem_name as name_of_elem, size_of, type_of};

use crate::texts::text_of;
use av_affine::{Seq, Text};
use av_bits::Width;
use av_ir::{Elem, Extent, Ty};
use av_shapes::Shape;
use av_tree::{DimText, SizeText, TypeText};
use std::alloc::{AllocError, Global};

pub(crate) fn type_text(alloc: Global, ty: &Ty) -> Result<TypeText, AllocError>
    ensures { IfOk result (λ t. t ≡ type_of ty.now) }
{
    match ty {
        Ty::Scalar(elem) => scalar(alloc, elem_name(*elem)),
        Ty::MemRef { sizes, elem } => Ok(TypeText::MemRef {
            sizes: sizes_of(alloc, sizes.as_slice())?,
            elem: elem_text(alloc, *elem)?,
            layout: None,
        }),
        Ty::Vector { shape, elem } => Ok(TypeText::Vector {
            dims: dims_of(alloc, shape.sizes(), shape.is_scalable())?,
            elem: elem_text(alloc, *elem)?,
        }),
    }
}

pub(crate) fn scalar(alloc: Global, name: &[u8]) -> Result<TypeText, AllocError>
    ensures { IfOk result (λ t. t ≡ text.Scalar name.now) }
{
    Ok(TypeText::Scalar(text_of(alloc, name)?))
}

pub(crate) fn type_texts(alloc: Global, types: &[Ty]) -> Result<Seq<TypeText>, AllocError>
    ensures { IfOk result (λ t. t ≡ map type_of types.now) }
{
    let mut texts = Seq::new(alloc);
    for ty in types {
        texts.push(type_text(alloc, ty)?)?;
    }
    Ok(texts)
}

fn elem_text(alloc: Global, elem: Elem) -> Result<Text, AllocError>
    ensures { IfOk result (λ t. t ≡ name_of_elem elem) }
{
    text_of(alloc, elem_name(elem))
}

fn elem_name(elem: Elem) -> &'static [u8]
    ensures { result.now ≡ name_of_elem elem }
{
    match elem {
        Elem::Index => b"index",
        Elem::Int(Width::W1) => b"i1",
        Elem::Int(Width::W8) => b"i8",
        Elem::Int(Width::W16) => b"i16",
        Elem::Int(Width::W32) => b"i32",
        Elem::Int(Width::W64) => b"i64",
    }
}

fn sizes_of(alloc: Global, sizes: &[Extent]) -> Result<Seq<SizeText>, AllocError>
    ensures { IfOk result (λ t. t ≡ map size_of sizes.now) }
{
    let mut texts = Seq::new(alloc);
    for size in sizes {
        texts.push(size_text(*size))?;
    }
    Ok(texts)
}

fn size_text(size: Extent) -> SizeText
    ensures { result ≡ size_of size }
{
    match size {
        Extent::Fixed(size) => SizeText::Fixed(u128::from(size)),
        Extent::Dyn => SizeText::Dynamic,
    }
}

// The dimensions of a vector; where it is scalable, the last one counts times the scale.
fn dims_of(alloc: Global, sizes: &[u16], scalable: bool) -> Result<Seq<DimText>, AllocError>
    ensures { IfOk result (λ t. t ≡ dims_text scalable sizes.now) }
{
    let mut texts = Seq::new(alloc);
    for (place, size) in sizes.iter().enumerate() {
        texts.push(dim_text(*size, scalable && place + 1 == sizes.len()))?;
    }
    Ok(texts)
}

fn dim_text(size: u16, times_scale: bool) -> DimText
    ensures { result ≡ (if times_scale then dim.Scalable size else dim.Fixed size) }
{
    let size = u128::from(size);
    if times_scale {
        DimText::Scalable(size)
    } else {
        DimText::Fixed(size)
    }
}
