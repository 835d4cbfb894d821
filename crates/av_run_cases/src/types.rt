//! Types as words: `i8`, `index`, `memref<?x4xi32>`, `vector<2x[4]xi32>`.

use crate::shapes::shape;
use crate::words::magnitude;
use av_affine::Seq;
use av_bits::Width;
use av_cases::Why;
use av_ir::{Elem, Extent, Ty};
use std::alloc::Global;

const ELEMS: [Elem; 6] = [
    Elem::Index,
    Elem::Int(Width::W1),
    Elem::Int(Width::W8),
    Elem::Int(Width::W16),
    Elem::Int(Width::W32),
    Elem::Int(Width::W64),
];

fn name_of(elem: Elem) -> &'static str {
    match elem {
        Elem::Index => "index",
        Elem::Int(Width::W1) => "i1",
        Elem::Int(Width::W8) => "i8",
        Elem::Int(Width::W16) => "i16",
        Elem::Int(Width::W32) => "i32",
        Elem::Int(Width::W64) => "i64",
    }
}

// A type of elements, and what stands before it.
fn with_elem(text: &str) -> Result<(&str, Elem), Why> {
    for elem in ELEMS {
        if let Some(before) = text.strip_suffix(name_of(elem)) {
            return Ok((before, elem));
        }
    }
    Err(Why::BadValue)
}

// What stands in angle brackets behind a name.
fn inside<'t>(text: &'t str, name: &str) -> Option<&'t str> {
    text.strip_prefix(name)?.strip_suffix(">")
}

/// The type that a word names.
pub fn ty(alloc: Global, word: &str) -> Result<Ty, Why> {
    if let Some(inside) = inside(word, "memref<") {
        let (sizes, elem) = with_elem(inside)?;
        let sizes = extents(alloc, sizes)?;
        return Ok(Ty::MemRef { sizes, elem });
    }
    if let Some(inside) = inside(word, "vector<") {
        let (sizes, elem) = with_elem(inside)?;
        let sizes = sizes.strip_suffix("x").ok_or(Why::BadValue)?;
        let shape = shape(alloc, sizes)?;
        return Ok(Ty::Vector { shape, elem });
    }
    let (before, elem) = with_elem(word)?;
    if before.is_empty() {
        Ok(Ty::Scalar(elem))
    } else {
        Err(Why::BadValue)
    }
}

// Sizes with an `x` behind each.
fn extents(alloc: Global, sizes: &str) -> Result<Seq<Extent>, Why> {
    let mut extents = Seq::new(alloc);
    if sizes.is_empty() {
        return Ok(extents);
    }
    let sizes = sizes.strip_suffix("x").ok_or(Why::BadValue)?;
    for size in sizes.split('x') {
        let extent = if size == "?" {
            Extent::Dyn
        } else {
            Extent::Fixed(magnitude(size)?)
        };
        extents.push(extent)?;
    }
    Ok(extents)
}
