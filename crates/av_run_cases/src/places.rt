//! Cases of buffers: how many elements they have, and where.
ghost use Rattle.std.specs.Prelude.{◌≤◌};

use crate::words::{indices, magnitudes};
use av_affine::Seq;
use av_bits::Width;
use av_cases::Why;
use av_ir::{Elem, Extent, Ty, cells, place_of};
use std::alloc::Global;

// The type of a buffer of so many sizes.
fn memref(alloc: Global, rank: usize) -> Result<Ty, Why> {
    let mut sizes = Seq::new(alloc);
    for _ in 0..rank {
        sizes.push(Extent::Dyn)?;
    }
    let elem = Elem::Int(Width::W32);
    Ok(Ty::MemRef { sizes, elem })
}

/// A number, if there is one.
pub fn shown(alloc: Global, number: Option<u64>) -> Result<String, Why> {
    match number {
        Some(number) => Ok(format!(in alloc; "{number}")?),
        None => Ok(String::from_str(alloc, "none")?),
    }
}

/// `SIZE ..`: the number of elements, or none where they are too many.
pub fn cells_case(alloc: Global, words: &[String]) -> Result<String, Why> {
    let sizes = magnitudes(alloc, words)?;
    let ty = memref(alloc, sizes.len())?;
    shown(alloc, cells(&ty, &sizes))
}

/// The place of the element at these subscripts, or none where one is outside.
pub fn place_case(alloc: Global, sizes: &[String], at: &[String]) -> Result<String, Why> {
    let sizes = magnitudes(alloc, sizes)?;
    let at = indices(alloc, at)?;
    let ty = memref(alloc, sizes.len())?;
    if cells(&ty, &sizes).is_none() {
        return Err(Why::BadValue);
    }
    shown(alloc, place_of(&ty, &sizes, &at))
}
