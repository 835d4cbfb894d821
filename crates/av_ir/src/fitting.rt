ghost use Rattle.std.specs.Prelude.{◌≡◌, ◌+◌, ◌≤◌, ◌^◌, ◌↔◌, IsTrue, length, MatchOption};
ghost use Rattle.std.specs.List.{All, AllZip};
ghost use Rattle.av_bits.specs.Pattern.{bits_of};
ghost use Rattle.av_ir.specs.Values.{Agrees, Fits, IsBuffer, IsValue, SuitsType, elements_of, width_of};

use super::places::MAX_ELEMENTS;
use super::{Arg, Args, Buffer, Elem, Extent, Func, Ty, cells};
use av_bits::Width;

/// The greatest size of a buffer that has an element: 2^63.
const MAX_SIZE: u64 = 1 << 63;

/// The width of an element; `index` has 64 bits.
pub fn width(elem: Elem) -> Width
    ensures { result ≡ width_of elem }
{
    match elem {
        Elem::Int(width) => width,
        Elem::Index => Width::W64,
    }
}

// The greatest pattern of a width.
fn greatest(width: Width) -> u64
    ensures { result + 1 ≡ 2 ^ bits_of width }
{
    match width {
        Width::W1 => 1,
        Width::W8 => 0xff,
        Width::W16 => 0xffff,
        Width::W32 => 0xffff_ffff,
        Width::W64 => 0xffff_ffff_ffff_ffff,
    }
}

/// Whether a number is a pattern of an element type: below 2 to its width.
pub fn is_value(elem: Elem, pattern: u64) -> bool
    ensures { IsTrue result ↔ IsValue elem pattern }
{
    pattern <= greatest(width(elem))
}

fn agrees(extent: Extent, size: u64) -> bool
    ensures { IsTrue result ↔ Agrees extent size }
{
    match extent {
        Extent::Fixed(extent) => size == extent,
        Extent::Dyn => true,
    }
}

// Whether there is one size for each extent, and each agrees.
fn all_agree(extents: &[Extent], sizes: &[u64]) -> bool
    ensures { IsTrue result ↔ AllZip Agrees extents.now sizes.now }
{
    if extents.len() != sizes.len() {
        return false;
    }
    for dimension in 0..extents.len() {
        if !agrees(extents[dimension], sizes[dimension]) {
            return false;
        }
    }
    true
}

fn all_values(elem: Elem, patterns: &[u64]) -> bool
    ensures { IsTrue result ↔ All (IsValue elem) patterns.now }
{
    patterns.iter().all(|pattern| is_value(elem, *pattern))
}

fn all_halves(sizes: &[u64]) -> bool
    ensures { IsTrue result ↔ All (λ size. size ≤ 2 ^ 63) sizes.now }
{
    sizes.iter().all(|size| *size <= MAX_SIZE)
}

// Whether a buffer is one of the memref type and has at most `MAX_ELEMENTS` elements.
fn is_buffer(ty: &Ty, extents: &[Extent], elem: Elem, buffer: &Buffer) -> bool
    ensures { IsTrue result ↔ IsBuffer extents.now elem buffer.now × (length buffer.now.cells ≤ 2 ^ 26) }
{
    let sizes = buffer.sizes.as_slice();
    let patterns = buffer.cells.as_slice();
    match cells(ty, sizes) {
        None => false,
        Some(count) => {
            patterns.len() as u64 == count
                && all_agree(extents, sizes)
                && (count == 0 || all_halves(sizes))
                && all_values(elem, patterns)
        }
    }
}

// The number of elements of an argument that suits a type, if it suits and they are at most
// `MAX_ELEMENTS`.
fn elements_suiting(ty: &Ty, arg: &Arg) -> Option<u64>
    ensures { MatchOption result (SuitsType ty.now arg.now × (elements_of arg.now ≤ 2 ^ 26) → ⊥)
        (λ n. SuitsType ty.now arg.now × (elements_of arg.now ≡ n) × (n ≤ 2 ^ 26)) }
{
    match (ty, arg) {
        (Ty::Scalar(elem), Arg::Word(pattern)) if is_value(*elem, *pattern) => Some(0),
        (Ty::MemRef { sizes, elem }, Arg::Buf(buffer))
            if is_buffer(ty, sizes.as_slice(), *elem, buffer) => { Some(buffer.cells.len() as u64) }
        _ => None,
    }
}

/// Whether a run of the function may be given these arguments: one for each of its own, of its type,
/// with at most `MAX_ELEMENTS` elements in all buffers. It takes no memory.
pub fn fits(f: &Func, args: &Args) -> bool
    ensures { IsTrue result ↔ Fits f.now args.now }
{
    let ids = f.body.args.as_slice();
    let list = args.list.as_slice();
    if ids.len() != list.len() {
        return false;
    }
    let mut all = 0;
    for place in 0..list.len() {
        let Some(ty) = f.values.get(ids[place].0 as usize) else {
            return false;
        };
        let Some(count) = elements_suiting(ty, &list[place]) else {
            return false;
        };
        all += count;
        if all > MAX_ELEMENTS {
            return false;
        }
    }
    true
}
