//! The elements of buffers, by memref argument and place.

ghost use Rattle.std.specs.Prelude.{◌≡◌, ◌≤◌, ◌^◌, slice_index_or};
ghost use Rattle.av_bits.specs.Pattern.{signed_value};
ghost use Rattle.av_shapes.specs.Shape.{product};
ghost use Rattle.av_ir.specs.Places.{place_of};
ghost use Rattle.av_ir.specs.ScalarRun.{buffer_of, element_at, size_at, with_element};
ghost use Rattle.av_scalar.specs.Stores.{AreSmall, memory_of, sizes_of};

use super::words::{put, word_at};
use av_affine::{No, Seq};
use av_bits::{Width, signed};
use av_ir::{Buffer, Elem, Ty, place_of};

/// What the memref arguments of a run stand for.
#[derive(Drop)]
pub struct Standing {
    /// For each the place of its buffer in memory.
    pub at: Seq<No>,
    /// The type of each.
    pub kinds: Seq<Ty>,
}

// The size of a dimension, if it is there.
fn size_in(sizes: &[u64], dimension: i64) -> Option<u64>
    ensures { result ≡ size_at sizes.now dimension }
{
    if dimension < 0 {
        return None;
    }
    let place = dimension.unsigned_abs() as usize;
    if place < sizes.len() {
        Some(sizes[place])
    } else {
        None
    }
}

impl Standing {
    fn buffer(&self, memref: u64) -> usize
        ensures { result ≡ slice_index_or self.now.at memref 0 }
    {
        word_at(self.at.as_slice(), memref) as usize
    }

    fn place_in(&self, memref: u64, sizes: &[u64], at: &[i64]) -> Option<u64>
        requires { product sizes.now ≤ 2 ^ 26 }
        ensures { result ≡ place_of (slice_index_or self.now.kinds memref (Ty.Scalar Elem.Index)) sizes.now at.now }
    {
        let kinds = self.kinds.as_slice();
        let memref = memref as usize;
        if memref < kinds.len() {
            place_of(&kinds[memref], sizes, at)
        } else {
            place_of(&Ty::Scalar(Elem::Index), sizes, at)
        }
    }

    /// The place of an element in the buffer of a memref argument, if all subscripts are inside.
    pub fn place(&self, memory: &Vec<Buffer>, memref: u64, at: &[i64]) -> Option<u64>
        requires { AreSmall memory.now.items }
        ensures { result ≡ element_at (memory_of self.now memory.now.items) memref at.now }
    {
        let buffer = self.buffer(memref);
        if buffer < memory.len() {
            self.place_in(memref, memory[buffer].sizes.as_slice(), at)
        } else {
            self.place_in(memref, &[], at)
        }
    }

    /// The size of a dimension of the buffer of a memref argument, if it is there.
    pub fn size(&self, memory: &Vec<Buffer>, memref: u64, dimension: u64) -> Option<u64>
        ensures { result ≡ size_at (buffer_of (memory_of self.now memory.now.items) memref).sizes (signed_value 64 dimension) }
    {
        let buffer = self.buffer(memref);
        if buffer < memory.len() {
            size_in(
                memory[buffer].sizes.as_slice(),
                signed(Width::W64, dimension),
            )
        } else {
            None
        }
    }

    /// The pattern in this place of the buffer of a memref argument.
    pub fn load(&self, memory: &Vec<Buffer>, memref: u64, place: u64) -> u64
        ensures { result ≡ slice_index_or (buffer_of (memory_of self.now memory.now.items) memref).cells place 0 }
    {
        let buffer = self.buffer(memref);
        if buffer < memory.len() {
            word_at(memory[buffer].cells.as_slice(), place)
        } else {
            0
        }
    }

    /// Puts a pattern in this place of the buffer of a memref argument.
    pub fn store(&self, memory: &mut Vec<Buffer>, memref: u64, place: u64, pattern: u64)
        ensures stored { memory_of self.now memory.new.items ≡ with_element (memory_of self.now memory.old.items) memref place pattern }
        ensures sizes { sizes_of memory.new.items ≡ sizes_of memory.old.items }
    {
        let buffer = self.buffer(memref);
        if buffer < memory.len() {
            put(&mut memory[buffer].cells, place, pattern);
        }
    }
}
