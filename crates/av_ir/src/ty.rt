use av_affine::{Duplicate, Seq};
use av_bits::Width;
use av_shapes::Shape;
use std::alloc::{AllocError, Global};

/// The type of an element: an integer of a width, or `index`, which has 64 bits.
#[derive(Clone, Copy, Debug, Drop, PartialEq, Eq)]
pub enum Elem {
    Int(Width),
    Index,
}

/// A size of a memref type: a number, or `?`, which each buffer chooses.
#[derive(Clone, Copy, Debug, Drop, PartialEq, Eq)]
pub enum Extent {
    Fixed(u64),
    Dyn,
}

/// The type of a value.
#[derive(Drop, PartialEq)]
pub enum Ty {
    Scalar(Elem),
    /// A buffer, row-major, its outermost size first.
    MemRef { sizes: Seq<Extent>, elem: Elem },
    Vector { shape: Shape, elem: Elem },
}

impl Duplicate for Ty {
    fn duplicate(&self, alloc: Global) -> Result<Ty, AllocError> {
        match self {
            Ty::Scalar(elem) => Ok(Ty::Scalar(*elem)),
            Ty::MemRef { sizes, elem } => Ok(Ty::MemRef {
                sizes: sizes.duplicate(alloc)?,
                elem: *elem,
            }),
            Ty::Vector { shape, elem } => Ok(Ty::Vector {
                shape: shape.copy(),
                elem: *elem,
            }),
        }
    }
}
