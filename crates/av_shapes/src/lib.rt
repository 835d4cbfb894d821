//! Shapes of vectors: one to three sizes, of which the last may count times a scale.
#![tactic(auto)]

ghost use Rattle.std.specs.Prelude.{◌≡◌, ℕ, ◌<◌, ◌≤◌, ◌*◌, ◌↔◌, List, IsTrue, length, slice_get};
ghost use Rattle.std.proofs.Common.{rules};
ghost use Rattle.std.specs.Cmp.Rules.{comparing};
ghost use Rattle.av_shapes.specs.Shape.{AreSizes, product, shape_eq};
ghost use Rattle.av_shapes.specs.Places.{IsScale, IsWithin, extents, lanes, place};
ghost use Rattle.av_shapes.specs.Order.{CanPermute, permuted_sizes};

mod laws;

pub use laws::places_are_lanes;
use smallvec::SmallVec;
use std::alloc::Global;
use std::marker::Model;

/// The greatest scale: a scale is a number from 1 to `MAX_SCALE`.
pub const MAX_SCALE: u32 = 16;

/// The shape of a vector: one to three sizes, outermost first, whose product is 1 to 256.
///
/// Where it is scalable, its last size counts times the scale. It takes no memory: the sizes lie in the value.
/// Contracts see the list of its sizes and the flag.
#[derive(Debug, Drop)]
pub struct Shape {
    dims: SmallVec<u16, 3>,
    scalable: bool,
}

impl Model for Shape {
    ghost use Rattle.av_shapes.specs.Shape.{ShapeView, shape_code};

    ghost Value = { ShapeView };

    ghost coded = { shape_code };

    ghost use Rattle.av_shapes.specs.Inside.{shape_view, HasSizes};

    ghost view = { shape_view };

    ghost invariant = { HasSizes };
}

impl Shape {
    /// Whether these can be the sizes of a shape: one to three, with a product of 1 to 256.
    pub fn allows(dims: &[u16]) -> bool
        ensures { IsTrue result ↔ AreSizes dims.now }
    {
        if dims.is_empty() || dims.len() > 3 {
            return false;
        }
        let at_scale_one = product_of(dims);
        1 <= at_scale_one && at_scale_one <= 256
    }

    /// The shape of these sizes, outermost first, scalable in the last one or not.
    pub fn new(alloc: Global, dims: &[u16], scalable: bool) -> Shape
        requires { AreSizes dims.now }
        ensures { result ≡ record { sizes = dims.now; scalable = scalable } }
    {
        let dims = SmallVec::from_slice(alloc, dims).unwrap();
        Shape { dims, scalable }
    }

    /// The number of sizes, 1 to 3.
    pub fn rank(&self) -> usize
        ensures value { result ≡ length self.now.sizes }
        ensures bounds { AreSizes self.now.sizes }
    {
        self.dims.len()
    }

    /// The sizes at scale 1, outermost first.
    pub fn sizes(&self) -> &[u16]
        ensures value { result.now ≡ self.now.sizes }
        ensures bounds { AreSizes self.now.sizes }
    {
        self.dims.as_slice()
    }

    /// Whether the last size counts times the scale.
    pub fn is_scalable(&self) -> bool
        ensures { result ≡ self.now.scalable }
    {
        self.scalable
    }

    /// An equal shape. It takes no memory.
    pub fn copy(&self) -> Shape
        ensures { result ≡ self.now }
    {
        Shape::new(*self.dims.allocator(), self.dims.as_slice(), self.scalable)
    }

    /// The size of a dimension at a scale: 1 to 256, times the scale in a scalable dimension.
    pub fn extent(&self, dimension: usize, scale: u32) -> u32
        requires dimension { dimension < length self.now.sizes }
        requires scale { IsScale scale }
        ensures value { slice_get (extents self.now scale) dimension ≡ Some result }
        ensures bounds { (1 ≤ result) × (result ≤ 256 * scale) }
    {
        let sizes = self.sizes();
        let size = sizes[dimension] as u32;
        if self.scalable && dimension + 1 == sizes.len() {
            size * scale
        } else {
            size
        }
    }

    /// The number of elements of a vector of this shape at a scale: 1 to 256 times the scale.
    pub fn lanes(&self, scale: u32) -> u32
        requires { IsScale scale }
        ensures value { result ≡ lanes self.now scale }
        ensures bounds { (1 ≤ result) × (result ≤ 256 * scale) }
    {
        let at_scale_one = product_of(self.sizes()) as u32;
        if self.scalable {
            at_scale_one * scale
        } else {
            at_scale_one
        }
    }

    /// The row-major place of an index tuple at a scale: the last index counts one by one.
    pub fn place(&self, at: &[u32], scale: u32) -> u32
        requires scale { IsScale scale }
        requires within { IsWithin (extents self.now scale) at.now }
        ensures value { result ≡ place (extents self.now scale) at.now }
        ensures below { result < lanes self.now scale }

        // No other tuple has this place.
        ensures one_tuple { (other : List ℕ) → IsWithin (extents self.now scale) other
            → place (extents self.now scale) other ≡ result → other ≡ at.now }
    {
        let mut place = 0;
        for dimension in 0..self.rank() {
            place = place * self.extent(dimension, scale) + at[dimension];
        }
        place
    }

    /// Whether this is a permutation of the dimensions 0 to the rank less one that leaves a scalable dimension where it is.
    pub fn can_permute(&self, order: &[u8]) -> bool
        ensures { IsTrue result ↔ CanPermute self.now order.now }
    {
        let rank = self.rank();
        if order.len() != rank {
            return false;
        }
        for dimension in 0..rank {
            if !order.contains(&(dimension as u8)) {
                return false;
            }
        }
        !self.scalable || order[rank - 1] as usize == rank - 1
    }

    /// The shape with its dimensions in another order: dimension `d` is dimension `order[d]` of this one. It takes no memory.
    pub fn permuted(&self, order: &[u8]) -> Shape
        requires { CanPermute self.now order.now }
        ensures value { result ≡ record { sizes = permuted_sizes self.now.sizes order.now; scalable = self.now.scalable } }

        // The same holds of the extents at every scale, and there are as many elements.
        ensures extents { (scale : ℕ) → extents result scale ≡ permuted_sizes (extents self.now scale) order.now }
        ensures lanes { (scale : ℕ) → lanes result scale ≡ lanes self.now scale }
    {
        let sizes = self.sizes();
        let mut dims = SmallVec::new(*self.dims.allocator());
        for dimension in order {
            dims.push_reserved(sizes[*dimension as usize]);
        }
        Shape {
            dims,
            scalable: self.scalable,
        }
    }
}

impl PartialEq for Shape {
    ghost eq = { shape_eq };

    ghost laws = { Prim.search (comparing, rules) };

    fn eq(&self, other: &Shape) -> bool {
        self.dims == other.dims && self.scalable == other.scalable
    }
}

impl Eq for Shape {
    ghost laws = { Prim.search (comparing, rules) };
}

// The product of up to three sizes, which need not be those of a shape.
fn product_of(sizes: &[u16]) -> u64
    requires { length sizes.now ≤ 3 }
    ensures { result ≡ product sizes.now }
{
    let mut all = 1;
    for size in sizes {
        all *= *size as u64;
    }
    all
}
