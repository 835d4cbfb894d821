//! What holds of places, for the proofs of callers. These functions do nothing.
ghost use Rattle.std.specs.Prelude.{◌≡◌, ℕ, ◌<◌, List};
ghost use Rattle.av_shapes.specs.Places.{IsWithin, extents, lanes, place};

use crate::Shape;

/// The places of a shape at a scale are the numbers from 0 on, one for each element, and each belongs to one index tuple.
pub fn places_are_lanes(shape: &Shape, scale: u32)
    ensures below { (at : List ℕ) → IsWithin (extents shape.now scale) at
        → place (extents shape.now scale) at < lanes shape.now scale }
    ensures one_tuple { (at other : List ℕ) → IsWithin (extents shape.now scale) at
        → IsWithin (extents shape.now scale) other
        → place (extents shape.now scale) at ≡ place (extents shape.now scale) other → at ≡ other }
    ensures all { (k : ℕ) → k < lanes shape.now scale
        → (at : List ℕ) × IsWithin (extents shape.now scale) at × (place (extents shape.now scale) at ≡ k) }
{}
