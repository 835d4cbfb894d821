ghost use Rattle.std.specs.Prelude.{◌≡◌, ◌≤◌, ◌^◌};
ghost use Rattle.av_ir.specs.Places.{are_inside, cells_of, is_inside, patterns_of, place_of};

use super::Ty;

/// The most elements of all buffers of a run.
pub const MAX_ELEMENTS: u64 = 1 << 26;

/// The number of patterns that a buffer of a memref type with these sizes keeps, if it is at most
/// `MAX_ELEMENTS`. It takes no memory.
///
/// Sizes whose product would pass 64 bits have no elements where one of them is 0: a product that is
/// held at the greatest number stays there, or is 0 again.
pub fn cells(_ty: &Ty, sizes: &[u64]) -> Option<u64>
    ensures { result ≡ cells_of _ty.now sizes.now }
{
    let mut all = 1u64;
    for size in sizes {
        all = all.saturating_mul(*size);
    }
    if all <= MAX_ELEMENTS { Some(all) } else { None }
}

fn inside(size: u64, at: i64) -> bool
    ensures { result ≡ is_inside size at }
{
    at >= 0 && at.unsigned_abs() < size
}

// Whether there is one subscript for each size, and each is inside.
fn all_inside(sizes: &[u64], at: &[i64]) -> bool
    ensures { result ≡ are_inside sizes.now at.now }
{
    if sizes.len() != at.len() {
        return false;
    }
    for dimension in 0..sizes.len() {
        if !inside(sizes[dimension], at[dimension]) {
            return false;
        }
    }
    true
}

/// The place of an element of a buffer of a memref type with these sizes: the last subscript counts
/// one by one. `None` exactly where a subscript is below 0 or not below its size. It takes no memory.
pub fn place_of(_ty: &Ty, sizes: &[u64], at: &[i64]) -> Option<u64>
    requires { patterns_of _ty.now sizes.now ≤ 2 ^ 26 }
    ensures { result ≡ place_of _ty.now sizes.now at.now }
{
    if !all_inside(sizes, at) {
        return None;
    }
    let mut place = 0;
    for dimension in 0..sizes.len() {
        place = place * sizes[dimension] + at[dimension].unsigned_abs();
    }
    Some(place)
}
