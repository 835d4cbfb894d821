ghost use Rattle.std.specs.Prelude.{◌≡◌, IfOk};

use super::Seq;
use std::alloc::{AllocError, Global};

/// A value that can be made again, exactly.
pub trait Duplicate: Sized + Drop {
    /// The same value again.
    ///
    /// # Errors
    ///
    /// Want of memory.
    fn duplicate(&self, alloc: Global) -> Result<Self, AllocError>
        ensures { IfOk result (λ c. c ≡ self.now) };
}

impl<T: Copy + Drop> Duplicate for Seq<T> {
    fn duplicate(&self, alloc: Global) -> Result<Seq<T>, AllocError> {
        self.copy(alloc)
    }
}

/// A list of the same values as a slice.
///
/// # Errors
///
/// Want of memory.
pub fn duplicate_all<T: Duplicate>(alloc: Global, items: &[T]) -> Result<Seq<T>, AllocError>
    ensures { IfOk result (λ s. s ≡ items.now) }
{
    let mut copies = Seq::new(alloc);
    for item in items {
        copies.push(item.duplicate(alloc)?)?;
    }
    Ok(copies)
}
