ghost use Rattle.std.specs.Prelude.{◌≡◌, IfOk};

use std::alloc::{AllocError, Global};
use std::marker::Model;

/// One value on the heap, which contracts see as the value itself.
///
/// A plain `Box` shows its pointer to contracts, so no value that holds one equals a value that a
/// definition computes.
#[derive(Debug, Drop)]
pub struct Held<T> {
    place: Box<T>,
}

impl<T> Model for Held<T> {
    ghost Value = { T };

    ghost coded = { T.code };

    ghost view = { λ h. h.place.value };
}

impl<T> Held<T> {
    /// The held value.
    pub fn get(&self) -> &T
        ensures { result.now ≡ self.now }
    {
        &self.place
    }

    /// The held value, moved out; its memory is given back.
    pub fn into_inner(self) -> T
        ensures { result ≡ self }
    {
        let Held { place } = self;
        Box::into_inner(place)
    }
}

impl<T: Drop> Held<T> {
    /// Moves a value to the heap.
    ///
    /// # Errors
    ///
    /// Want of memory.
    pub fn new(alloc: Global, value: T) -> Result<Held<T>, AllocError>
        ensures { IfOk result (λ h. h ≡ value) }
    {
        Ok(Held {
            place: Box::new(alloc, value)?,
        })
    }
}

impl<T: PartialEq> PartialEq for Held<T> {
    ghost eq = { T.eq };

    ghost laws = { T.laws };

    fn eq(&self, other: &Self) -> bool {
        self.get() == other.get()
    }
}
