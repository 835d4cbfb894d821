ghost use Rattle.std.specs.Prelude.{◌≡◌, [], ◌∷◌, ◌++◌, ◌<◌, ◌≤◌, length, take, slice_get, slice_index_or, slice_set, IfOk, MatchOption, OnOk, OnErr, OnSome, IsTrue, ◌↔◌};
ghost use Rattle.std.specs.List.{insert, remove};
ghost use Rattle.std.specs.Option.{option_copied};
ghost use Rattle.std.specs.Cmp.Lexicographic.{pointwise, lists_per};

use std::alloc::{AllocError, Global};
use std::marker::Model;

/// A growing list, which contracts see as the list of its elements.
///
/// Unlike a `Vec`, it shows neither capacity nor pointer, so it can equal a list that a definition
/// computes; and it may stand in a type that holds itself.
#[derive(Debug, Drop)]
pub struct Seq<T> {
    list: Vec<T>,
}

impl<T> Model for Seq<T> {
    ghost use Rattle.std.specs.Prelude.{List};
    ghost use Rattle.std.specs.Coded.{coded_list};

    ghost Value = { List T };

    ghost coded = { coded_list T.code };

    ghost view = { λ s. s.list.items };
}

impl<T> Seq<T> {
    /// An empty list. It takes no memory.
    pub fn new(alloc: Global) -> Seq<T>
        ensures { result ≡ [] }
    {
        Seq {
            list: Vec::new(alloc),
        }
    }

    /// The elements of a `Vec`, in its memory.
    pub fn from_vec(list: Vec<T>) -> Seq<T>
        ensures { result ≡ list.items }
    {
        Seq { list }
    }

    /// The elements as a `Vec`, in the same memory.
    pub fn into_vec(self) -> Vec<T>
        ensures { result.items ≡ self }
    {
        let Seq { list } = self;
        list
    }

    /// The elements as a slice.
    pub fn as_slice(&self) -> &[T]
        ensures { result.now ≡ self.now }
    {
        self.list.as_slice()
    }

    /// The number of elements.
    pub fn len(&self) -> usize
        ensures { result ≡ length self.now }
    {
        self.list.len()
    }

    /// Whether there is no element.
    pub fn is_empty(&self) -> bool
        ensures { IsTrue result ↔ (self.now ≡ []) }
    {
        self.list.is_empty()
    }

    /// The element at a place, if there is one.
    pub fn get(&self, at: usize) -> Option<&T>
        ensures value { option_copied result ≡ slice_get self.now at }
        ensures within { OnSome result (at < length self.now) }
    {
        self.list.get(at)
    }

    /// Puts an element at the end. Where memory lacks, the list stays as it was.
    ///
    /// # Errors
    ///
    /// Want of memory.
    pub fn push(&mut self, item: T) -> Result<(), AllocError>
    where
        T: Drop,
        ensures ok { OnOk result (self.new ≡ self.old ++ item ∷ []) }
        ensures err { OnErr result (self.new ≡ self.old) }
    {
        self.list.push(item)?;
        Ok(())
    }

    /// Takes the last element, if there is one.
    pub fn pop(&mut self) -> Option<T>
        ensures { MatchOption result ((self.old ≡ []) × (self.new ≡ [])) (λ last. self.old ≡ self.new ++ last ∷ []) }
    {
        self.list.pop()
    }

    /// Drops the elements from place `len` on.
    pub fn truncate(&mut self, len: usize)
    where
        T: Drop,
        ensures { self.new ≡ take len self.old }
    {
        self.list.truncate(len);
    }

    /// Moves the elements of another list to the end. Where memory lacks, the list stays as it was.
    ///
    /// # Errors
    ///
    /// Want of memory.
    pub fn append(&mut self, more: Seq<T>) -> Result<(), AllocError>
    where
        T: Drop,
        ensures ok { OnOk result (self.new ≡ self.old ++ more) }
        ensures err { OnErr result (self.new ≡ self.old) }
    {
        let Seq { mut list } = more;
        self.list.append(&mut list)
    }

    /// Puts another element in a place.
    pub fn set(&mut self, at: usize, item: T)
    where
        T: Drop,
        requires { at < length self.old }
        ensures { self.new ≡ slice_set self.old at item }
    {
        self.list[at] = item;
    }

    /// Puts an element at a place; the later ones move up. Where memory lacks, the list stays as it was.
    ///
    /// # Errors
    ///
    /// Want of memory.
    pub fn insert(&mut self, at: usize, item: T) -> Result<(), AllocError>
    where
        T: Drop,
        requires { at ≤ length self.old }
        ensures ok { OnOk result (self.new ≡ insert self.old at item) }
        ensures err { OnErr result (self.new ≡ self.old) }
    {
        self.list.insert(at, item)?;
        Ok(())
    }

    /// Takes out the element at a place; the later ones move down.
    pub fn remove(&mut self, at: usize) -> T
        requires { at < length self.old }
        ensures value { result ≡ slice_index_or self.old at result }
        ensures rest { self.new ≡ remove self.old at }
    {
        self.list.remove(at)
    }

    /// The allocator that the list takes its memory from.
    pub fn global(&self) -> Global {
        *self.list.allocator()
    }
}

impl<T: Copy> Seq<T> {
    /// A list of the same elements as a slice.
    ///
    /// # Errors
    ///
    /// Want of memory.
    pub fn from_slice(alloc: Global, items: &[T]) -> Result<Seq<T>, AllocError>
        ensures { IfOk result (λ s. s ≡ items.now) }
    {
        let list = Vec::from_slice(alloc, items)?;
        Ok(Seq { list })
    }

    /// The same list again.
    ///
    /// # Errors
    ///
    /// Want of memory.
    pub fn copy(&self, alloc: Global) -> Result<Seq<T>, AllocError>
        ensures { IfOk result (λ s. s ≡ self.now) }
    {
        Seq::from_slice(alloc, self.as_slice())
    }
}

impl<T: PartialEq> PartialEq for Seq<T> {
    ghost eq = { pointwise T.eq };

    ghost laws = { lists_per T.laws };

    fn eq(&self, other: &Self) -> bool {
        self.as_slice() == other.as_slice()
    }
}

/// Puts an element in place `at` of list `outer` of a list of lists; all else stays.
pub fn set_in<T: Copy + Drop>(lists: &mut Seq<Seq<T>>, outer: usize, at: usize, item: T)
    requires outer_within { outer < length lists.old }
    requires at_within { at < length (slice_index_or lists.old outer []) }
    ensures { lists.new ≡ slice_set lists.old outer (slice_set (slice_index_or lists.old outer []) at item) }
{
    let list = &mut lists.list[outer];
    list.list[at] = item;
}
