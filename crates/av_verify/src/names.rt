//! Names and the values that they stand for.

ghost use Rattle.std.specs.Prelude.{◌≡◌, length, take, OnOk, [], IfOk};
ghost use Rattle.av_verify.specs.Names.{are_visible, bound, is_visible, value_named, value_or_first, values_named};

use av_affine::{Seq, Text};
use av_ir::ValueId;
use indexmap::IndexMap;
use std::alloc::{AllocError, Global};
use std::marker::Model;

/// Names in the order in which they came, each with the value that it stands for.
#[derive(Drop)]
pub(crate) struct Names {
    index: IndexMap<Vec<u8>, ValueId>,
}

impl Model for Names {
    ghost use Rattle.std.specs.Prelude.{List, map};
    ghost use Rattle.av_verify.specs.Names.{Binding, binds};

    ghost Value = { List Binding };

    ghost view = { λ n. map (λ e. binds e.0.items e.1) n.index.entries };
}

impl Names {
    /// No name.
    pub(crate) fn new(alloc: Global) -> Names
        ensures { result ≡ [] }
    {
        Names {
            index: IndexMap::new(alloc),
        }
    }

    /// The value that a name stands for.
    pub(crate) fn find(&self, name: &[u8]) -> Option<ValueId>
        ensures { result ≡ value_named name.now self.now }
    {
        self.index.get(name).copied()
    }

    /// How many names there are.
    pub(crate) fn len(&self) -> usize
        ensures { result ≡ length self.now }
    {
        self.index.len()
    }

    /// Lets a name stand for a value.
    pub(crate) fn bind(&mut self, name: Vec<u8>, value: ValueId) -> Result<(), AllocError>
        ensures { OnOk result (self.new ≡ bound self.old name.items value) }
    {
        let _before = self.index.insert(name, value)?;
        Ok(())
    }

    /// Takes away all names after the first ones.
    pub(crate) fn truncate(&mut self, len: usize)
        ensures { self.new ≡ take len self.old }
    {
        self.index.truncate(len);
    }
}

/// Whether each of some names stands for a value.
pub(crate) fn are_visible(names: &Names, used: &[Text]) -> bool
    ensures { result ≡ are_visible names.now used.now }
{
    used.iter().all(|name| is_visible(names, name.as_slice()))
}

/// Whether a name stands for a value.
pub(crate) fn is_visible(names: &Names, name: &[u8]) -> bool
    ensures { result ≡ is_visible names.now name.now }
{
    names.find(name).is_some()
}

/// The values of some names; 0 stands for that of a name that isn't visible.
pub(crate) fn values_named(
    alloc: Global,
    names: &Names,
    used: &[Text],
) -> Result<Seq<ValueId>, AllocError>
    ensures { IfOk result (λ values. values ≡ values_named names.now used.now) }
{
    let mut values = Seq::new(alloc);
    for name in used {
        values.push(value_or_first(names, name.as_slice()))?;
    }
    Ok(values)
}

fn value_or_first(names: &Names, name: &[u8]) -> ValueId
    ensures { result ≡ value_or_first names.now name.now }
{
    names.find(name).unwrap_or(ValueId(0))
}
