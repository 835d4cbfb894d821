//! The names of a function's values.

ghost use Rattle.std.specs.Prelude.{◌≡◌, ◌+◌, ◌++◌, length, IfOk, OnOk, slice_set};
ghost use Rattle.av_totree.specs.Names.{argument_name, first_naming, name_of, naming_of, operation_name, result_texts, with_argument, with_name, with_results, with_several, written_type as type_written};
ghost use Rattle.av_totree.specs.Texts.{numbered as numbered_text};

use crate::texts::{numbered, text_of};
use crate::types::type_text;
use av_affine::{Duplicate, No, Seq, Text};
use av_ir::{Ty, ValueId};
use av_tree::TypeText;
use std::alloc::{AllocError, Global};

/// The names of a function's values, given in the order of the text.
#[derive(Drop)]
pub(crate) struct Names {
    /// The name of each value, `%` for one that wasn't met yet.
    names: Seq<Text>,
    /// The arguments of blocks that have a name.
    arguments: Seq<ValueId>,
    /// The first result of each operation whose results have names.
    operations: Seq<ValueId>,
}

impl Names {
    /// The names of values of these types, of which none is met yet.
    pub(crate) fn new(alloc: Global, types: &[Ty]) -> Result<Names, AllocError>
        ensures { IfOk result (λ n. naming_of n ≡ first_naming types.now) }
    {
        let mut names = Seq::new(alloc);
        for _ty in types {
            names.push(text_of(alloc, b"%")?)?;
        }
        Ok(Names {
            names,
            arguments: Seq::new(alloc),
            operations: Seq::new(alloc),
        })
    }

    /// Names the next argument of a block.
    pub(crate) fn name_argument(
        &mut self,
        alloc: Global,
        value: ValueId,
    ) -> Result<Text, AllocError>
        ensures text { IfOk result (λ t. t ≡ argument_name (length self.old.arguments)) }
        ensures named { OnOk result (naming_of self.new ≡ with_argument value (naming_of self.old)) }
    {
        let name = numbered(alloc, "%arg", self.arguments.len() as No)?;
        self.put(value, name.duplicate(alloc)?);
        self.arguments.push(value)?;
        Ok(name)
    }

    /// Names the results of the next operation with results: one name, or one text for several.
    pub(crate) fn name_results(
        &mut self,
        alloc: Global,
        values: &[ValueId],
    ) -> Result<Seq<Text>, AllocError>
        ensures texts { IfOk result (λ t. t ≡ result_texts values.now (length self.old.operations)) }
        ensures named { OnOk result (naming_of self.new ≡ with_results values.now (naming_of self.old)) }
    {
        let operation = self.operations.len() as No;
        let mut texts = Seq::new(alloc);
        match values {
            [] => {}
            [only] => {
                let name = numbered(alloc, "%", operation)?;
                self.put(*only, name.duplicate(alloc)?);
                self.operations.push(*only)?;
                texts.push(name)?;
            }
            [first, ..] => {
                self.put_several(alloc, operation, values)?;
                self.operations.push(*first)?;
                texts.push(two_numbers(alloc, operation, ":", values.len() as No)?)?;
            }
        }
        Ok(texts)
    }

    fn put_several(
        &mut self,
        alloc: Global,
        operation: No,
        values: &[ValueId],
    ) -> Result<(), AllocError>
        ensures { OnOk result (self.new ≡ record self.old { names = with_several operation 0 values.now self.old.names }) }
    {
        for (place, value) in values.iter().enumerate() {
            let name = two_numbers(alloc, operation, "#", place as No)?;
            self.put(*value, name);
        }
        Ok(())
    }

    fn put(&mut self, value: ValueId, name: Text)
        ensures { self.new ≡ record self.old { names = with_name self.old.names value name } }
    {
        let at = value.0 as usize;
        if at < self.names.len() {
            self.names.set(at, name);
        }
    }

    /// The name of a value.
    pub(crate) fn name_of(&self, alloc: Global, value: ValueId) -> Result<Text, AllocError>
        ensures { IfOk result (λ t. t ≡ name_of (naming_of self.now) value) }
    {
        match self.names.get(value.0 as usize) {
            Some(name) => name.duplicate(alloc),
            None => text_of(alloc, b"%"),
        }
    }
}

// `%`, a number, a sign and another number.
fn two_numbers(alloc: Global, first: No, sign: &str, second: No) -> Result<Text, AllocError>
    ensures { IfOk result (λ t. t ≡ numbered_text (operation_name first ++ sign.now) second) }
{
    let text = format!(in alloc; "%{first}{sign}{second}")?;
    Ok(Seq::from_vec(text.into_bytes()))
}

/// The type of a value.
pub(crate) fn written_type(
    alloc: Global,
    types: &[Ty],
    value: ValueId,
) -> Result<Option<TypeText>, AllocError>
    ensures { IfOk result (λ t. t ≡ type_written types.now value) }
{
    match types.get(value.0 as usize) {
        Some(ty) => Ok(Some(type_text(alloc, ty)?)),
        None => Ok(None),
    }
}
