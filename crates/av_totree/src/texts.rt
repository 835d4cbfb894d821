//! Texts, and nodes and entries made of them.

ghost use Rattle.std.specs.Prelude.{◌≡◌, IfOk};
ghost use Rattle.av_totree.specs.Texts.{entry as entry_of, numbered as numbered_text};

use av_affine::{No, Seq, Text};
use av_tree::{Attr, Named};
use std::alloc::{AllocError, Global};

pub(crate) fn text_of(alloc: Global, bytes: &[u8]) -> Result<Text, AllocError>
    ensures { IfOk result (λ t. t ≡ bytes.now) }
{
    Seq::from_slice(alloc, bytes)
}

/// A text that ends in a number.
pub(crate) fn numbered(alloc: Global, front: &str, number: No) -> Result<Text, AllocError>
    ensures { IfOk result (λ t. t ≡ numbered_text front.now number) }
{
    let text = format!(in alloc; "{front}{number}")?;
    Ok(Seq::from_vec(text.into_bytes()))
}

pub(crate) fn entry(alloc: Global, name: &[u8], value: Attr) -> Result<Named, AllocError>
    ensures { IfOk result (λ e. e ≡ entry_of name.now value) }
{
    Ok(Named {
        name: text_of(alloc, name)?,
        value,
    })
}
