//! Bytes with some of them replaced.

use memchr::memmem;
use std::alloc::{AllocError, Global};

/// The text with the first `old` in it replaced, if there is one.
pub fn first_replaced(
    alloc: Global,
    text: &[u8],
    old: &[u8],
    new: &[u8],
) -> Result<Option<Vec<u8>>, AllocError> {
    let Some(at) = memmem::find(text, old) else {
        return Ok(None);
    };
    let mut replaced = Vec::new(alloc);
    replaced.extend_from_slice(before(text, at))?;
    replaced.extend_from_slice(new)?;
    replaced.extend_from_slice(behind(text, at, old))?;
    Ok(Some(replaced))
}

/// The text with each `old` in it replaced.
pub fn all_replaced(
    alloc: Global,
    text: &[u8],
    old: &[u8],
    new: &[u8],
) -> Result<Vec<u8>, AllocError> {
    let mut replaced = Vec::new(alloc);
    let mut from = 0usize;
    for at in memmem::find_iter(text, old) {
        replaced.extend_from_slice(text.get(from..at).unwrap_or(&[]))?;
        replaced.extend_from_slice(new)?;
        from = at.saturating_add(old.len());
    }
    replaced.extend_from_slice(text.get(from..).unwrap_or(&[]))?;
    Ok(replaced)
}

/// What stands before and behind the first `mark` in the text, if there is one.
pub(crate) fn parted<'a>(text: &'a [u8], mark: &[u8]) -> Option<(&'a [u8], &'a [u8])> {
    match memmem::find(text, mark) {
        Some(at) => Some((before(text, at), behind(text, at, mark))),
        None => None,
    }
}

fn before(text: &[u8], at: usize) -> &[u8] {
    text.get(..at).unwrap_or(&[])
}

fn behind<'a>(text: &'a [u8], at: usize, mark: &[u8]) -> &'a [u8] {
    text.get(at.saturating_add(mark.len())..).unwrap_or(&[])
}
