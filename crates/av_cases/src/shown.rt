//! Bytes as a person reads them.

use std::alloc::{AllocError, Global};

// How many bytes are shown before the first that differs, and from there on.
const BEFORE: usize = 20;

const FROM: usize = 60;

/// Some of the bytes at this place, those that can't be printed as escapes.
pub(crate) fn shown(alloc: Global, bytes: &[u8], place: usize) -> Result<String, AllocError> {
    let begin = place.saturating_sub(BEFORE).min(bytes.len());
    let end = place.saturating_add(FROM).min(bytes.len());
    let mut text = String::new(alloc);
    for byte in bytes.get(begin..end).unwrap_or(&[]) {
        push_byte(&mut text, *byte)?;
    }
    Ok(text)
}

fn push_byte(text: &mut String, byte: u8) -> Result<(), AllocError> {
    match byte {
        b'\n' => text.push_str("\\n"),
        b'\\' => text.push_str("\\\\"),
        b' '..=b'~' => text.push(char::from(byte)),
        _ => write!(text, "\\x{byte:02X}"),
    }
}

/// The first place at which two differ, or the end of the shorter one.
pub(crate) fn first_difference(left: &[u8], right: &[u8]) -> usize {
    let mut place = 0usize;
    for (l, r) in left.iter().zip(right.iter()) {
        if *l != *r {
            break;
        }
        place = place.saturating_add(1);
    }
    place
}
