//! The texts with which a text begins.
ghost use Rattle.std.specs.Prelude.{◌≤◌, ◌^◌, length};

use crate::stop::Stop;
use crate::texts::tree;
use av_reader::ReadRefusal;
use std::alloc::Global;

/// How many texts this one begins with that end between two of its tokens, if each is refused at its end;
/// else the length of the first that isn't.
pub fn prefixes(alloc: Global, text: &[u8]) -> Result<String, Stop>
    requires { length text.now ≤ 2 ^ 20 }
{
    let mut count = 0usize;
    for end in 1..text.len().saturating_sub(1) {
        let prefix = &text[..end];
        if !ends_blank(prefix) {
            continue;
        }
        if !is_refused_at_end(alloc, prefix) {
            return Ok(format!(in alloc; "prefix {end}")?);
        }
        count = count.saturating_add(1);
    }
    Ok(format!(in alloc; "{count} prefixes")?)
}

fn ends_blank(text: &[u8]) -> bool {
    matches!(text.last(), Some(b' ' | b'\n'))
}

fn is_refused_at_end(alloc: Global, text: &[u8]) -> bool
    requires { length text.now ≤ 2 ^ 20 }
{
    match tree(alloc, text) {
        Err(Stop::Read(ReadRefusal::NotAModule(place))) => place as usize == text.len(),
        _ => false,
    }
}
