//! What a text is to the lexer, the rows and the reader.
ghost use Rattle.std.specs.Prelude.{◌≤◌, ◌^◌, length};

use crate::stop::Stop;
use av_derive::{Limits, Refused, classes_of, derive};
use av_lex::lex;
use av_reader::read;
use av_tree::Tree;
use std::alloc::Global;
use std::fmt::Write;

/// The greatest number of bytes of a text.
pub const MOST_BYTES: usize = 1 << 20;

/// The tokens of a text, a line for each: its kind, place and length.
pub fn tokens(alloc: Global, text: &[u8]) -> Result<String, Stop>
    requires { length text.now ≤ 2 ^ 20 }
{
    let tokens = lex(alloc, text)?;
    let mut lines = String::new(alloc);
    for token in tokens.as_slice() {
        let kind = token.kind;
        let place = token.place;
        let length = token.length;
        write!(lines, "{kind:?} {place} {length}\n")?;
    }
    Ok(lines)
}

/// Whether the rows derive the tokens of a text within limits, or which token is the first wrong one.
pub fn derivation(alloc: Global, text: &[u8], limits: Limits) -> Result<String, Stop>
    requires { length text.now ≤ 2 ^ 20 }
{
    let tokens = lex(alloc, text)?;
    let classes = classes_of(alloc, text, tokens.as_slice())?;
    match derive(alloc, classes.as_slice(), limits) {
        Ok(_) => Ok(String::from_str(alloc, "derived")?),
        Err(Refused { stop, at }) => Ok(format!(in alloc; "{stop:?} at token {at}")?),
    }
}

/// Whether a text has a tree.
pub fn reading(alloc: Global, text: &[u8]) -> Result<String, Stop>
    requires { length text.now ≤ 2 ^ 20 }
{
    let _tree = tree(alloc, text)?;
    Ok(String::from_str(alloc, "read")?)
}

/// The tree of a text.
pub fn tree(alloc: Global, text: &[u8]) -> Result<Tree, Stop>
    requires { length text.now ≤ 2 ^ 20 }
{
    let tokens = lex(alloc, text)?;
    let tree = read(alloc, text, tokens.as_slice())?;
    Ok(tree)
}
