ghost use Rattle.std.specs.Prelude.{◌≡◌, ◌+◌, ◌^◌, ◌<◌, ◌≤◌, length};
ghost use Rattle.av_lex.specs.Tokens.{LexesTo, OnlyTokens, OnlyFault};

use crate::step::{Step, first_step};
use crate::token::{LexFault, Token};
use av_affine::Seq;
use std::alloc::Global;

/// The tokens of a text of fewer than 2^32 bytes, in order.
///
/// # Errors
///
/// `BadByte` with the place where no token begins or goes on, or `LongNumber` with the place of a
/// number of more than 38 digits, whichever is first in the text; `NoMemory` where memory lacks.
pub fn lex(alloc: Global, bytes: &[u8]) -> Result<Seq<Token>, LexFault>
    requires { length bytes.now < 2 ^ 32 }
    ensures found { LexesTo bytes.now result }
    // A text has one list of tokens or one first fault, and it is the answer.
    ensures only_tokens { OnlyTokens bytes.now result }
    ensures only_fault { OnlyFault bytes.now result }
{
    scan(alloc, bytes)
}

// The tokens one after another, or the first fault.
fn scan(alloc: Global, bytes: &[u8]) -> Result<Seq<Token>, LexFault>
    requires { length bytes.now < 2 ^ 32 }
    ensures { LexesTo bytes.now result }
{
    let mut tokens = Seq::new(alloc);
    let mut at: usize = 0;
    while at < bytes.len() {
        match first_step(bytes.split_at(at).1) {
            Step::Separator(length) => at += length,
            Step::Token(kind, length) => {
                let token = Token {
                    kind,
                    place: at as u32,
                    length: length as u32,
                };
                tokens.push(token)?;
                at += length;
            }
            Step::BadByte(after) => return Err(LexFault::BadByte((at + after) as u32)),
            Step::LongNumber(after) => return Err(LexFault::LongNumber((at + after) as u32)),
        }
    }
    Ok(tokens)
}
