//! Reading: tokens to a tree, or the place of the first wrong token.

ghost use Rattle.std.specs.Prelude.{◌≡◌, ◌≢◌, ◌<◌, ◌^◌, length, IfErr, IfOk};
ghost use Rattle.av_tree.specs.declared.node.Tree.{Tree as OneTree};
ghost use Rattle.av_reader.specs.Reading.{IsRefusal, IsTree, place_at as the_place_at};

use super::building::build;
use av_derive::{Limits, Stop, classes_of, derive};
use av_lex::Token;
use av_tree::Tree;
use av_values::stack::Fault;
use std::alloc::{AllocError, Global};
use thiserror::Error;

/// Why no tree is read.
#[derive(Debug, Drop, PartialEq, Error)]
pub enum ReadRefusal {
    /// The token at this place goes on no tree; the number of bytes where tokens lack.
    #[error("not a module at {0}")]
    NotAModule(u32),
    /// The bracket or sign at this place is one too many.
    #[error("too deep at {0}")]
    TooDeep(u32),
    /// Memory lacks.
    #[error("out of memory")]
    NoMemory,
}

impl From<AllocError> for ReadRefusal {
    ghost use Rattle.std.specs.Prelude.{◌≡◌};
    ghost use Rattle.av_reader.specs.declared.reading.ReadRefusal.TheVariants.{NoMemory};

    ghost from_gives = { λ _ refusal. refusal ≡ NoMemory };

    fn from(_fault: AllocError) -> ReadRefusal {
        ReadRefusal::NoMemory
    }
}

/// The limits of the format: 192 brackets open at once, and 192 signs and words of calculation in one
/// expression.
pub const LIMITS: Limits = Limits {
    brackets: 192,
    signs: 192,
};

/// The tree of the tokens of a text.
///
/// # Errors
///
/// The tokens are those of no tree, or memory lacks.
pub fn read(alloc: Global, bytes: &[u8], tokens: &[Token]) -> Result<Tree, ReadRefusal>
    requires { length bytes.now < 2 ^ 32 }
    ensures tree { IfOk result (λ tree. IsTree bytes.now tokens.now tree) }
    ensures only { IfOk result (λ tree. (other : OneTree) → IsTree bytes.now tokens.now other → other ≡ tree) }
    ensures none { IfErr result (λ refusal. refusal ≢ ReadRefusal.NoMemory → (tree : OneTree) → IsTree bytes.now tokens.now tree → ⊥) }
    ensures place { IfErr result (λ refusal. IsRefusal bytes.now tokens.now refusal) }
{
    let classes = classes_of(alloc, bytes, tokens)?;
    let events = match derive(alloc, &classes, LIMITS) {
        Ok(events) => events,
        Err(refused) => {
            let place = place_at(bytes, tokens, refused.at);
            return Err(refusal(refused.stop, place));
        }
    };
    match build(alloc, bytes, tokens, events) {
        Ok(tree) => Ok(tree),
        Err(Fault::NoMemory) => Err(ReadRefusal::NoMemory),
        Err(Fault::Misshapen) => unreachable!(),
    }
}

// The place of the token of a number; behind the last token the number of bytes.
fn place_at(bytes: &[u8], tokens: &[Token], number: usize) -> u32
    requires { length bytes.now < 2 ^ 32 }
    ensures { result ≡ the_place_at bytes.now tokens.now number }
{
    let end = bytes.len() as u32;
    tokens.get(number).map_or(end, |token| token.place)
}

fn refusal(stop: Stop, place: u32) -> ReadRefusal
    ensures wrong { stop ≡ Stop.Wrong → result ≡ ReadRefusal.NotAModule place }
    ensures deep { stop ≡ Stop.TooDeep → result ≡ ReadRefusal.TooDeep place }
    ensures memory { stop ≡ Stop.NoMemory → result ≡ ReadRefusal.NoMemory }
{
    match stop {
        Stop::Wrong => ReadRefusal::NotAModule(place),
        Stop::TooDeep => ReadRefusal::TooDeep(place),
        Stop::NoMemory => ReadRefusal::NoMemory,
    }
}
