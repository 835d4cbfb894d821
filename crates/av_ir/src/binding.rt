ghost use Rattle.std.specs.Prelude.{◌≡◌, ◌<◌, length, IfOk, IsTrue};
ghost use Rattle.std.specs.List.{All, range_with_len};
ghost use Rattle.av_ir.specs.Memory.{bound_of, end_of};

use super::types::Ended;
use super::{Arg, Args, Buffer, Func};
use av_affine::{Duplicate, No, Seq};
use std::alloc::{AllocError, Global};

/// The arguments of a run in memory.
#[derive(Debug, Drop, PartialEq)]
pub struct Bound {
    /// The buffers.
    pub memory: Seq<Buffer>,
    /// For each memref argument the place of its buffer in `memory`.
    pub at: Seq<No>,
    /// The patterns of the other arguments.
    pub words: Seq<u64>,
}

/// Arguments in memory: each memref argument has a buffer of its own, in order.
///
/// # Errors
///
/// Want of memory.
pub fn bind(alloc: Global, _f: &Func, args: Args) -> Result<Bound, AllocError>
    ensures { IfOk result (λ b. b ≡ bound_of args) }
{
    let mut memory = Seq::new(alloc);
    let mut at = Seq::new(alloc);
    let mut words = Seq::new(alloc);
    for arg in args.list.into_vec() {
        match arg {
            Arg::Word(pattern) => words.push(pattern)?,
            Arg::Buf(buffer) => {
                at.push(memory.len() as No)?;
                memory.push(buffer)?;
            }
        }
    }
    Ok(Bound { memory, at, words })
}

// Whether these are the places of a list of this length, each once and in order.
fn in_order(at: &[No], count: usize) -> bool
    ensures { IsTrue result → at.now ≡ range_with_len 0 count }
{
    if at.len() != count {
        return false;
    }
    for place in 0..at.len() {
        if at[place] != place as No {
            return false;
        }
    }
    true
}

/// The end of a run: for each memref argument the buffer that it stands for, and the results.
///
/// # Errors
///
/// Want of memory.
pub fn ended(alloc: Global, b: Bound, results: Seq<u64>) -> Result<Ended, AllocError>
    requires { All (λ k. k < length b.memory) b.at }
    ensures { IfOk result (λ e. e ≡ end_of b results) }
{
    let Bound {
        memory,
        at,
        words: _words,
    } = b;
    if in_order(at.as_slice(), memory.len()) {
        return Ok(Ended {
            buffers: memory,
            results,
        });
    }
    let mut buffers = Seq::new(alloc);
    for place in at.as_slice() {
        buffers.push(memory.as_slice()[*place as usize].duplicate(alloc)?)?;
    }
    Ok(Ended { buffers, results })
}
