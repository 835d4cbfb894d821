use av_affine::{Duplicate, No, Seq, duplicate_all};
use std::alloc::{AllocError, Global};

/// A buffer: its sizes, outermost first, and the patterns of its elements in row-major order.
#[derive(Debug, Drop, PartialEq)]
pub struct Buffer {
    pub sizes: Seq<u64>,
    pub cells: Seq<u64>,
}

/// An argument of a run: the pattern of a scalar, or a buffer.
#[derive(Debug, Drop, PartialEq)]
pub enum Arg {
    Word(u64),
    Buf(Buffer),
}

/// The arguments of a run, in the function's order.
#[derive(Debug, Drop, PartialEq)]
pub struct Args {
    pub list: Seq<Arg>,
}

/// Why an operation of a run traps.
#[derive(Clone, Copy, Debug, Drop, PartialEq, Eq)]
pub enum TrapKind {
    /// A subscript is outside its dimension.
    OutOfBounds,
    /// A division by zero, or of the least signed value by -1.
    Divide,
    /// The result of a map is outside -2^47 to 2^47, or a step is below 1.
    IndexRange,
}

/// Why a run stops before its end.
#[derive(Clone, Copy, Debug, Drop, PartialEq, Eq)]
pub enum RunStop {
    /// The operation of this number traps.
    Trap(TrapKind, No),
    OutOfSteps,
    NoMemory,
}

impl From<AllocError> for RunStop {
    ghost use Rattle.std.specs.Prelude.{◌≡◌};
    ghost use Rattle.av_ir.specs.declared.run.RunStop.TheVariants.{NoMemory};

    ghost from_gives = { λ _ stop. stop ≡ NoMemory };

    fn from(_fault: AllocError) -> RunStop {
        RunStop::NoMemory
    }
}

impl Duplicate for Buffer {
    fn duplicate(&self, alloc: Global) -> Result<Buffer, AllocError> {
        Ok(Buffer {
            sizes: self.sizes.duplicate(alloc)?,
            cells: self.cells.duplicate(alloc)?,
        })
    }
}

impl Duplicate for Arg {
    fn duplicate(&self, alloc: Global) -> Result<Arg, AllocError> {
        match self {
            Arg::Word(pattern) => Ok(Arg::Word(*pattern)),
            Arg::Buf(buffer) => Ok(Arg::Buf(buffer.duplicate(alloc)?)),
        }
    }
}

impl Duplicate for Args {
    fn duplicate(&self, alloc: Global) -> Result<Args, AllocError> {
        Ok(Args {
            list: duplicate_all(alloc, self.list.as_slice())?,
        })
    }
}
