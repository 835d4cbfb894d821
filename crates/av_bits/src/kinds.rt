ghost use Rattle.std.specs.Prelude.{◌≡◌};
ghost use Rattle.av_bits.specs.Pattern.{IsPattern};
ghost use Rattle.av_bits.specs.Kinds.{combine_of, neutral_of, operation_of};

use crate::operations::binary;
use crate::pattern::{all_ones, top_bit};
use crate::types::{BinOp, Kind9, Width};

/// The binary operation by which the kind combines two patterns. It never traps.
pub fn op_of_kind(kind: Kind9) -> BinOp
    ensures { result ≡ operation_of kind }
{
    match kind {
        Kind9::Add => BinOp::Addi,
        Kind9::Mul => BinOp::Muli,
        Kind9::And => BinOp::Andi,
        Kind9::Or => BinOp::Ori,
        Kind9::Xor => BinOp::Xori,
        Kind9::Minsi => BinOp::Minsi,
        Kind9::Minui => BinOp::Minui,
        Kind9::Maxsi => BinOp::Maxsi,
        Kind9::Maxui => BinOp::Maxui,
    }
}

/// The pattern that leaves each pattern of the width as it is when the kind combines them.
pub fn neutral(kind: Kind9, width: Width) -> u64
    ensures value { result ≡ neutral_of kind width }
    ensures pattern { IsPattern width result }
{
    match kind {
        Kind9::Add | Kind9::Or | Kind9::Xor | Kind9::Maxui => 0,
        Kind9::Mul => 1,
        Kind9::And | Kind9::Minui => all_ones(width),
        Kind9::Minsi => top_bit(width) - 1,
        Kind9::Maxsi => top_bit(width),
    }
}

/// The pattern that the kind makes of the patterns `a` and `b` of the width. Their order and grouping
/// make no difference.
pub fn combine(kind: Kind9, width: Width, a: u64, b: u64) -> u64
    requires first { IsPattern width a }
    requires second { IsPattern width b }
    ensures value { result ≡ combine_of kind width a b }
    ensures pattern { IsPattern width result }
{
    binary(op_of_kind(kind), width, a, b).unwrap()
}
