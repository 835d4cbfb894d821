ghost use Rattle.std.specs.Prelude.{◌≡◌, IfOk};
ghost use Rattle.av_bits.specs.Pattern.{IsPattern};
ghost use Rattle.av_bits.specs.Scalar.{binary_of};

use crate::divisions::{
    ceil_divide, ceil_divide_unsigned, divide, divide_unsigned, floor_divide, remainder,
    remainder_unsigned,
};
use crate::pattern::{low_bits, signed, wrap};
use crate::shifts::{shift_left, shift_right, shift_right_signed};
use crate::types::{BinOp, DivideTrap, Width};

/// The pattern that `op` gives for the patterns `a` and `b` of the width.
///
/// # Errors
///
/// The trap comes exactly where a division or remainder has a divisor of zero, or a signed one has
/// the least value by -1. On `W1` the pattern 1 is -1, and the least value too.
pub fn binary(op: BinOp, width: Width, a: u64, b: u64) -> Result<u64, DivideTrap>
    requires first { IsPattern width a }
    requires second { IsPattern width b }
    ensures value { result ≡ binary_of op width a b }
    ensures pattern { IfOk result (IsPattern width) }
{
    match op {
        BinOp::Addi => Ok(wrap(width, i128::from(a) + i128::from(b))),
        BinOp::Subi => Ok(wrap(width, i128::from(a) - i128::from(b))),
        BinOp::Muli => Ok(low_bits(width, a.wrapping_mul(b))),
        BinOp::Andi => Ok(a & b),
        BinOp::Ori => Ok(a | b),
        BinOp::Xori => Ok(a ^ b),
        BinOp::Shli => Ok(shift_left(width, a, b)),
        BinOp::Shrsi => Ok(shift_right_signed(width, a, b)),
        BinOp::Shrui => Ok(shift_right(width, a, b)),
        BinOp::Minsi => Ok(if signed(width, b) < signed(width, a) {
            b
        } else {
            a
        }),
        BinOp::Minui => Ok(a.min(b)),
        BinOp::Maxsi => Ok(if signed(width, a) < signed(width, b) {
            b
        } else {
            a
        }),
        BinOp::Maxui => Ok(a.max(b)),
        BinOp::Divsi => divide(width, a, b),
        BinOp::Remsi => remainder(width, a, b),
        BinOp::Floordivsi => floor_divide(width, a, b),
        BinOp::Ceildivsi => ceil_divide(width, a, b),
        BinOp::Divui => divide_unsigned(a, b),
        BinOp::Remui => remainder_unsigned(a, b),
        BinOp::Ceildivui => ceil_divide_unsigned(a, b),
    }
}
