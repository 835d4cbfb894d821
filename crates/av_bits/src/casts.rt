ghost use Rattle.std.specs.Prelude.{◌≡◌};
ghost use Rattle.av_bits.specs.Pattern.{IsPattern};
ghost use Rattle.av_bits.specs.Scalar.{cast_of};

use crate::pattern::{low_bits, signed, wrap};
use crate::types::{CastOp, Width};

/// The pattern of the width `to` that the cast gives for the pattern `a` of the width `from`. Each
/// cast is defined for all widths: to a narrower one it keeps the low bits.
pub fn cast(op: CastOp, from: Width, to: Width, a: u64) -> u64
    requires { IsPattern from a }
    ensures value { result ≡ cast_of op from to a }
    ensures pattern { IsPattern to result }
{
    match op {
        CastOp::Extsi | CastOp::IndexCast => wrap(to, i128::from(signed(from, a))),
        CastOp::Extui | CastOp::Trunci | CastOp::IndexCastui => low_bits(to, a),
    }
}
