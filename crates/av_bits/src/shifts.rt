ghost use Rattle.std.specs.Prelude.{◌≡◌, ◌*◌, ◌/◌, ◌%◌, ◌^◌, min, pos};
ghost use Rattle.av_bits.specs.Pattern.{bits_of, IsPattern, pattern_of, signed_value};
ghost use Rattle.av_bits.specs.Scalar.{floor_div};

use crate::pattern::{bits, low_bits, signed, wrap};
use crate::types::Width;

pub fn shift_left(width: Width, a: u64, by: u64) -> u64
    ensures value { result ≡ a * 2 ^ min by (bits_of width) % 2 ^ bits_of width }
    ensures pattern { IsPattern width result }
{
    if by < u64::from(bits(width)) {
        low_bits(width, a << by)
    } else {
        0
    }
}

pub fn shift_right(width: Width, a: u64, by: u64) -> u64
    requires { IsPattern width a }
    ensures value { result ≡ a / 2 ^ min by (bits_of width) }
    ensures pattern { IsPattern width result }
{
    if by < u64::from(bits(width)) {
        a >> by
    } else {
        0
    }
}

// Copies of the sign come in from the left.
pub fn shift_right_signed(width: Width, a: u64, by: u64) -> u64
    requires { IsPattern width a }
    ensures value { result ≡ pattern_of (bits_of width) (floor_div (signed_value (bits_of width) a) (pos (2 ^ min by (bits_of width)))) }
    ensures pattern { IsPattern width result }
{
    let last = u64::from(bits(width)) - 1;
    wrap(width, i128::from(signed(width, a) >> by.min(last)))
}
