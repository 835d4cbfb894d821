ghost use Rattle.std.specs.Prelude.{◌≡◌, ◌-◌, ◌%◌, ◌^◌};
ghost use Rattle.av_bits.specs.Pattern.{bits_of, IsPattern, pattern_of, signed_value};

use crate::types::Width;
use num_traits::cast;

/// The number of bits of the width.
pub fn bits(width: Width) -> u32
    ensures { result ≡ bits_of width }
{
    match width {
        Width::W1 => 1,
        Width::W8 => 8,
        Width::W16 => 16,
        Width::W32 => 32,
        Width::W64 => 64,
    }
}

// All ones: the greatest pattern.
pub fn all_ones(width: Width) -> u64
    ensures { result ≡ 2 ^ bits_of width - 1 }
{
    match width {
        Width::W1 => 1,
        Width::W8 => 0xff,
        Width::W16 => 0xffff,
        Width::W32 => 0xffff_ffff,
        Width::W64 => 0xffff_ffff_ffff_ffff,
    }
}

// The least signed value: the top bit alone.
pub fn top_bit(width: Width) -> u64
    ensures { result ≡ 2 ^ (bits_of width - 1) }
{
    match width {
        Width::W1 => 1,
        Width::W8 => 0x80,
        Width::W16 => 0x8000,
        Width::W32 => 0x8000_0000,
        Width::W64 => 0x8000_0000_0000_0000,
    }
}

// The low bits of `x`, as many as the width has.
pub fn low_bits(width: Width, x: u64) -> u64
    ensures value { result ≡ x % 2 ^ bits_of width }
    ensures pattern { IsPattern width result }
{
    x & all_ones(width)
}

/// `x` modulo 2 to the width: the pattern that stands for it.
pub fn wrap(width: Width, x: i128) -> u64
    ensures value { result ≡ pattern_of (bits_of width) x }
    ensures pattern { IsPattern width result }
{
    cast(x.cast_unsigned() & u128::from(all_ones(width))).unwrap()
}

/// The signed value of the pattern `p`, in two's complement.
pub fn signed(width: Width, p: u64) -> i64
    requires { IsPattern width p }
    ensures { result ≡ signed_value (bits_of width) p }
{
    let value = i128::from(p);
    if p < top_bit(width) {
        cast(value).unwrap()
    } else {
        cast(value - i128::from(all_ones(width)) - 1).unwrap()
    }
}
