ghost use Rattle.std.specs.Prelude.{◌≡◌, ◌↔◌, ◌<◌, ◌/◌, ◌%◌, IsFalse, IsTrue, IsErr, IfOk, OnErr, OnOk, int_div, int_rem};
ghost use Rattle.std.specs.Int.{w64, CanDivide, div_ceil};
ghost use Rattle.av_bits.specs.Pattern.{bits_of, IsPattern, signed_value};
ghost use Rattle.av_bits.specs.Scalar.{ceil_div, floor_div, signed_division, signed_division_traps, unsigned_division};

use crate::pattern::{all_ones, signed, top_bit, wrap};
use crate::types::{DivideTrap, Width};

// Whether the signed quotient has no pattern.
fn traps(width: Width, a: u64, b: u64) -> bool
    ensures { result ≡ signed_division_traps (bits_of width) a b }
{
    b == 0 || (a == top_bit(width) && b == all_ones(width))
}

// The signed values of dividend and divisor, unless their division traps.
fn signed_operands(width: Width, a: u64, b: u64) -> Result<(i64, i64), DivideTrap>
    requires dividend { IsPattern width a }
    requires divisor { IsPattern width b }
    ensures trap { OnErr result (IsTrue (signed_division_traps (bits_of width) a b)) }
    ensures no_trap { OnOk result (IsFalse (signed_division_traps (bits_of width) a b)) }
    ensures first { IfOk result (λ v. v.0 ≡ signed_value (bits_of width) a) }
    ensures second { IfOk result (λ v. v.1 ≡ signed_value (bits_of width) b) }
    ensures divides { IfOk result (λ v. CanDivide w64 v.0 v.1) }
{
    if traps(width, a, b) {
        return Err(DivideTrap);
    }
    Ok((signed(width, a), signed(width, b)))
}

// `x / y` and `x % y` as whole numbers.
fn quotient(x: i64, y: i64) -> i64
    requires { CanDivide w64 x y }
    ensures { result ≡ int_div x y }
{
    x / y
}

fn rest(x: i64, y: i64) -> i64
    requires { CanDivide w64 x y }
    ensures { result ≡ int_rem x y }
{
    x % y
}

// The quotient rounded down.
fn floor_quotient(x: i64, y: i64) -> i128
    requires { CanDivide w64 x y }
    ensures { result ≡ floor_div x y }
{
    let toward_zero = i128::from(quotient(x, y));
    let rest = rest(x, y);
    if y > 0 {
        if rest < 0 {
            toward_zero - 1
        } else {
            toward_zero
        }
    } else if rest > 0 {
        toward_zero - 1
    } else {
        toward_zero
    }
}

// The quotient rounded up.
fn ceil_quotient(x: i64, y: i64) -> i128
    requires { CanDivide w64 x y }
    ensures { result ≡ ceil_div x y }
{
    let toward_zero = i128::from(quotient(x, y));
    let rest = rest(x, y);
    if y > 0 {
        if rest > 0 {
            toward_zero + 1
        } else {
            toward_zero
        }
    } else if rest < 0 {
        toward_zero + 1
    } else {
        toward_zero
    }
}

// The signed quotient, rounded toward zero.
pub fn divide(width: Width, a: u64, b: u64) -> Result<u64, DivideTrap>
    requires dividend { IsPattern width a }
    requires divisor { IsPattern width b }
    ensures value { result ≡ signed_division int_div (bits_of width) a b }
    ensures pattern { IfOk result (IsPattern width) }
{
    let (x, y) = signed_operands(width, a, b)?;
    Ok(wrap(width, i128::from(quotient(x, y))))
}

// The signed remainder, with the sign of the dividend.
pub fn remainder(width: Width, a: u64, b: u64) -> Result<u64, DivideTrap>
    requires dividend { IsPattern width a }
    requires divisor { IsPattern width b }
    ensures value { result ≡ signed_division int_rem (bits_of width) a b }
    ensures pattern { IfOk result (IsPattern width) }
{
    let (x, y) = signed_operands(width, a, b)?;
    Ok(wrap(width, i128::from(rest(x, y))))
}

// The signed quotient, rounded down.
pub fn floor_divide(width: Width, a: u64, b: u64) -> Result<u64, DivideTrap>
    requires dividend { IsPattern width a }
    requires divisor { IsPattern width b }
    ensures value { result ≡ signed_division floor_div (bits_of width) a b }
    ensures pattern { IfOk result (IsPattern width) }
{
    let (x, y) = signed_operands(width, a, b)?;
    Ok(wrap(width, floor_quotient(x, y)))
}

// The signed quotient, rounded up.
pub fn ceil_divide(width: Width, a: u64, b: u64) -> Result<u64, DivideTrap>
    requires dividend { IsPattern width a }
    requires divisor { IsPattern width b }
    ensures value { result ≡ signed_division ceil_div (bits_of width) a b }
    ensures pattern { IfOk result (IsPattern width) }
{
    let (x, y) = signed_operands(width, a, b)?;
    Ok(wrap(width, ceil_quotient(x, y)))
}

fn nonzero(divisor: u64) -> Result<u64, DivideTrap>
    ensures trap { IsErr result ↔ (divisor ≡ 0) }
    ensures same { IfOk result (λ v. v ≡ divisor) }
{
    if divisor == 0 {
        Err(DivideTrap)
    } else {
        Ok(divisor)
    }
}

pub fn divide_unsigned(a: u64, b: u64) -> Result<u64, DivideTrap>
    ensures { result ≡ unsigned_division (λ x y. x / y) a b }
{
    Ok(a / nonzero(b)?)
}

pub fn remainder_unsigned(a: u64, b: u64) -> Result<u64, DivideTrap>
    ensures { result ≡ unsigned_division (λ x y. x % y) a b }
{
    Ok(a % nonzero(b)?)
}

pub fn ceil_divide_unsigned(a: u64, b: u64) -> Result<u64, DivideTrap>
    ensures { result ≡ unsigned_division div_ceil a b }
{
    Ok(a.div_ceil(nonzero(b)?))
}
