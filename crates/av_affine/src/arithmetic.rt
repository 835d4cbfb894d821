//! Whole numbers of at most 2^110 in magnitude, of which no sum, product or quotient overflows.
ghost use Rattle.std.specs.Prelude.{◌≡◌, ◌+◌, ◌*◌, ◌^◌, ◌≤◌, pos, neg_ℤ, ◌+ℤ◌, ◌-ℤ◌, ◌*ℤ◌, ◌≤ℤ◌, unsigned_abs};
ghost use Rattle.av_affine.specs.Values.{ceil_quotient, floor_quotient, remainder};

pub fn negation(x: i128) -> i128
    requires { unsigned_abs x ≤ 2 ^ 110 }
    ensures { result ≡ neg_ℤ x }
{
    -x
}

pub fn sum(x: i128, y: i128) -> i128
    requires { unsigned_abs x + unsigned_abs y ≤ 2 ^ 110 }
    ensures { result ≡ x +ℤ y }
{
    x + y
}

pub fn difference(x: i128, y: i128) -> i128
    requires { unsigned_abs x + unsigned_abs y ≤ 2 ^ 110 }
    ensures { result ≡ x -ℤ y }
{
    x - y
}

pub fn product(x: i128, y: i128) -> i128
    requires { unsigned_abs x * unsigned_abs y ≤ 2 ^ 110 }
    ensures { result ≡ x *ℤ y }
{
    x * y
}

// What is left of `x`: from 0 to the divisor less one.
pub fn remainder_of(x: i128, divisor: i128) -> i128
    requires { pos 1 ≤ℤ divisor }
    ensures { result ≡ remainder x divisor }
{
    x.rem_euclid(divisor)
}

pub fn floor_of(x: i128, divisor: i128) -> i128
    requires { pos 1 ≤ℤ divisor }
    ensures { result ≡ floor_quotient x divisor }
{
    x.div_euclid(divisor)
}

pub fn ceil_of(x: i128, divisor: i128) -> i128
    requires bound { unsigned_abs x ≤ 2 ^ 110 }
    requires divisor { pos 1 ≤ℤ divisor }
    ensures { result ≡ ceil_quotient x divisor }
{
    -(-x).div_euclid(divisor)
}
