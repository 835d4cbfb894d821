//! The numbers that decimal digits spell.

ghost use Rattle.std.specs.Prelude.{◌≡◌, ◌≤◌, length};
ghost use Rattle.std.specs.Str.Parse.{AllDigits, digits_value};
ghost use Rattle.av_values.specs.Numbers.{signed, spelled_integer, spelled_number};

use av_affine::Text;

/// The number that decimal digits spell, with a `-` before them or without.
pub fn integer_of(digits: &Text, negative: bool) -> i128
    ensures value { result ≡ spelled_integer digits.now negative }
    ensures plain { AllDigits 10 digits.now → length digits.now ≤ 38 → result ≡ signed negative (digits_value 10 digits.now) }
{
    let value = i128::try_from(decimal(digits.as_slice())).unwrap_or(i128::MAX);
    if negative {
        value.saturating_neg()
    } else {
        value
    }
}

/// The number that decimal digits spell.
pub fn decimal(digits: &[u8]) -> u128
    ensures value { result ≡ spelled_number digits.now }
    ensures plain { AllDigits 10 digits.now → length digits.now ≤ 38 → result ≡ digits_value 10 digits.now }
{
    let mut value: u128 = 0;
    for digit in digits {
        value = value
            .saturating_mul(10)
            .saturating_add(u128::from(digit.saturating_sub(b'0')));
    }
    value
}
