//! The words of a case.
ghost use Rattle.std.specs.Prelude.{IfOk};
ghost use Rattle.av_bits.specs.Pattern.{IsPattern};

use av_bits::{Width, wrap};
use av_cases::{Case, Why};
use std::alloc::Global;
use std::fmt::Debug;

/// The words of a field.
pub fn words_of(alloc: Global, case: &Case, key: &str) -> Result<Vec<String>, Why> {
    match case.words(alloc, key) {
        Ok(words) => Ok(words),
        Err(fault) => Err(fault.why),
    }
}

/// The one of these that a word names.
pub fn named<T: Copy + Debug>(alloc: Global, all: &[T], word: &str) -> Result<T, Why> {
    for one in all {
        let one = *one;
        let name = format!(in alloc; "{one:?}")?;
        if name.as_str() == word {
            return Ok(one);
        }
    }
    Err(Why::BadValue)
}

/// The one of these that a name of MLIR's names, as `index_cast` names `IndexCast`.
pub fn spelled<T: Copy + Debug>(alloc: Global, all: &[T], name: &str) -> Result<T, Why> {
    let mut letters = String::new(alloc);
    for part in name.split('_') {
        letters.push_str(part)?;
    }
    for one in all {
        let one = *one;
        let shown = format!(in alloc; "{one:?}")?;
        if shown.as_str().eq_ignore_ascii_case(letters.as_str()) {
            return Ok(one);
        }
    }
    Err(Why::BadValue)
}

/// A number without a sign, of decimal digits, or of those of base 16 behind `0x`.
pub fn magnitude(word: &str) -> Result<u64, Why> {
    let number = match word.strip_prefix("0x") {
        Some(digits) => u64::from_str_radix(digits, 16),
        None => word.parse::<u64>(),
    };
    match number {
        Ok(number) => Ok(number),
        Err(_) => Err(Why::BadValue),
    }
}

/// A number with or without a sign.
pub fn whole(word: &str) -> Result<i128, Why> {
    match word.strip_prefix("-") {
        Some(digits) => Ok(i128::from(magnitude(digits)?).wrapping_neg()),
        None => Ok(i128::from(magnitude(word)?)),
    }
}

/// The pattern of a number.
pub fn pattern(width: Width, word: &str) -> Result<u64, Why>
    ensures { IfOk result (λ p. IsPattern width p) }
{
    Ok(wrap(width, whole(word)?))
}

/// Numbers with or without signs.
pub fn indices(alloc: Global, words: &[String]) -> Result<Vec<i64>, Why> {
    let mut numbers = Vec::new(alloc);
    for word in words {
        let Ok(number) = i64::try_from(whole(word.as_str())?) else {
            return Err(Why::BadValue);
        };
        numbers.push(number)?;
    }
    Ok(numbers)
}

/// Numbers without signs.
pub fn magnitudes(alloc: Global, words: &[String]) -> Result<Vec<u64>, Why> {
    let mut numbers = Vec::new(alloc);
    for word in words {
        numbers.push(magnitude(word.as_str())?)?;
    }
    Ok(numbers)
}
