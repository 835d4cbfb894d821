//! Words: what is asked for.

ghost use Rattle.std.specs.Prelude.{◌≡◌, ℕ, ◌+◌, ◌/◌, ◌%◌, ◌≤◌, [], ◌∷◌, codes, MatchOption};
ghost use Rattle.av_top.specs.Request.{IsSized, IsVectorize, AsksNothing, texts, number};

use av_printer::Form;

/// What the words ask for: `vectorize --sizes S`, with `--generic` last for the generic form.
#[derive(Clone, Copy, Debug, PartialEq, Eq)]
pub struct Request {
    /// The number of lanes, 1 to 64.
    pub size: u16,
    /// The form that the module is printed in.
    pub form: Form,
}

/// The request of the words after the program's name, if they are one.
pub fn request_of(words: &[String]) -> Option<Request>
    ensures { MatchOption result (AsksNothing (texts words.now)) (λ r. IsVectorize (texts words.now) r) }
{
    match words {
        [command, option, size] => {
            named_request(command.as_bytes(), option.as_bytes(), size.as_bytes())
        }
        [command, option, size, last] => generic_request(
            command.as_bytes(),
            option.as_bytes(),
            size.as_bytes(),
            last.as_bytes(),
        ),
        _ => None,
    }
}

// The request of three words, if they are one.
fn named_request(command: &[u8], option: &[u8], size: &[u8]) -> Option<Request>
    ensures { MatchOption result (AsksNothing (command.now ∷ option.now ∷ size.now ∷ [])) (λ r. IsVectorize (command.now ∷ option.now ∷ size.now ∷ []) r) }
{
    match lanes_of(command, option, size) {
        Some(size) => Some(Request {
            size,
            form: Form::Named,
        }),
        None => None,
    }
}

// The request of four words, if they are one.
fn generic_request(command: &[u8], option: &[u8], size: &[u8], last: &[u8]) -> Option<Request>
    ensures { MatchOption result (AsksNothing (command.now ∷ option.now ∷ size.now ∷ last.now ∷ [])) (λ r. IsVectorize (command.now ∷ option.now ∷ size.now ∷ last.now ∷ []) r) }
{
    if last != b"--generic".as_slice() {
        return None;
    }
    match lanes_of(command, option, size) {
        Some(size) => Some(Request {
            size,
            form: Form::Generic,
        }),
        None => None,
    }
}

// The number of lanes that the first three words ask for, if they do.
fn lanes_of(command: &[u8], option: &[u8], size: &[u8]) -> Option<u16>
    ensures { MatchOption result ((n : ℕ) → IsSized command.now option.now size.now n → ⊥) (λ n. IsSized command.now option.now size.now n) }
{
    if command != b"vectorize".as_slice() || option != b"--sizes".as_slice() {
        return None;
    }
    size_of(size)
}

// The size that a text spells, from 1 to 64.
fn size_of(text: &[u8]) -> Option<u16>
    ensures { MatchOption result ((n : ℕ) → 1 ≤ n → n ≤ 64 → text.now ≡ number n → ⊥) (λ n. (1 ≤ n) × (n ≤ 64) × (text.now ≡ number n)) }
{
    match text {
        [digit] => one_digit(*digit),
        [tens, ones] => two_digits(*tens, *ones),
        _ => None,
    }
}

// The size that one digit spells, from 1 to 9.
fn one_digit(digit: u8) -> Option<u16>
    ensures { MatchOption result ((n : ℕ) → 1 ≤ n → n ≤ 9 → digit ≡ 48 + n → ⊥) (λ n. (1 ≤ n) × (n ≤ 9) × (digit ≡ 48 + n)) }
{
    let Some(size) = value_of(digit) else {
        return None;
    };
    if size > 0 { Some(size) } else { None }
}

// The size that two digits spell, from 10 to 64.
fn two_digits(tens: u8, ones: u8) -> Option<u16>
    ensures { MatchOption result ((n : ℕ) → 10 ≤ n → n ≤ 64 → tens ≡ 48 + n / 10 → ones ≡ 48 + n % 10 → ⊥) (λ n. (10 ≤ n) × (n ≤ 64) × (tens ≡ 48 + n / 10) × (ones ≡ 48 + n % 10)) }
{
    let Some(high) = value_of(tens) else {
        return None;
    };
    let Some(low) = value_of(ones) else {
        return None;
    };
    let size = 10 * high + low;
    if high > 0 && size <= 64 {
        Some(size)
    } else {
        None
    }
}

// The value of a decimal digit.
fn value_of(digit: u8) -> Option<u16>
    ensures { MatchOption result ((n : ℕ) → n ≤ 9 → digit ≡ 48 + n → ⊥) (λ n. (n ≤ 9) × (digit ≡ 48 + n)) }
{
    if digit.is_ascii_digit() {
        Some(u16::from(digit - b'0'))
    } else {
        None
    }
}
