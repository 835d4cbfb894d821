ghost use Rattle.std.specs.Prelude.{◌≡◌, ◌+◌, ◌<◌, ◌≤◌, true, length, slice_index};
ghost use Rattle.av_lex.specs.Bytes.{in_class};
ghost use Rattle.av_lex.specs.Steps.{Next, Pair, IsNameOf, NoOther};

use crate::class::{Class, is_of, run_end};
use crate::token::{Kind, Sign};

/// The most digits of a number.
pub const MOST_DIGITS: usize = 38;

/// What stands at the begin of a text that isn't empty. Lengths and places count its bytes.
#[derive(Clone, Copy, Debug, PartialEq, Eq, Drop)]
pub enum Step {
    /// A blank or a comment of this length.
    Separator(usize),
    /// A token of this kind and length.
    Token(Kind, usize),
    /// No token: it can't begin or go on at this place.
    BadByte(usize),
    /// No token: the number that begins at this place is too long.
    LongNumber(usize),
}

/// The step at the begin of a text.
pub fn first_step(rest: &[u8]) -> Step
    requires { 1 ≤ length rest.now }
    ensures { Next rest.now result }
{
    let first = rest[0];
    if is_of(Class::WordStart, first) {
        return word(rest);
    }
    if is_of(Class::Digit, first) {
        return number(rest);
    }
    match first {
        b' ' | b'\t' | b'\r' | b'\n' => Step::Separator(1),
        b'/' => comment(rest),
        b'%' => name(Kind::ValId, rest),
        b'@' => name(Kind::SymId, rest),
        b'#' => name(Kind::HashId, rest),
        b'^' => name(Kind::CaretId, rest),
        b'"' => quoted(rest),
        b'[' => bracket(rest),
        b'?' => pair(rest, Kind::Sign(Sign::Question), b'x', Kind::DimX),
        b'-' => pair(rest, Kind::Sign(Sign::Minus), b'>', Kind::Sign(Sign::Arrow)),
        b'>' => pair(
            rest,
            Kind::Sign(Sign::CloseAngle),
            b'=',
            Kind::Sign(Sign::AtLeast),
        ),
        b'=' => pair(
            rest,
            Kind::Sign(Sign::Equal),
            b'=',
            Kind::Sign(Sign::EqualEqual),
        ),
        _ => single(rest),
    }
}

/// A sign of one byte that begins no other token, or a bad byte.
fn single(rest: &[u8]) -> Step
    requires some { 1 ≤ length rest.now }
    requires no_other { NoOther (slice_index rest.now 0) }
    ensures { Next rest.now result }
{
    match rest[0] {
        b'(' => Step::Token(Kind::Sign(Sign::OpenRound), 1),
        b')' => Step::Token(Kind::Sign(Sign::CloseRound), 1),
        b'{' => Step::Token(Kind::Sign(Sign::OpenCurly), 1),
        b'}' => Step::Token(Kind::Sign(Sign::CloseCurly), 1),
        b']' => Step::Token(Kind::Sign(Sign::CloseSquare), 1),
        b'<' => Step::Token(Kind::Sign(Sign::OpenAngle), 1),
        b',' => Step::Token(Kind::Sign(Sign::Comma), 1),
        b':' => Step::Token(Kind::Sign(Sign::Colon), 1),
        b'+' => Step::Token(Kind::Sign(Sign::Plus), 1),
        b'*' => Step::Token(Kind::Sign(Sign::Star), 1),
        _ => Step::BadByte(0),
    }
}

/// The longer kind where `second` follows the first byte, else the shorter.
fn pair(rest: &[u8], shorter: Kind, second: u8, longer: Kind) -> Step
    requires some { 1 ≤ length rest.now }
    requires kinds { Pair (slice_index rest.now 0) second shorter longer }
    ensures { Next rest.now result }
{
    if 1 < rest.len() && rest[1] == second {
        Step::Token(longer, 2)
    } else {
        Step::Token(shorter, 1)
    }
}

/// A comment, where the first byte is `/`.
fn comment(rest: &[u8]) -> Step
    requires some { 1 ≤ length rest.now }
    requires first { slice_index rest.now 0 ≡ 47 }
    ensures { Next rest.now result }
{
    if 1 < rest.len() && rest[1] == b'/' {
        Step::Separator(run_end(Class::Comment, rest, 2))
    } else {
        Step::BadByte(0)
    }
}

/// A token of this kind and length, unless its digits, which begin at `from`, are too many.
fn limited(digits: usize, from: usize, kind: Kind, length: usize) -> Step
    ensures long { 38 < digits → result ≡ Step.LongNumber from }
    ensures short { digits ≤ 38 → result ≡ Step.Token kind length }
{
    if digits > MOST_DIGITS {
        Step::LongNumber(from)
    } else {
        Step::Token(kind, length)
    }
}

/// A number or a size, where the first byte is a digit.
fn number(rest: &[u8]) -> Step
    requires some { 1 ≤ length rest.now }
    requires first { in_class Class.Digit (slice_index rest.now 0) ≡ true }
    ensures { Next rest.now result }
{
    let end = run_end(Class::Digit, rest, 1);
    if end < rest.len() && rest[end] == b'x' {
        limited(end, 0, Kind::DimX, end + 1)
    } else {
        limited(end, 0, Kind::Number, end)
    }
}

/// A scalable size or a bracket, where the first byte is `[`.
fn bracket(rest: &[u8]) -> Step
    requires some { 1 ≤ length rest.now }
    requires first { slice_index rest.now 0 ≡ 91 }
    ensures { Next rest.now result }
{
    let end = run_end(Class::Digit, rest, 1);
    if 1 < end && end + 1 < rest.len() && rest[end] == b']' && rest[end + 1] == b'x' {
        limited(end - 1, 1, Kind::ScalX, end + 2)
    } else {
        Step::Token(Kind::Sign(Sign::OpenSquare), 1)
    }
}

/// A word, where the first byte can begin one.
fn word(rest: &[u8]) -> Step
    requires some { 1 ≤ length rest.now }
    requires first { in_class Class.WordStart (slice_index rest.now 0) ≡ true }
    ensures { Next rest.now result }
{
    let end = run_end(Class::Word, rest, 1);
    Step::Token(Kind::Word, end)
}

/// A mark and a name, where the first byte is the kind's mark.
fn name(kind: Kind, rest: &[u8]) -> Step
    requires some { 1 ≤ length rest.now }
    requires first { IsNameOf kind (slice_index rest.now 0) }
    ensures { Next rest.now result }
{
    if rest.len() == 1 {
        Step::BadByte(1)
    } else if is_of(Class::Digit, rest[1]) {
        let end = run_end(Class::Digit, rest, 2);
        Step::Token(kind, end)
    } else if is_of(Class::NameStart, rest[1]) {
        let end = run_end(Class::Name, rest, 2);
        Step::Token(kind, end)
    } else {
        Step::BadByte(1)
    }
}

/// A text in quotes, where the first byte is a quote.
fn quoted(rest: &[u8]) -> Step
    requires some { 1 ≤ length rest.now }
    requires first { slice_index rest.now 0 ≡ 34 }
    ensures { Next rest.now result }
{
    let end = run_end(Class::Quoted, rest, 1);
    if end < rest.len() && rest[end] == b'"' {
        Step::Token(Kind::Quoted, end + 1)
    } else {
        Step::BadByte(end)
    }
}
