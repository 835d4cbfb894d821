//! What the spellings of words, strings and sizes stand for.

ghost use Rattle.std.specs.Prelude.{◌≡◌, ◌<◌, length, IfErr, IfOk};
ghost use Rattle.av_values.specs.Spellings as spelling;

use crate::numbers::decimal;
use crate::stack::{Fault, text_of};
use av_affine::{Seq, Text};
use av_tree::{Attr, DimText, SizeText, TypeText};
use std::alloc::Global;

/// The bytes between the quotes of a string.
pub fn unquoted(alloc: Global, string: &Text) -> Result<Text, Fault>
    ensures ok { IfOk result (λ text. text ≡ spelling.unquoted string.now) }
    ensures err { IfErr result (λ fault. fault ≡ Fault.NoMemory) }
{
    text_of(alloc, without_ends(string.as_slice(), 1))
}

// The bytes but for the first and so many of the last as `behind` says more than one.
fn without_ends(bytes: &[u8], behind: usize) -> &[u8]
    ensures { result.now ≡ spelling.without_ends bytes.now behind }
{
    match bytes {
        [_, rest @ ..] => rest.split_at(rest.len().saturating_sub(behind)).0,
        [] => bytes,
    }
}

/// Whether a word is `true`.
pub fn is_true(word: &Text) -> bool
    ensures { result ≡ spelling.is_true word.now }
{
    word.as_slice() == b"true".as_slice()
}

/// The size that stands before the `x` of a token.
pub fn size_of(token: &Text) -> SizeText
    ensures { result ≡ spelling.size_of token.now }
{
    if is_dynamic(token.as_slice()) {
        SizeText::Dynamic
    } else {
        SizeText::Fixed(decimal(before_x(token.as_slice())))
    }
}

/// The same as a dimension of a vector.
pub fn dim_of(token: &Text) -> DimText
    ensures { result ≡ spelling.dim_of token.now }
{
    if is_dynamic(token.as_slice()) {
        DimText::Dynamic
    } else {
        DimText::Fixed(decimal(before_x(token.as_slice())))
    }
}

/// The dimension of a token as `[8]x`.
pub fn scalable_of(token: &Text) -> DimText
    ensures { result ≡ spelling.scalable_of token.now }
{
    DimText::Scalable(decimal(without_ends(token.as_slice(), 2)))
}

fn is_dynamic(token: &[u8]) -> bool
    ensures { result ≡ spelling.is_dynamic token.now }
{
    match token {
        [first, ..] => *first == b'?',
        [] => true,
    }
}

fn before_x(token: &[u8]) -> &[u8]
    ensures { result.now ≡ spelling.before_x token.now }
{
    token.split_at(token.len().saturating_sub(1)).0
}

/// The number of a predicate of comparisons.
pub fn predicate_of(word: &Text) -> i128
    ensures { result ≡ spelling.predicate_number word.now }
{
    let word = word.as_slice();
    if word == b"eq".as_slice() {
        0
    } else if word == b"ne".as_slice() {
        1
    } else if word == b"slt".as_slice() {
        2
    } else if word == b"sle".as_slice() {
        3
    } else if word == b"sgt".as_slice() {
        4
    } else if word == b"sge".as_slice() {
        5
    } else if word == b"ult".as_slice() {
        6
    } else if word == b"ule".as_slice() {
        7
    } else if word == b"ugt".as_slice() {
        8
    } else {
        9
    }
}

/// A predicate as an attribute.
pub fn predicate(alloc: Global, word: &Text) -> Result<Attr, Fault>
    ensures ok { IfOk result (λ attr. attr ≡ spelling.predicate word.now) }
    ensures err { IfErr result (λ fault. fault ≡ Fault.NoMemory) }
{
    let value = predicate_of(word);
    let ty = TypeText::Scalar(text_of(alloc, b"i64")?);
    Ok(Attr::Number { value, ty })
}

/// The way in which a reduction combines, as an attribute.
pub fn kind(alloc: Global, word: Text) -> Result<Attr, Fault>
    ensures ok { IfOk result (λ attr. attr ≡ spelling.kind word) }
    ensures err { IfErr result (λ fault. fault ≡ Fault.NoMemory) }
{
    let name = text_of(alloc, b"#vector.kind")?;
    let mut words = Seq::new(alloc);
    words.push(word)?;
    Ok(Attr::Hash { name, words })
}

/// Numbers of places or lanes, as an attribute.
pub fn positions(alloc: Global, numbers: Seq<i128>) -> Result<Attr, Fault>
    ensures ok { IfOk result (λ attr. attr ≡ spelling.positions numbers) }
    ensures err { IfErr result (λ fault. fault ≡ Fault.NoMemory) }
{
    let elem = TypeText::Scalar(text_of(alloc, b"i64")?);
    Ok(Attr::Array { elem, numbers })
}
