//! The classes of tokens, by their kinds and spellings.

ghost use Rattle.std.specs.Prelude.{◌≡◌, ◌==◌, drop, IfOk};
ghost use Rattle.std.specs.List.{list_all};
ghost use Rattle.std.specs.Char.{is_ascii_digit as is_digit};
ghost use Rattle.av_lex.specs.declared.class.Class.TheVariants.{Word as WordByte, WordStart};
ghost use Rattle.av_lex.specs.Bytes.{in_class};
ghost use Rattle.av_dialects.specs.Rows.{number_of};
ghost use Rattle.av_tree.specs.Forms.{is_by_hand as has_form_by_hand};
ghost use Rattle.av_derive.specs.ClassOf.{class_of as the_class_of, spelling_of as the_spelling_of, classes_of as the_classes_of, class_of_keyword, class_of_number, keyword_of as the_keyword_of, is_scalar as is_scalar_word, class_of_hash as the_class_of_hash, class_of_quoted as the_class_of_quoted, spells_word, keywords, found_in};
ghost use Rattle.av_derive.specs.WordLengths.{of_lengths};

use av_dialects::{Item, Part, form_of, row_of};
use av_lex::{Kind, Token};
use av_tree::{Class, Keyword};
use std::alloc::{AllocError, Global};

/// The class of a token whose bytes are `spelling`.
pub fn class_of(kind: Kind, spelling: &[u8]) -> Class
    ensures { result ≡ the_class_of kind spelling.now }
{
    match kind {
        Kind::Sign(sign) => Class::Sign(sign),
        Kind::Word => class_of_word(spelling),
        Kind::Number => {
            if are_zeros(spelling) {
                Class::Zero
            } else {
                Class::Positive
            }
        }
        Kind::HashId => class_of_hash(spelling),
        Kind::DimX => Class::DimX,
        Kind::ScalX => Class::ScalX,
        Kind::ValId => Class::ValId,
        Kind::SymId => Class::SymId,
        Kind::CaretId => Class::CaretId,
        Kind::Quoted => class_of_quoted(spelling),
    }
}

/// The bytes of a token in its text; none where the token isn't of the text.
pub fn spelling_of<'a>(bytes: &'a [u8], token: &Token) -> &'a [u8]
    ensures { result.now ≡ the_spelling_of bytes.now token.now }
{
    let from = token.place as usize;
    let to = from.saturating_add(token.length as usize);
    bytes.get(from..to).unwrap_or(&[])
}

fn class_of_word(word: &[u8]) -> Class
    ensures { result ≡ class_of_keyword (the_keyword_of word.now) word.now }
{
    match keyword_of(word) {
        Some(keyword) => Class::Word(keyword),
        None => {
            if is_scalar(word) {
                Class::Scalar
            } else {
                class_of_other(word)
            }
        }
    }
}

// The keyword that a word is: only those of about its length are looked at.
fn keyword_of(word: &[u8]) -> Option<Keyword>
    ensures { result ≡ the_keyword_of word.now }
{
    match word.len() {
        0..=2 => keyword_to_two(word),
        3 => keyword_of_three(word),
        4 => keyword_of_four(word),
        5 => keyword_of_five(word),
        6 => keyword_of_six(word),
        7..=9 => keyword_to_nine(word),
        10..=13 => keyword_to_thirteen(word),
        _ => None,
    }
}

#[tactic(auto, unfolding(crate::specs::ClassOf::keywords))]
fn keyword_to_two(word: &[u8]) -> Option<Keyword>
    ensures { result ≡ found_in (of_lengths 0 2 keywords) word.now }
{
    if word == b"to".as_slice() {
        Some(Keyword::To)
    } else if word == b"or".as_slice() {
        Some(Keyword::Kind)
    } else if word == b"eq".as_slice() || word == b"ne".as_slice() {
        Some(Keyword::Predicate)
    } else {
        None
    }
}

#[tactic(auto, unfolding(crate::specs::ClassOf::keywords))]
fn keyword_of_three(word: &[u8]) -> Option<Keyword>
    ensures { result ≡ found_in (of_lengths 3 3 keywords) word.now }
{
    if word == b"min".as_slice() {
        Some(Keyword::Min)
    } else if word == b"max".as_slice() {
        Some(Keyword::Max)
    } else if word == b"nsw".as_slice() || word == b"nuw".as_slice() {
        Some(Keyword::OverflowFlag)
    } else if word == b"mod".as_slice() {
        Some(Keyword::Division)
    } else if word == b"add".as_slice()
        || word == b"mul".as_slice()
        || word == b"and".as_slice()
        || word == b"xor".as_slice()
    {
        Some(Keyword::Kind)
    } else {
        other_keyword_of_three(word)
    }
}

#[tactic(auto, unfolding(crate::specs::ClassOf::keywords))]
fn other_keyword_of_three(word: &[u8]) -> Option<Keyword>
    ensures { result ≡ found_in (drop 9 (of_lengths 3 3 keywords)) word.now }
{
    if word == b"slt".as_slice()
        || word == b"sle".as_slice()
        || word == b"sgt".as_slice()
        || word == b"sge".as_slice()
        || word == b"ult".as_slice()
        || word == b"ule".as_slice()
        || word == b"ugt".as_slice()
        || word == b"uge".as_slice()
    {
        Some(Keyword::Predicate)
    } else {
        None
    }
}

#[tactic(auto, unfolding(crate::specs::ClassOf::keywords))]
fn keyword_of_four(word: &[u8]) -> Option<Keyword>
    ensures { result ≡ found_in (of_lengths 4 4 keywords) word.now }
{
    if word == b"step".as_slice() {
        Some(Keyword::Step)
    } else if word == b"else".as_slice() {
        Some(Keyword::Else)
    } else if word == b"into".as_slice() {
        Some(Keyword::Into)
    } else if word == b"from".as_slice() {
        Some(Keyword::From)
    } else if word == b"true".as_slice() {
        Some(Keyword::Bool)
    } else {
        None
    }
}

#[tactic(auto, unfolding(crate::specs::ClassOf::keywords))]
fn keyword_of_five(word: &[u8]) -> Option<Keyword>
    ensures { result ≡ found_in (of_lengths 5 5 keywords) word.now }
{
    if word == b"array".as_slice() {
        Some(Keyword::Array)
    } else if word == b"dense".as_slice() {
        Some(Keyword::Dense)
    } else if word == b"false".as_slice() {
        Some(Keyword::Bool)
    } else if word == b"minsi".as_slice()
        || word == b"minui".as_slice()
        || word == b"maxsi".as_slice()
        || word == b"maxui".as_slice()
    {
        Some(Keyword::Kind)
    } else {
        None
    }
}

#[tactic(auto, unfolding(crate::specs::ClassOf::keywords))]
fn keyword_of_six(word: &[u8]) -> Option<Keyword>
    ensures { result ≡ found_in (of_lengths 6 6 keywords) word.now }
{
    if word == b"module".as_slice() {
        Some(Keyword::Module)
    } else if word == b"memref".as_slice() {
        Some(Keyword::MemRef)
    } else if word == b"vector".as_slice() {
        Some(Keyword::Vector)
    } else if word == b"offset".as_slice() {
        Some(Keyword::Offset)
    } else if word == b"symbol".as_slice() {
        Some(Keyword::Symbol)
    } else if word == b"return".as_slice() {
        Some(Keyword::Terminator)
    } else if word == b"public".as_slice() {
        Some(Keyword::Visibility)
    } else {
        None
    }
}

#[tactic(auto, unfolding(crate::specs::ClassOf::keywords))]
fn keyword_to_nine(word: &[u8]) -> Option<Keyword>
    ensures { result ≡ found_in (of_lengths 7 9 keywords) word.now }
{
    if word == b"func.func".as_slice() {
        Some(Keyword::FuncFunc)
    } else if word == b"strided".as_slice() {
        Some(Keyword::Strided)
    } else if word == b"overflow".as_slice() {
        Some(Keyword::Overflow)
    } else if word == b"iter_args".as_slice() {
        Some(Keyword::IterArgs)
    } else if word == b"scf.yield".as_slice() {
        Some(Keyword::Terminator)
    } else if word == b"private".as_slice() {
        Some(Keyword::Visibility)
    } else if word == b"floordiv".as_slice() || word == b"ceildiv".as_slice() {
        Some(Keyword::Division)
    } else {
        None
    }
}

#[tactic(auto, unfolding(crate::specs::ClassOf::keywords))]
fn keyword_to_thirteen(word: &[u8]) -> Option<Keyword>
    ensures { result ≡ found_in (of_lengths 10 13 keywords) word.now }
{
    if word == b"affine_map".as_slice() {
        Some(Keyword::AffineMap)
    } else if word == b"affine_set".as_slice() {
        Some(Keyword::AffineSet)
    } else if word == b"function_type".as_slice() {
        Some(Keyword::FunctionType)
    } else if word == b"attributes".as_slice() {
        Some(Keyword::Attributes)
    } else if word == b"func.return".as_slice() || word == b"affine.yield".as_slice() {
        Some(Keyword::Terminator)
    } else {
        None
    }
}

// The class of a word that is no keyword and no type: the name of an operation, or any other word.
fn class_of_other(word: &[u8]) -> Class
    ensures { result ≡ class_of_number (number_of word.now) }
{
    match row_of(word) {
        Some(number) => {
            if is_by_hand(form_of(number)) {
                Class::OtherWord
            } else {
                Class::Word(Keyword::Operation(number))
            }
        }
        None => Class::OtherWord,
    }
}

fn is_by_hand(parts: &[Part]) -> bool
    ensures { result ≡ has_form_by_hand parts.now }
{
    match parts {
        [part, ..] => matches!(part.1, Item::ByHand),
        [] => false,
    }
}

fn is_scalar(word: &[u8]) -> bool
    ensures { result ≡ is_scalar_word word.now }
{
    if word == b"index".as_slice() {
        return true;
    }
    match word {
        [first, digits @ ..] => *first == b'i' && !digits.is_empty() && are_digits(digits),
        [] => false,
    }
}

fn are_zeros(bytes: &[u8]) -> bool
    ensures { result ≡ list_all (λ b. b == 48) bytes.now }
{
    bytes.iter().all(|b| *b == b'0')
}

fn are_digits(bytes: &[u8]) -> bool
    ensures { result ≡ list_all is_digit bytes.now }
{
    bytes.iter().all(|b| b.is_ascii_digit())
}

fn class_of_hash(spelling: &[u8]) -> Class
    ensures { result ≡ the_class_of_hash spelling.now }
{
    match spelling {
        [_, rest @ ..] => {
            if are_digits(rest) {
                Class::HashDigits
            } else if is_word(rest) {
                Class::HashWord
            } else {
                Class::HashOther
            }
        }
        [] => Class::HashOther,
    }
}

fn class_of_quoted(spelling: &[u8]) -> Class
    ensures { result ≡ the_class_of_quoted spelling.now }
{
    if spelling == b"\"builtin.module\"".as_slice() {
        Class::QuotedModule
    } else if spelling == b"\"func.func\"".as_slice() {
        Class::QuotedFunc
    } else {
        Class::Quoted
    }
}

fn is_word(bytes: &[u8]) -> bool
    ensures { result ≡ spells_word bytes.now }
{
    match bytes {
        [first, rest @ ..] => is_word_start(*first) && are_word_bytes(rest),
        [] => false,
    }
}

#[tactic(auto, unfolding(av_lex::specs::Bytes::in_class))]
fn is_word_start(b: u8) -> bool
    ensures { result ≡ in_class WordStart b }
{
    b.is_ascii_alphabetic() || b == b'_'
}

fn are_word_bytes(bytes: &[u8]) -> bool
    ensures { result ≡ list_all (in_class WordByte) bytes.now }
{
    bytes.iter().all(|b| is_word_byte(*b))
}

#[tactic(auto, unfolding(av_lex::specs::Bytes::in_class))]
fn is_word_byte(b: u8) -> bool
    ensures { result ≡ in_class WordByte b }
{
    b.is_ascii_alphanumeric() || b == b'_' || b == b'$' || b == b'.'
}

/// The classes of the tokens of a text, in order.
///
/// # Errors
///
/// Memory lacks.
pub fn classes_of(alloc: Global, bytes: &[u8], tokens: &[Token]) -> Result<Vec<Class>, AllocError>
    ensures { IfOk result (λ classes. classes.items ≡ the_classes_of bytes.now tokens.now) }
{
    let mut classes = Vec::with_capacity(alloc, tokens.len())?;
    for token in tokens {
        classes.push(class_of(token.kind, spelling_of(bytes, token)))?;
    }
    Ok(classes)
}
