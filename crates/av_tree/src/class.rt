//! Classes of tokens: what the rows of the format tell apart.

ghost use Rattle.std.specs.Prelude.{◌≡◌};
ghost use Rattle.av_tree.specs.Classes.{is_word};
ghost use Rattle.av_tree.specs.Classes.{bracket_of as bracket_of_class};
ghost use Rattle.av_tree.specs.Sets.{class_number as number_of_class, operation_in as the_operation_in};

use av_lex::Sign;

/// A word, or a set of words, that some row asks for.
#[derive(Clone, Copy, Debug, Drop, PartialEq, Eq)]
pub enum Keyword {
    Module,
    FuncFunc,
    MemRef,
    Vector,
    Strided,
    Offset,
    AffineMap,
    AffineSet,
    Array,
    Dense,
    FunctionType,
    Symbol,
    Overflow,
    Attributes,
    To,
    Step,
    IterArgs,
    Else,
    Into,
    From,
    Min,
    Max,
    /// `return`, `func.return`, `affine.yield` and `scf.yield`.
    Terminator,
    /// `true` and `false`.
    Bool,
    /// `private` and `public`.
    Visibility,
    /// `nsw` and `nuw`.
    OverflowFlag,
    /// `mod`, `floordiv` and `ceildiv`.
    Division,
    /// How a reduction joins values, as `add`.
    Kind,
    /// What a comparison asks, as `slt`.
    Predicate,
    /// The name of the operation of this number in the table of operations.
    Operation(u8),
}

/// The class of a token.
#[derive(Clone, Copy, Debug, Drop, PartialEq, Eq)]
pub enum Class {
    /// The end of the text, which is no token.
    End,
    Sign(Sign),
    Word(Keyword),
    /// The word `index`, or `i` and digits.
    Scalar,
    /// Any other word.
    OtherWord,
    /// A number of value 0.
    Zero,
    /// Any other number.
    Positive,
    DimX,
    ScalX,
    ValId,
    SymId,
    /// `#` and digits alone.
    HashDigits,
    /// `#` and a word.
    HashWord,
    /// `#` and any other name.
    HashOther,
    CaretId,
    /// `"builtin.module"`.
    QuotedModule,
    /// `"func.func"`.
    QuotedFunc,
    /// Any other text in quotes.
    Quoted,
}

/// Whether a class is that of a word.
pub fn is_word_class(class: Class) -> bool
    ensures { result ≡ is_word class }
{
    matches!(class, Class::Word(_) | Class::Scalar | Class::OtherWord)
}

/// What a token of this class does to the brackets that are open.
pub fn bracket_of(class: Class) -> Bracket
    ensures { result ≡ bracket_of_class class }
{
    match class {
        Class::Sign(Sign::OpenRound | Sign::OpenCurly | Sign::OpenSquare | Sign::OpenAngle) =>
            Bracket::Opens,
        Class::Sign(Sign::CloseRound | Sign::CloseCurly | Sign::CloseSquare | Sign::CloseAngle) =>
            Bracket::Closes,
        _ => Bracket::None,
    }
}

/// The number of a class: all operations have one. Equal classes are those of equal numbers that name the same operation.
#[tactic(auto, unfolding(crate::specs::Sets::class_number))]
pub fn class_number(class: Class) -> u32
    ensures { result ≡ number_of_class class }
{
    match class {
        Class::End => 0,
        Class::Sign(sign) => sign_number(sign),
        Class::Word(word) => word_number(word),
        Class::Scalar => 48,
        Class::OtherWord => 49,
        Class::Zero => 50,
        Class::Positive => 51,
        Class::DimX => 52,
        Class::ScalX => 53,
        Class::ValId => 54,
        Class::SymId => 55,
        Class::HashDigits => 56,
        Class::HashWord => 57,
        Class::HashOther => 58,
        Class::CaretId => 59,
        Class::QuotedModule => 60,
        Class::QuotedFunc => 61,
        Class::Quoted => 62,
    }
}

#[tactic(auto, unfolding(crate::specs::Sets::class_number))]
fn sign_number(sign: Sign) -> u32
    ensures { result ≡ number_of_class (Class.Sign sign) }
{
    match sign {
        Sign::OpenRound => 1,
        Sign::CloseRound => 2,
        Sign::OpenCurly => 3,
        Sign::CloseCurly => 4,
        Sign::OpenSquare => 5,
        Sign::CloseSquare => 6,
        Sign::OpenAngle => 7,
        Sign::CloseAngle => 8,
        Sign::Comma => 9,
        Sign::Colon => 10,
        Sign::Equal => 11,
        Sign::Plus => 12,
        Sign::Star => 13,
        Sign::Minus => 14,
        Sign::Question => 15,
        Sign::Arrow => 16,
        Sign::AtLeast => 17,
        Sign::EqualEqual => 18,
    }
}

#[tactic(auto, unfolding(crate::specs::Sets::class_number))]
fn word_number(word: Keyword) -> u32
    ensures { result ≡ number_of_class (Class.Word word) }
{
    match word {
        Keyword::Module => 19,
        Keyword::FuncFunc => 20,
        Keyword::MemRef => 21,
        Keyword::Vector => 22,
        Keyword::Strided => 23,
        Keyword::Offset => 24,
        Keyword::AffineMap => 25,
        Keyword::AffineSet => 26,
        Keyword::Array => 27,
        Keyword::Dense => 28,
        Keyword::FunctionType => 29,
        Keyword::Symbol => 30,
        Keyword::Overflow => 31,
        Keyword::Attributes => 32,
        Keyword::To => 33,
        Keyword::Step => 34,
        Keyword::IterArgs => 35,
        Keyword::Else => 36,
        Keyword::Into => 37,
        Keyword::From => 38,
        Keyword::Min => 39,
        Keyword::Max => 40,
        Keyword::Terminator => 41,
        Keyword::Bool => 42,
        Keyword::Visibility => 43,
        Keyword::OverflowFlag => 44,
        Keyword::Division => 45,
        Keyword::Kind => 46,
        Keyword::Predicate => 47,
        Keyword::Operation(_) => 63,
    }
}

/// The number of the operation that a class names, or 0.
#[tactic(auto, unfolding(crate::specs::Sets::operation_in))]
pub fn operation_in(class: Class) -> u8
    ensures { result ≡ the_operation_in class }
{
    match class {
        Class::Word(Keyword::Operation(number)) => number,
        _ => 0,
    }
}

/// What a token does to the brackets that are open.
#[derive(Clone, Copy, Debug, Drop, PartialEq, Eq)]
pub enum Bracket {
    Opens,
    Closes,
    None,
}
