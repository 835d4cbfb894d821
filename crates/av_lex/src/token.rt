use std::alloc::{AllocError, AllocFailed};
use thiserror::Error;

/// A token that is a sign.
#[derive(Clone, Copy, Debug, PartialEq, Eq, Drop)]
pub enum Sign {
    /// `(`
    OpenRound,
    /// `)`
    CloseRound,
    /// `{`
    OpenCurly,
    /// `}`
    CloseCurly,
    /// `[`
    OpenSquare,
    /// `]`
    CloseSquare,
    /// `<`
    OpenAngle,
    /// `>`
    CloseAngle,
    /// `,`
    Comma,
    /// `:`
    Colon,
    /// `=`
    Equal,
    /// `+`
    Plus,
    /// `*`
    Star,
    /// `-`
    Minus,
    /// `?`
    Question,
    /// `->`
    Arrow,
    /// `>=`
    AtLeast,
    /// `==`
    EqualEqual,
}

/// What a token is.
#[derive(Clone, Copy, Debug, PartialEq, Eq, Drop)]
pub enum Kind {
    /// A letter or `_`, then letters, digits, `_`, `$` and `.`.
    Word,
    /// 1 to 38 decimal digits.
    Number,
    /// A size: 1 to 38 digits or `?`, then `x`.
    DimX,
    /// A scalable size: `[`, 1 to 38 digits, `]x`, without blanks.
    ScalX,
    /// `%` and a name: digits alone, or a letter, `$`, `.`, `_` or `-` and then these and digits.
    ValId,
    /// `@` and a name.
    SymId,
    /// `#` and a name.
    HashId,
    /// `^` and a name.
    CaretId,
    /// `"`, bytes from 0x20 to 0x7E other than `"` and `\`, `"`.
    Quoted,
    /// A sign.
    Sign(Sign),
}

/// A token: what it is, the place of its first byte, and its length in bytes, at least 1.
#[derive(Clone, Copy, Debug, PartialEq, Eq, Drop)]
pub struct Token {
    pub kind: Kind,
    pub place: u32,
    pub length: u32,
}

/// Why a text has no tokens.
#[derive(Debug, Drop, PartialEq, Error)]
pub enum LexFault {
    /// No token begins or goes on at this place.
    #[error("bad byte at {0}")]
    BadByte(u32),
    /// A number of more than 38 digits begins at this place.
    #[error("long number at {0}")]
    LongNumber(u32),
    /// Memory lacks.
    #[error("out of memory")]
    NoMemory,
}

impl From<AllocError> for LexFault {
    ghost use Rattle.std.specs.Prelude.{◌≡◌};
    ghost use Rattle.av_lex.specs.declared.token.LexFault.TheVariants.{NoMemory};

    ghost from_gives = { λ _ e. e ≡ NoMemory };

    fn from(_fault: AllocError) -> LexFault {
        LexFault::NoMemory
    }
}

impl<T: Drop> From<AllocFailed<T>> for LexFault {
    ghost use Rattle.std.specs.Prelude.{◌≡◌};
    ghost use Rattle.av_lex.specs.declared.token.LexFault.TheVariants.{NoMemory};

    ghost from_gives = { λ _ e. e ≡ NoMemory };

    fn from(_fault: AllocFailed<T>) -> LexFault {
        LexFault::NoMemory
    }
}
