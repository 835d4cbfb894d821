ghost use Rattle.std.specs.Prelude.{◌≡◌, ◌+◌, ◌<◌, ◌≤◌, false, length, slice_index};
ghost use Rattle.av_lex.specs.Bytes.{in_class, Run};

/// A set of bytes that begin or make up tokens or comments.
#[derive(Clone, Copy, Debug, PartialEq, Eq, Drop)]
pub enum Class {
    /// Decimal digits.
    Digit,
    /// What can begin a word.
    WordStart,
    /// What can follow in a word.
    Word,
    /// What can begin a name that isn't a number.
    NameStart,
    /// What can follow in such a name.
    Name,
    /// What can stand between quotes.
    Quoted,
    /// What can stand in a comment.
    Comment,
}

/// Whether a byte is of the class.
#[tactic(auto, unfolding(crate::specs::Bytes::in_class))]
pub fn is_of(class: Class, byte: u8) -> bool
    ensures { result ≡ in_class class byte }
{
    match class {
        Class::Digit => byte.is_ascii_digit(),
        Class::WordStart => byte.is_ascii_alphabetic() || byte == b'_',
        Class::Word => byte.is_ascii_alphanumeric() || byte == b'_' || byte == b'$' || byte == b'.',
        Class::NameStart => {
            byte.is_ascii_alphabetic()
                || byte == b'_'
                || byte == b'$'
                || byte == b'.'
                || byte == b'-'
        }
        Class::Name => {
            byte.is_ascii_alphanumeric()
                || byte == b'_'
                || byte == b'$'
                || byte == b'.'
                || byte == b'-'
        }
        Class::Quoted => byte >= 0x20 && byte <= 0x7E && byte != b'"' && byte != b'\\',
        Class::Comment => byte != b'\n',
    }
}

/// The place of the first byte at `from` or after that isn't of the class, or the end.
pub fn run_end(class: Class, bytes: &[u8], from: usize) -> usize
    requires { from ≤ length bytes.now }
    ensures from { from ≤ result }
    ensures within { result ≤ length bytes.now }
    ensures run { Run class bytes.now from result }
    ensures stop { result < length bytes.now → in_class class (slice_index bytes.now result) ≡ false }
{
    let mut at = from;
    while at < bytes.len() && is_of(class, bytes[at]) {
        at += 1;
    }
    at
}
