//! How the command ended.

ghost use Rattle.std.specs.Prelude.{◌≡◌};
ghost use Rattle.av_top.specs.Number.{number_of};
ghost use Rattle.av_top.specs.TextFault.{words_of};

/// Why an input has no tree.
#[derive(Clone, Copy, Debug, Drop, PartialEq, Eq)]
pub enum TextFault {
    /// No token begins or goes on with the byte at the place.
    BadByte,
    /// A number of too many digits begins at the place.
    LongNumber,
    /// The token at the place goes on no module, or more is asked for at the end.
    NotAModule,
    /// The token at the place goes on a module, but for a limit of depth.
    TooDeep,
}

impl TextFault {
    /// The words that tell of the fault.
    pub fn words(&self) -> &'static [u8]
        ensures { result.now ≡ words_of self.now }
    {
        match self {
            TextFault::BadByte => b"bad byte",
            TextFault::LongNumber => b"long number",
            TextFault::NotAModule => b"not a module",
            TextFault::TooDeep => b"too deep",
        }
    }
}

/// How the command ended.
#[derive(Clone, Copy, Debug, Drop, PartialEq, Eq)]
pub enum Status {
    /// The output and the notes hold their texts.
    Done,
    /// The words ask for nothing that the command does.
    BadUsage,
    /// The input has no tokens or no tree: the place of the byte, and why.
    BadText(u32, TextFault),
    /// A read of the input failed.
    ReadFault,
    /// A write of the output or of the notes failed.
    WriteFault,
    /// Memory lacks; nothing was written.
    NoMemory,
    /// The input has more than the greatest number of bytes.
    TooLarge,
    /// The input is a text, but nothing that is built so far.
    NotBuilt,
}

impl Status {
    /// The number that the program exits with.
    pub fn number(&self) -> u8
        ensures { result ≡ number_of self.now }
    {
        match self {
            Status::Done => 0,
            Status::BadUsage => 1,
            Status::BadText(_, _) => 2,
            Status::ReadFault => 4,
            Status::WriteFault => 5,
            Status::NoMemory => 6,
            Status::TooLarge => 10,
            Status::NotBuilt => 11,
        }
    }
}
