//! What holds of programs of the forms that are taken and of their printed trees, for the proofs of callers. These functions do nothing.
ghost use Rattle.av_program_laws.specs.ProgramLaws.{ReadLaw, TakenLaw, WrittenLaw};
ghost use Rattle.av_program_laws.specs.PrintedLaws.{BracketsLaw, PrintedLaw};

/// The tree that is printed for the module of a program.
pub fn written_law()
    ensures { WrittenLaw }
{}

/// The tree as which the text of a sound program is read again, in either form, is elaborated to its module.
pub fn read_law()
    ensures { ReadLaw }
{}

/// A tree of the forms that are taken, in which no rule fails, is a sound program, but for its marks.
pub fn taken_law()
    ensures { TakenLaw }
{}

/// The tree that is printed for a sound program can be read: its names are words, and its numbers are short.
pub fn printed_law()
    ensures { PrintedLaw }
{}

/// The words of what is printed for a program keep the limit of brackets.
pub fn brackets_law()
    ensures { BracketsLaw }
{}
