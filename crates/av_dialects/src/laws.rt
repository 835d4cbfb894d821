//! What holds of the table as a whole, for the proofs of callers. These functions do nothing.

ghost use Rattle.av_dialects.specs.TableLaws.{EndsLaw, FormExamples, NamesLaw, TypesLaw, WordsLaw};

/// No two operations have the same name.
pub fn names_differ()
    ensures { NamesLaw }
{}

/// One token ahead tells in each form where its parts end.
pub fn parts_end_plainly()
    ensures { EndsLaw }
{}

/// Each form writes each type that it must write once, and no other.
pub fn each_form_writes_its_types()
    ensures { TypesLaw }
{}

/// No two words of a property are the same.
pub fn words_differ()
    ensures { WordsLaw }
{}

/// For each kind of item a form that keeps these rules, and one that breaks them.
pub fn some_forms()
    ensures { FormExamples }
{}
