//! Laws of forms that are made of parts, for the proofs of callers: what is printed is read again. These functions do nothing.
#![tactic(auto)]

ghost use Rattle.av_form_laws.specs.Examples.{LineExamples};
ghost use Rattle.av_form_laws.specs.FormLaws.{FormLaw};
ghost use Rattle.av_form_laws.specs.Reading.{ReadingLaw, RowLaw};

/// The words that are printed for an operation that fits its form have values, of which reading makes the operation again.
pub fn forms_are_read_as_printed()
    ensures { FormLaw }
{}

/// This operation is the one that the row of the operation is defined to make of the same values.
pub fn forms_make_what_rows_make()
    ensures { ReadingLaw }
{}

/// So an operation that fits the form of its row is what the row makes of the values of the words that are printed for it.
pub fn rows_make_what_fits()
    ensures { RowLaw }
{}

/// Operations that fit forms, and others that don't, for the kinds of items; and each word that a property may have fits.
pub fn some_operations_fit()
    ensures { LineExamples }
{}
