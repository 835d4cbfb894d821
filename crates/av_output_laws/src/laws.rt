//! What holds of the text that is written for a module, for the proofs of callers. These functions do nothing.
ghost use Rattle.av_output_laws.specs.RereadLaws.{RereadLaw};
ghost use Rattle.av_output_laws.specs.ReturnLaws.{ReturnLaw};
ghost use Rattle.av_output_laws.specs.PlacesLaws.{PlacesLaw};

/// The words that are printed for a sound program, in either form, are read as its tree.
pub fn words_are_read()
    ensures { RereadLaw }
{}

/// The module of a tree of the forms that are taken, with its loops and accesses marked, is written in
/// either form so that it reads again as itself.
pub fn return_law()
    ensures { ReturnLaw }
{}

/// A tree is elaborated as the same tree without the places of its operations.
pub fn places_law()
    ensures { PlacesLaw }
{}
