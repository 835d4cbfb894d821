//! What holds of the table as a whole, for the proofs of callers. These functions do nothing.

ghost use Rattle.av_signatures.specs.TableLaws.{KeysLaw, PlacesLaw, PropertiesLaw, RowsLaw};

/// The rows are those of av_dialects, in its order, with as many results.
pub fn rows_agree()
    ensures { RowsLaw }
{}

/// No operation has two properties of one name, nor one that is dropped, and they stand in order of name.
pub fn properties_differ()
    ensures { PropertiesLaw }
{}

/// What the named form of an operation says in its own way are properties that it has.
pub fn keys_are_properties()
    ensures { KeysLaw }
{}

/// Each place that a row names is there, whatever number of operands the operation has.
pub fn places_exist()
    ensures { PlacesLaw }
{}
