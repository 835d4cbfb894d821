//! Laws of what is printed and read again, part by part of a tree, for the proofs of callers. These functions do nothing.
#![tactic(auto)]

ghost use Rattle.av_round_trip.specs.Attributes.{AttributesLaw};
ghost use Rattle.av_round_trip.specs.Expressions.{ExpressionsLaw, FewestBracketsLaw, MapsLaw, NeededBracketsLaw, SetsLaw};
ghost use Rattle.av_round_trip.specs.Laws.{ExampleLaw, GenericTextsLaw};
ghost use Rattle.av_round_trip.specs.Subscripts.{SubscriptsLaw};
ghost use Rattle.av_round_trip.specs.Trees.{GenericTreesLaw};
ghost use Rattle.av_round_trip.specs.Types.{TypesLaw};

/// The rows of the format make of the words that are printed for a type this type.
pub fn types_are_read_again()
    ensures { TypesLaw }
{}

/// So they do of those that are printed for an affine expression.
pub fn expressions_are_read_again()
    ensures { ExpressionsLaw }
{}

/// And for a map, for a set, and for the subscripts of an access.
pub fn maps_are_read_again()
    ensures { MapsLaw × SetsLaw × SubscriptsLaw }
{}

/// And for an attribute.
pub fn attributes_are_read_again()
    ensures { AttributesLaw }
{}

/// No words of which the rows make an expression have fewer round brackets than those that are printed for it; and
/// without an opening bracket and a closing one behind it the printed words aren't read as the same expression.
pub fn brackets_are_needed()
    ensures { FewestBracketsLaw × NeededBracketsLaw }
{}

/// In the form that all operations have in common, the rows of the format make of the words that are printed
/// for a module the module.
pub fn generic_trees_are_made_again()
    ensures { GenericTreesLaw }
{}

/// What is spelled for a module in the form that all operations have in common is read as this module, but for
/// aliases and places, and for the order of the entries of dictionaries, which are spelled by name.
pub fn generic_texts_are_read_again()
    ensures { GenericTextsLaw }
{}

/// The text of a module with marks, and what is read of it, worked out by hand.
pub fn worked_example()
    ensures { ExampleLaw }
{}
