//! What holds of pieces that are written and read again, for the proofs of callers. These functions do nothing.
//!
//! A spelling that is read again has exactly the tokens that were spelled.
#![tactic(auto)]

ghost use Rattle.av_print_laws.specs.WrittenLaws.{AttributesLaw, ClassesLaw, DictionariesLaw, MapUsesLaw, MapsLaw, NoOtherTokensLaw, OrderedEntriesLaw, PartsLaw, SetsLaw, SpellingsLaw, TokensLaw, TreesLaw, TypesLaw};
ghost use Rattle.av_print_laws.specs.WrittenTrees.{FormsLaw, WrittenTreesLaw};

/// The tokens of what spaced pieces spell are their words.
pub fn words_are_tokens()
    ensures { TokensLaw }
{}

/// What spaced pieces spell has no other tokens than their words.
pub fn no_other_tokens()
    ensures { NoOtherTokensLaw }
{}

/// Each token of what pieces spell is spelled with the text of its word.
pub fn tokens_have_texts()
    ensures { SpellingsLaw }
{}

/// Each token of what pieces spell has the class of its word.
pub fn tokens_have_classes()
    ensures { ClassesLaw }
{}

/// Pieces are spaced if their first part is before the second, and the second is.
pub fn spacing_goes_by_parts()
    ensures { PartsLaw }
{}

/// The pieces of a type that was read are spaced before each text that begins apart.
pub fn types_are_spaced()
    ensures { TypesLaw }
{}

/// So are those of a map.
pub fn maps_are_spaced()
    ensures { MapsLaw }
{}

/// And of a set.
pub fn sets_are_spaced()
    ensures { SetsLaw }
{}

/// And of a map with its operands, as subscripts and as a bound of a loop.
pub fn uses_of_maps_are_spaced()
    ensures { MapUsesLaw }
{}

/// And of an attribute.
pub fn attributes_are_spaced()
    ensures { AttributesLaw }
{}

/// And of the entries of a dictionary.
pub fn dictionaries_are_spaced()
    ensures { DictionariesLaw }
{}

/// And of a whole tree, in each form.
pub fn trees_are_spaced()
    ensures { TreesLaw }
{}

/// The text of a tree is read again as the words of its pieces: it has no other tokens, and each has its word's text and class.
pub fn trees_are_read_as_spelled()
    ensures { WrittenTreesLaw }
{}

/// A tree that can be spelled with operations in forms of their own can be spelled in each form.
pub fn each_form_can_be_spelled()
    ensures { FormsLaw }
{}

/// The entries of a dictionary are spelled in order of name, by bytes, and each as often as it stands
/// in the dictionary.
pub fn entries_are_ordered()
    ensures { OrderedEntriesLaw }
{}
