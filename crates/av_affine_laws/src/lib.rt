//! What holds of linear forms and of normalised maps, for the proofs of callers. These functions do nothing.
//!
//! The laws are apart from the expressions themselves, so that a new law asks for no new proof of the crates that use these.
#![tactic(auto)]

ghost use Rattle.av_affine_laws.specs.FormLaws.{NormalFormLaw, SpellingFormLaw};
ghost use Rattle.av_affine_laws.specs.NormalisedLaws.{NormalIsAppliedLaw, NormalStaysLaw, NormalisedExamples, NormalisedIsNormalLaw, NormalisedLimitsLaw, NormalisedOperandsLaw, NormalisedTwiceLaw, NormalisedValuesLaw, RenamedLimitsLaw};

/// The spelling of an expression's linear form has that same form.
pub fn spelling_keeps_form()
    ensures { SpellingFormLaw }
{}

/// The terms of an expression's linear form are in order of their parameters, dimensions first, each parameter once; no two opaque
/// terms are one division; no factor is zero; and so it is inside each opaque term, which is no constant.
pub fn forms_are_normal()
    ensures { NormalFormLaw }
{}

/// A map whose parameters have operands gives the same values as its normal form at the operands of that.
pub fn normalising_keeps_values()
    ensures { NormalisedValuesLaw }
{}

/// In the normal form of a map each parameter occurs, no two of one kind have the same operand, and the parameters of each kind
/// are numbered by first occurrence.
pub fn normalised_maps_are_normal()
    ensures { NormalisedIsNormalLaw }
{}

/// In a normal map each parameter that occurs has an operand.
pub fn normal_maps_are_applied()
    ensures { NormalIsAppliedLaw }
{}

/// Each operand of the normal form is one that the map has for its parameters of that kind.
pub fn normalising_keeps_operands()
    ensures { NormalisedOperandsLaw }
{}

/// A normal map with its operands is its own normal form.
pub fn normal_maps_stay()
    ensures { NormalStaysLaw }
{}

/// A normal form, normalised once more, stays as it is.
pub fn normalising_again_changes_nothing()
    ensures { NormalisedTwiceLaw }
{}

/// An expression with other parameters has as many nodes, is affine where it was, and has the same bounds.
pub fn renaming_keeps_limits()
    ensures { RenamedLimitsLaw }
{}

/// The results of the normal form are within the limits exactly where those of the map are.
pub fn normalising_keeps_limits()
    ensures { NormalisedLimitsLaw }
{}

/// Normal forms of three maps: with a repeated operand, with parameters in another order, and with no parameter that occurs.
pub fn some_normalised_maps()
    ensures { NormalisedExamples }
{}
