//! What holds of written maps, for the proofs of callers. These functions do nothing.

ghost use Rattle.av_maps.specs.ApplyingLaws.{NormalUseLaw, UsableMapLaw, UsableSetLaw};
ghost use Rattle.av_maps.specs.Examples.{MapExamples};
ghost use Rattle.av_maps.specs.WrittenLaws.{MeaningLaw, OwnNumbersLaw};

/// Some written maps: their numbers, what is asked of them, their normal form, and an alias.
pub fn some_maps()
    ensures { MapExamples }
{}

/// An expression with numbers in place of names has the value that is written.
pub fn written_expressions_keep_meaning()
    ensures { MeaningLaw }
{}

/// Where the parameters of a map differ, each dimension and each symbol has the number of its place.
pub fn parameters_have_their_numbers()
    ensures { OwnNumbersLaw }
{}

/// Where all that is asked of a written map holds, a run can evaluate its normal form.
pub fn taken_maps_are_usable()
    ensures { UsableMapLaw }
{}

/// Where all that is asked of a written set holds, a run can evaluate it.
pub fn taken_sets_are_usable()
    ensures { UsableSetLaw }
{}

/// The normal form of a map and its operands is normal.
pub fn normal_uses_are_normal()
    ensures { NormalUseLaw }
{}
