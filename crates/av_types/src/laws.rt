//! What holds of types, for the proofs of callers. These functions do nothing.

ghost use Rattle.av_types.specs.Examples.{TypeExamples};
ghost use Rattle.av_types.specs.RelationLaws.{SameTypeLaw};
ghost use Rattle.av_types.specs.TypeLaws.{TypeLimitsLaw};

/// Some written types: at the edges of the limits, and of each form.
pub fn some_types()
    ensures { TypeExamples }
{}

/// Two types are the same exactly where they are equal.
pub fn same_types_are_equal()
    ensures { SameTypeLaw }
{}

/// Each type that a written type is, is within the limits.
pub fn taken_types_are_within_limits()
    ensures { TypeLimitsLaw }
{}
