//! What holds of the divisions of expressions, for the proofs of callers. These functions do nothing.
ghost use Rattle.av_affine.specs.Divisions.{CeilLaw, FloorLaw, RemainderLaw};
ghost use Rattle.av_affine.specs.Forms.{FormValueLaw};
ghost use Rattle.av_affine.specs.Sizes.{SizeLaw};
ghost use Rattle.av_affine.specs.Spelling.{SpellingLaw};

/// The quotient times the divisor plus the remainder is the number; the remainder is from 0 to the divisor less one.
pub fn remainder_completes()
    ensures { RemainderLaw }
{}

/// `floordiv` gives the greatest whole number that is at most the fraction.
pub fn floor_rounds_down()
    ensures { FloorLaw }
{}

/// `ceildiv` gives the least whole number that is at least the fraction.
pub fn ceil_rounds_up()
    ensures { CeilLaw }
{}

/// The linear form of an affine expression has the expression's value, whatever the parameters are.
pub fn form_keeps_value()
    ensures { FormValueLaw }
{}

/// The spelling of a linear form has the form's value, and so that of an expression's form has the expression's.
pub fn spelling_keeps_value()
    ensures { SpellingLaw }
{}

/// The factors of the form of an affine expression within the limit are, all together, within the expression's bound.
pub fn form_is_bounded()
    ensures { SizeLaw }
{}
