//! Laws of the tables, each a function without a body whose contract is the law.

ghost use Rattle.av_bits.specs.Laws.{KindLaw, RoundedDivisionLaw, SignedDivisionLaw, SignedLaw, TrapLaw, UnsignedDivisionLaw, WrapLaw};

/// A number and its pattern differ by a multiple of 2 to the width.
pub fn wrap_law()
    ensures { WrapLaw }
{}

/// `wrap` and `signed` are inverse to each other on patterns and signed values.
pub fn signed_law()
    ensures { SignedLaw }
{}

/// A signed division traps exactly where the divisor is zero or the least value is divided by -1.
pub fn trap_law()
    ensures { TrapLaw }
{}

/// Signed quotient times divisor plus remainder is the dividend; the remainder is smaller than the
/// divisor and has the dividend's sign.
pub fn signed_division_law()
    ensures { SignedDivisionLaw }
{}

/// The signed quotients that are rounded down and up, by inequalities.
pub fn rounded_division_law()
    ensures { RoundedDivisionLaw }
{}

/// Unsigned quotient times divisor plus remainder is the dividend; the quotient rounded up by
/// inequalities.
pub fn unsigned_division_law()
    ensures { UnsignedDivisionLaw }
{}

/// On patterns each kind combines without a trap, in any order and grouping, and has its neutral
/// element.
pub fn kind_law()
    ensures { KindLaw }
{}
