ghost use Rattle.std.specs.Prelude.{◌≡◌};
ghost use Rattle.av_bits.specs.Pattern.{IsPattern};
ghost use Rattle.av_bits.specs.Scalar.{compare_of};

use crate::pattern::signed;
use crate::types::{Pred, Width};

/// Whether the predicate holds of the patterns `a` and `b` of the width.
pub fn compare(pred: Pred, width: Width, a: u64, b: u64) -> bool
    requires first { IsPattern width a }
    requires second { IsPattern width b }
    ensures { result ≡ compare_of pred width a b }
{
    match pred {
        Pred::Eq => a == b,
        Pred::Ne => a != b,
        Pred::Slt => signed(width, a) < signed(width, b),
        Pred::Sle => signed(width, a) <= signed(width, b),
        Pred::Sgt => signed(width, a) > signed(width, b),
        Pred::Sge => signed(width, a) >= signed(width, b),
        Pred::Ult => a < b,
        Pred::Ule => a <= b,
        Pred::Ugt => a > b,
        Pred::Uge => a >= b,
    }
}
