//! What holds of the rules that are asked, for the proofs of callers. These functions do nothing.
ghost use Rattle.av_verify.specs.Smallest.{SmallestCodeLaw};

/// An operation fails with the smallest code of the rules that fail there, and with none only where all
/// its rules hold.
pub fn smallest_code_law()
    ensures { SmallestCodeLaw }
{}
