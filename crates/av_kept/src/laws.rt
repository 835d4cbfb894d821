//! What holds of modules that were elaborated, for the proofs of callers. These functions do nothing.
ghost use Rattle.av_kept.specs.Laws.{KeptLoopsLaw, ScalarModeLaw, WellFormedLaw};

/// A module of a tree has operations and types of Scalar mode alone.
pub fn scalar_mode_law()
    ensures { ScalarModeLaw }
{}

/// A module of a tree is well formed, so that the interpreter of scalar modules runs it.
pub fn well_formed_law()
    ensures { WellFormedLaw }
{}

/// With all its loops kept and marked, the module of a tree means at each scale what it meant: for all
/// good arguments its flat run has no trap, and ends with the buffers and results of the scalar run.
pub fn kept_loops_law()
    ensures { KeptLoopsLaw }
{}
