//! What holds of flat runs, for the proofs of callers. These functions do nothing.
ghost use Rattle.std.specs.Prelude.{ℕ};
ghost use Rattle.av_flat.specs.Examples.{ElementExamples, IndexedExamples, LaneExamples, RowExamples, SignedLoopExamples};
ghost use Rattle.av_flat.specs.Laws.{MarkedLaw, ScalarLaw};
ghost use Rattle.av_flat.specs.Touches.{InsideLaw, UntouchedLaw};

/// On a function of Scalar mode the flat run at each scale is the scalar run: in its end, its traps
/// and its steps.
pub fn scalar_law()
    ensures { ScalarLaw }
{}

/// Where a module is of Scalar mode, the flat run at each scale of the module with its loops and
/// accesses marked is the scalar run of the module: in its end, its traps and its steps.
pub fn marked_law()
    ensures { MarkedLaw }
{}

/// The places that an operation touches are inside their buffers, if it doesn't trap.
pub fn inside_law()
    ensures { InsideLaw }
{}

/// What no operation of a run touches stays: where a tripwire at a place lets a region end, the region
/// ends alike without it, and the place holds at the end what it held.
pub fn untouched_law()
    ensures { UntouchedLaw }
{}

/// Small pieces of work on vectors, worked out by hand.
pub fn worked_examples()
    ensures elements { (number : ℕ) → ElementExamples number }
    ensures rows { (number : ℕ) → RowExamples number }
    ensures indexed { (number : ℕ) → IndexedExamples number }
    ensures on_lanes { (number : ℕ) → LaneExamples number }
    ensures looped { (number : ℕ) → SignedLoopExamples number }
{}
