//! What holds of runs, for the proofs of callers. These functions do nothing.
ghost use Rattle.std.specs.Prelude.{ℕ};
ghost use Rattle.av_ir.specs.Examples.{ArithExamples, BranchExamples, LoadExamples, LoopExamples, MapExamples, MemrefExamples};
ghost use Rattle.av_ir.specs.MarkedRuns.{MarkedModuleLaw, MarkedOpLaw, MarkedRegionLaw};
ghost use Rattle.av_ir.specs.Numbers.{NumbersLaw};
ghost use Rattle.av_ir.specs.OneLevel.{OpLaw, RegionLaw};
ghost use Rattle.av_ir.specs.ScalarRun.{perform};
ghost use Rattle.av_ir.specs.Turns.{TurnLaw, TurnsLaw};

/// The scalar run of one operation and of one region, in terms of their parts.
pub fn one_level()
    ensures op { OpLaw perform }
    ensures region { RegionLaw perform }
{}

/// Small runs of one operation, whose ends were worked out by hand.
pub fn worked_examples()
    ensures load { (number : ℕ) → LoadExamples number }
    ensures by_operands { (number : ℕ) → MemrefExamples number }
    ensures arith { (number : ℕ) → ArithExamples number }
    ensures mapped { (number : ℕ) → MapExamples number }
    ensures looped { (number : ℕ) → LoopExamples number }
    ensures branched { (number : ℕ) → BranchExamples number }
{}

/// Turn k of a loop comes exactly where lower + k * step is below the upper bound, and the loop's
/// variable is that number in it.
pub fn turns_of_loops()
    ensures turn { TurnLaw }
    ensures turns { TurnsLaw }
{}

/// The inner loops of a module have the numbers that its marked form shows, in the same order.
pub fn numbers_of_loops()
    ensures { NumbersLaw }
{}

/// Marks change no run.
pub fn marks_change_no_run()
    ensures op { MarkedOpLaw }
    ensures region { MarkedRegionLaw }
    ensures module { MarkedModuleLaw }
{}
