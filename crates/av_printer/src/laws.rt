//! What holds of spellings, for readers. These functions do nothing.
ghost use Rattle.std.specs.Prelude.{List, ℕ};
ghost use Rattle.av_printer.specs.Examples.{NumberExample, BracketExamples};

/// Small spellings, worked out by hand.
pub fn worked_examples()
    ensures number { NumberExample }
    ensures brackets { (a b c : List ℕ) → BracketExamples a b c }
{}
