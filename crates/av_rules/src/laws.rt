//! What holds of the definitions as a whole, for the proofs of callers. These functions do nothing.

ghost use Rattle.av_rules.specs.BufferExamples.{BufferExamples};
ghost use Rattle.av_rules.specs.EdgeExamples.{EdgeExamples};
ghost use Rattle.av_rules.specs.Examples.{RuleExamples};
ghost use Rattle.av_rules.specs.Fails.{LeastLaw};
ghost use Rattle.av_rules.specs.LoopExamples.{LoopExamples};
ghost use Rattle.av_rules.specs.RegionExamples.{RegionExamples};
ghost use Rattle.av_rules.specs.RowExamples.{RowExamples};
ghost use Rattle.av_rules.specs.ScalarExamples.{ScalarExamples};
ghost use Rattle.av_rules.specs.TableExamples.{TableExamples};
ghost use Rattle.av_rules.specs.VectorExamples.{VectorExamples};
ghost use Rattle.av_rules.specs.Views.{ViewsLaw};
ghost use Rattle.av_rules.specs.Walks.{AllSitesLaw};

/// The least pair fails and comes before all others that fail; there is none exactly where none fails.
pub fn least_pairs()
    ensures { LeastLaw }
{}

/// For each code small trees, each taken, or refused for the operation and the code that are said.
pub fn some_trees()
    ensures { RuleExamples }
{}

/// For most operations a tree that is taken, and one that is refused.
pub fn some_operations()
    ensures { RowExamples }
{}

/// The operation of each row is taken, with its mark too, and refused with an entry that it doesn't have.
pub fn every_row()
    ensures { TableExamples }
{}

/// Operations of arith that are taken, and some that are refused for each thing that their rows ask.
pub fn scalar_operations()
    ensures { ScalarExamples }
{}

/// The same of operations with affine maps, and of those that touch buffers.
pub fn buffer_operations()
    ensures { BufferExamples }
{}

/// The same of operations that make vectors or take them apart.
pub fn vector_operations()
    ensures { VectorExamples }
{}

/// The same of the module, functions and choices, and of what ends the regions of functions.
pub fn region_operations()
    ensures { RegionExamples }
{}

/// The same of loops, and of what ends their regions.
pub fn loop_operations()
    ensures { LoopExamples }
{}

/// At the edges of limits, and where two things are wrong, trees that are taken or refused as is said.
pub fn some_edges()
    ensures { EdgeExamples }
{}

/// What is read off an operation and a region is what they have.
pub fn views_agree()
    ensures { ViewsLaw }
{}

/// Each operation of a tree has one place in the walk, and there are no others.
pub fn all_sites()
    ensures { AllSitesLaw }
{}
