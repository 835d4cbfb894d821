//! What holds of words that are read again, for the proofs of callers. These functions do nothing.
ghost use Rattle.av_read_laws.specs.Laws.{ExampleLaw, ReadingLaw};

/// Where the rows make a tree of the words of a text within the limits, the text is read as this tree,
/// but for the places of its operations.
pub fn reading_law()
    ensures { ReadingLaw }
{}

/// The tree that the rows make of `module {}`, worked out by hand.
pub fn worked_example()
    ensures { ExampleLaw }
{}
