//! What holds of lines that are written and read.
ghost use Rattle.candump_line.specs.Laws.{ReadingLaw, SpellingLaw};

/// A line that is written for a lawful frame with a stamp below 2^32 seconds is read, in the log of its interface, as
/// that stamp and that frame.
pub fn reading_law()
    ensures { ReadingLaw }
{}

/// A line that is spelled so is read, in the log of its interface, as that stamp and that frame.
pub fn spelling_law()
    ensures { SpellingLaw }
{}
