//! A small run on literals that keeps all laws, and neighbours of it that break one each; the functions do nothing.
ghost use Rattle.gw_law.specs.Examples.{lawful_run, NeighboursAreUnlawful};
ghost use Rattle.gw_law.specs.Lawful.{Lawful};

/// Two paths between two buses, in a window of three ticks, with one frame for each bus in a tick.
pub fn two_paths_in_windows()
    ensures { Lawful lawful_run }
{}

/// A byte is changed, a record is another destination's, a frame leaves too early for its window, a flow control waits behind
/// a lower priority, a buffer is taken twice, the moves begin at 2, and more: each breaks a law.
pub fn neighbours_are_unlawful()
    ensures { NeighboursAreUnlawful }
{}
