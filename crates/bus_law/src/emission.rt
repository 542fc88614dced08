//! The law of what a bus sends.
ghost use Rattle.bus_law.specs.Laws.{BusSends};

/// What leaves on a bus in a run; the function does nothing.
///
/// Frames leave in the order of their ticks, in each tick no more than the bus may send, none after one of a lower
/// priority in that tick, and none after the run's last tick. This project's own.
pub fn emission_law()
    ensures { BusSends }
{}
