//! What the answers of a reader say together.
ghost use Rattle.candump_log.specs.Reader.{GivesFront, StaysGiven, StopsAtNone};

/// The law of a reader over a file that stays, in a depot that tells its contents. The function does nothing.
///
/// Where the file is a log, a reader has given a front of its frames, all of them at its end, and no line stops it; and so
/// what a second reading gives is what the first one gave.
pub fn pieces_law()
    ensures front { GivesFront }
    ensures through { StopsAtNone }
    ensures stays { StaysGiven }
{}
