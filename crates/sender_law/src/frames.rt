//! The law of the data frames that leave on a destination's channel.
ghost use Rattle.std.specs.Prelude.{ℕ};
ghost use Rattle.sender_law.specs.Emission.{DataEmission, DestRecords};
ghost use Rattle.sender_law.specs.Runs.{IsTxRun, TxRun, leg_of};

/// What leaves on a destination's channel, of every run of a sender, whatever its bus does; the function does nothing.
///
/// Data frames of the channel's shape leave in the order of their ticks, at most one in a tick and none after the last
/// one. The records are the destination's own, end by the last tick, and none begins before the one before it ended.
pub fn emission_law()
    ensures frames { (run : TxRun) (budget : ℕ) → IsTxRun run → DataEmission (leg_of budget run) }
    ensures records { (run : TxRun) (budget : ℕ) → IsTxRun run → DestRecords (leg_of budget run) }
{}
