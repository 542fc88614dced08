//! The law of what brings the records of transmissions about.
ghost use Rattle.std.specs.Prelude.{List, ℕ};
ghost use Rattle.sender_law.specs.Boxed.{BoxedLaw};
ghost use Rattle.sender_law.specs.Runs.{HasLimits, IsTxRun, TxRun, leg_of, turns_in};
ghost use Rattle.sender_law.specs.TransmissionCauses.{CausesAmong, TransmissionCauses};
ghost use Rattle.tp_unit.specs.Box.{Written};

/// Why each session of a destination ended, of every run of a sender; the function does nothing.
///
/// Each record tells the cause of its end, as far as the channel's frames and flow controls tell it, and none stood
/// before. The same holds of all that left on the channel, with frames between that carry no data, such as the flow
/// controls of the channel's receiver. Whatever the ticks in which the bus is full for the channel's frame; the limits of
/// a flow control and of a frame in its box are at least a tick. Where a record tells that the bus was awaited, the next
/// frame lay in the box, with all bytes that it carries.
pub fn transmission_law()
    ensures own { (run : TxRun) (budget : ℕ) → IsTxRun run → HasLimits run.set → TransmissionCauses run.full (leg_of budget run) }
    ensures boxed { (run : TxRun) → IsTxRun run → BoxedLaw run.set (turns_in run) }
    ensures channel { (run : TxRun) (budget : ℕ) (out : List Written) → IsTxRun run → HasLimits run.set → CausesAmong budget run out }
{}
