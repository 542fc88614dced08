ghost use Rattle.std.specs.Prelude.{List};
ghost use Rattle.sender_law.specs.Runs.{IsTxRun, TxRun, turns_in};
ghost use Rattle.sender_law.specs.Starts.{SourceLaw, StartLaw};
ghost use Rattle.sender_law.specs.Transfer.{TransferLaw, TransfersAmong, transfer_of};
ghost use Rattle.tp_attempts.specs.Seen.{Seen};
ghost use Rattle.tp_sender.specs.Runs.{HasSent};
ghost use Rattle.tp_sender.specs.State.{TxTurn};
ghost use Rattle.tp_sender.specs.declared.set.TxSet.{TxSet};
ghost use Rattle.tp_unit.specs.Shape.{IsShape};

/// The law of transfer, of every run of a sender; the function does nothing.
///
/// The transmissions in what the sender wrote belong to the records with sent bytes, one for one and in order. Each has
/// the session's length, carries the first bytes that were read of the session, as many as the record says, leaves
/// between the record's ticks and awaits its flow control; a record says Sent exactly where that is the whole length.
/// The same holds of all that left on the channel, with frames between that carry no data, such as the flow controls of
/// the channel's receiver. No frame of a session leaves before the sender looked at it and saw enough published to begin
/// with: all of it or, unless whole units are stored, as many cells as the threshold. A session that still waits for its
/// source after a turn saw in that turn that the source writes: so one whose source ended waits no further turn.
pub fn transfer_law()
    ensures run { (run : TxRun) → IsTxRun run → TransferLaw (transfer_of run.set (turns_in run)) }
    ensures starts { (run : TxRun) → IsTxRun run → StartLaw run.set (turns_in run) }
    ensures sources { (run : TxRun) → IsTxRun run → SourceLaw run.set (turns_in run) }
    ensures own { (set : TxSet) (turns : List TxTurn) → IsShape set.shape → HasSent set turns → TransferLaw (transfer_of set turns) }
    ensures channel { (set : TxSet) (turns : List TxTurn) (frames : List Seen) → IsShape set.shape → HasSent set turns → TransfersAmong set turns frames }
{}
