//! The laws of a bus's machines.
ghost use Rattle.bus_law.specs.Laws.{AnswersCome, FramesCome, ReceiversRun, SendersRun};

/// In every run of a bus, what a channel's machine did by itself is a run of that machine; the function does nothing.
///
/// In each tick the machine was told of the frames that came to it, took its turn, and was told that its frame has left,
/// where that did. Where it didn't, though it lay in its box, the bus was full for it: as many frames left in that tick as
/// the bus may send, and none of a lower priority. No tick is left out but where the machine was idle. The frames of which
/// a receiver was told are those of the bus that have its channel's identifier and address, in their order, and the flow
/// controls of which a sender was told are those among such frames. This project's own.
pub fn machines_law()
    ensures receivers { ReceiversRun }
    ensures senders { SendersRun }
    ensures came { FramesCome }
    ensures answers { AnswersCome }
{}
