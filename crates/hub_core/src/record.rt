use gw_base::{BufNo, ChanNo, DestNo, PathNo, Tick};

/// A change of the pool's free set, by its number from 1: a buffer was taken, or freed.
#[derive(Clone, Copy, Debug, Default, PartialEq, Eq)]
pub struct Move {
    pub change: u32,
    pub took: bool,
    pub buf: BufNo,
}

/// Where a session was opened: its number on its path from 0, its buffer, and the change that took the buffer.
#[derive(Clone, Copy, Debug, PartialEq, Eq)]
pub struct OpenedAt {
    pub seq: u32,
    pub buf: BufNo,
    pub change: u32,
}

/// What came of the reception that one start frame begins.
#[derive(Clone, Copy, Debug, PartialEq, Eq)]
pub struct SessionRecord {
    pub chan: ChanNo,
    /// The start's number on its channel, from 0.
    pub n: u32,
    /// The unit's length in bytes.
    pub len: u32,
    pub begin: Tick,
    /// The bytes that were put into the session.
    pub bytes: u32,
    pub end: Tick,
    pub opened: Option<OpenedAt>,
    pub result: SessionResult,
}

/// How a reception ended.
#[derive(Clone, Copy, Debug, PartialEq, Eq)]
pub enum SessionResult {
    /// All bytes were put.
    Whole,
    /// No free buffer had `need` cells: `free` is the free set after `change` changes.
    Overflow { change: u32, free: u32, need: u64 },
    /// A consecutive frame with another sequence number than the wanted one.
    WrongSn { want: u8, got: u8 },
    /// A time limit passed.
    RxTimeout(RxLimit),
    /// Another start frame came.
    Restarted,
    /// A consecutive frame of `need` cells found room for `room`.
    NoRoom { room: u32, need: u32 },
    /// As many waits as are configured followed one another.
    WaitOver,
    /// No destination takes part any more.
    NoReaders,
    /// A configured cancellation.
    Cancelled,
    /// The run ended; what the reception waited for since that tick.
    RunEnd { wait: RxWait, since: Tick },
}

/// Which time limit of a reception passed.
#[derive(Clone, Copy, Debug, PartialEq, Eq)]
pub enum RxLimit {
    /// The flow control lay in its box (ISO 15765-2, N_Ar).
    Box,
    /// The next consecutive frame was awaited (ISO 15765-2, N_Cr).
    Cf,
}

/// What a reception waits for.
#[derive(Clone, Copy, Debug, PartialEq, Eq)]
pub enum RxWait {
    /// The flow control to leave its box.
    Box,
    /// Room for more cells.
    Room,
    /// The next consecutive frame.
    Cf,
}

/// What came of one destination of an opened session.
#[derive(Clone, Copy, Debug, PartialEq, Eq)]
pub struct DestRecord {
    pub path: PathNo,
    pub dest: DestNo,
    /// The session's number on its path, from 0.
    pub seq: u32,
    pub begin: Tick,
    /// The bytes that left in frames.
    pub sent: u32,
    pub end: Tick,
    pub result: DestResult,
}

/// How a transmission ended.
#[derive(Clone, Copy, Debug, PartialEq, Eq)]
pub enum DestResult {
    /// All bytes left.
    Sent,
    /// The session's writer left before the next frame's bytes were there.
    SourceEnded,
    /// No flow control came in time (ISO 15765-2, N_Bs).
    BsTimeout,
    /// The receiver's flow control refused the unit.
    FcOverflow,
    /// A flow control with an unknown status.
    InvalidFs(u8),
    /// The next frame's bytes weren't there in time (ISO 15765-2, N_Cs); `seen` bytes were.
    CsTimeout { seen: u32 },
    /// The frame lay in its box too long (ISO 15765-2, N_As).
    AsTimeout,
    /// A configured cancellation.
    Cancelled,
    /// The run ended; what the transmission waited for since that tick.
    RunEnd { wait: TxWait, since: Tick },
}

/// What a transmission waits for.
#[derive(Clone, Copy, Debug, PartialEq, Eq)]
pub enum TxWait {
    /// The session to reach its threshold.
    Start,
    /// The destination's turn.
    Turn,
    /// A flow control.
    Fc,
    /// The separation time to pass.
    Gap,
    /// The next frame's bytes.
    Bytes,
    /// The frame to leave its box.
    Bus,
}

impl Default for SessionRecord {
    ghost use Rattle.std.specs.Prelude.{◌≡◌, None, Option};
    ghost use Rattle.hub_core.specs.Records.{empty_record};

    ghost is_default = { λ record_made. record_made ≡ empty_record };

    fn default() -> SessionRecord {
        SessionRecord {
            chan: ChanNo(0),
            n: 0,
            len: 0,
            begin: Tick(0),
            bytes: 0,
            end: Tick(0),
            opened: None,
            result: SessionResult::Whole,
        }
    }
}
