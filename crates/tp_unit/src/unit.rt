use arrayvec::ArrayVec;

/// The most data bytes of a single frame or a first frame.
pub const MAX_START: usize = 62;

/// The most data bytes of a consecutive frame.
pub const MAX_CONSECUTIVE: usize = 63;

/// A protocol unit: what one frame says to the transport (ISO 15765-2, protocol data units).
#[derive(Debug, Drop)]
pub enum Unit {
    /// A single frame: a whole message.
    Sf {
        /// The message, from 1 to 62 bytes.
        bytes: ArrayVec<u8, MAX_START>,
    },
    /// A first frame: the beginning of a message that takes several frames.
    Ff {
        /// The message's length in bytes.
        len: u32,
        /// Its first bytes.
        bytes: ArrayVec<u8, MAX_START>,
    },
    /// A consecutive frame: the next bytes of a message.
    Cf {
        /// The sequence number, from 0 to 15.
        sn: u8,
        /// The bytes, and perhaps fill bytes after them.
        bytes: ArrayVec<u8, MAX_CONSECUTIVE>,
    },
    /// A flow control: what a receiver permits.
    Fc {
        /// The flow status, from 0 to 15: 0 to continue, 1 to wait, 2 for overflow.
        fs: u8,
        /// The block size in frames; 0 is no limit.
        bs: u8,
        /// The least separation time, in the standard's code.
        st: u8,
    },
    /// A frame without a unit.
    Ignored(Why),
}

/// Why a frame has no unit.
#[derive(Clone, Copy, Debug, PartialEq, Eq)]
pub enum Why {
    /// It ends before its protocol control information does.
    Short,
    /// Its kind is none of the four.
    Kind,
    /// It is a single frame or a first frame whose length isn't accepted.
    Length,
}
