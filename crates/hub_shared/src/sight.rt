//! What a seat did and knows, which no memory keeps.
use crate::HubPart;
use hub_core::Deed;
use std::collections::LinkedList;

/// An item of a seat's history. Where a seat takes in another one, the other's history comes after its own, and then
/// the word that says so.
pub enum Entry {
    /// The first seat of a hub begins with nothing done.
    Begun,
    Did(Deed),
    /// It gave these parties to a new seat, or is the new one.
    Kept(HubPart),
    Given(HubPart),
    /// It took in another seat.
    Joined,
}

/// A session that is to be entered, in a buffer that the seat took.
#[derive(Clone, Copy, Debug)]
pub struct Opening {
    pub path: u8,
    pub seq: u32,
    pub buf: u8,
    pub change: u32,
    pub cells: u32,
    /// The unit's length in bytes.
    pub len: u32,
    pub readers: u8,
}

/// A session that a destination looks for in a group.
#[derive(Clone, Copy, Debug)]
pub struct Sought {
    pub group: u8,
    pub path: u8,
    pub dest: u8,
    pub seq: u32,
}

/// What a seat is in the midst of.
pub enum Hand {
    /// It is between calls.
    Idle,
    /// It looked at this pool word of the group.
    Looked { group: u8, word: u64 },
    /// It is about to give this part to a new seat.
    Parting(HubPart),
    /// It is about to enter this session, and then the session's length is stored.
    Entering(Opening),
    Prepared(Opening),
    /// It looks for this session, which is in this buffer where it is there.
    Seeking { sought: Sought, buf: Option<u8> },
}

/// What a seat knows. No value of it is made.
pub struct Sight {
    /// By group: the cells of each of its buffers.
    pub groups: LinkedList<LinkedList<u32>>,
    /// Its parts, of 1024, of the right to know the whole.
    pub parts: u64,
    pub takes: u64,
    /// The newest first.
    pub entries: LinkedList<Entry>,
    /// The history that no look falls behind.
    pub base: LinkedList<Entry>,
    pub hand: Hand,
}

/// What a step announces of itself.
#[derive(Clone, Copy, Debug)]
pub enum Note {
    /// A take of this buffer, which has so many cells, for a need.
    Takes { need: u64, buf: u8, cells: u32 },
    /// An overflow.
    Refuses { need: u64 },
    /// The part that a new seat is given.
    Parts(HubPart),
    /// The session that is entered.
    Opens(Opening),
    /// The session that is looked for.
    Seeks(Sought),
}
