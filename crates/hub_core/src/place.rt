/// A session that a party stands in, by what its parties tell each other.
#[derive(Clone, Copy, Debug)]
pub struct Row {
    pub path: u8,
    /// The session's number on its path, from 0.
    pub seq: u32,
    /// The unit's length in bytes.
    pub len: u32,
    /// The cells and bytes published.
    pub shown: u32,
    pub told: u32,
    /// Whether the writer takes part.
    pub writes: bool,
    /// By destination, the cells that it read; `None` where it doesn't take part. It takes part from the session's
    /// beginning on.
    pub positions: [Option<u32>; 8],
}

/// What a buffer is used for.
#[derive(Clone, Copy, Debug)]
pub enum Place {
    /// It is free.
    Free,
    /// It was taken, and has no session yet.
    Reserved,
    /// It has this session.
    Occupied(Row),
}
