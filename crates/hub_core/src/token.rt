use gw_base::{BufNo, DestNo, PathNo};

/// A buffer that was taken and has no session yet. It can't be copied, and `enter` alone uses it up.
#[derive(Debug, Drop)]
pub struct Held {
    pub buf: BufNo,
    /// The buffer's cells.
    pub cells: u32,
    /// The change that took it.
    pub change: u32,
}

/// The writer's part in a session, and what its port last told of it. It can't be copied.
#[derive(Debug, Drop)]
pub struct Opened {
    pub path: PathNo,
    /// The session's number on its path, from 0.
    pub seq: u32,
    pub buf: BufNo,
    /// The buffer's cells.
    pub cells: u32,
    /// The unit's length in bytes.
    pub len: u32,
    /// The cells put.
    pub put: u32,
    /// The bytes put.
    pub given: u32,
    /// The bytes published.
    pub told: u32,
    /// The cells that may still be put, by the last look at the destinations' positions.
    pub room: u32,
    /// The destinations that take part, by the same look.
    pub readers: u8,
}

/// A destination's part in a session, and what its port last told of it. It can't be copied.
#[derive(Debug, Drop)]
pub struct Joined {
    pub path: PathNo,
    pub dest: DestNo,
    /// The session's number on its path, from 0.
    pub seq: u32,
    pub buf: BufNo,
    /// The unit's length in bytes.
    pub len: u32,
    /// The cells read.
    pub at: u32,
    /// The bytes read.
    pub taken: u32,
    /// The cells published, by the last look.
    pub seen: u32,
}

/// A party that leaves its session.
#[derive(Debug, Drop)]
pub enum End {
    Write(Opened),
    Read(Joined),
}

impl Opened {
    ghost use Rattle.std.specs.Prelude.{◌≡◌};

    /// The session's buffer.
    pub fn buf(&self) -> BufNo
        ensures { result ≡ self.now.buf }
    {
        self.buf
    }

    /// The buffer's cells.
    pub fn cells(&self) -> u32
        ensures { result ≡ self.now.cells }
    {
        self.cells
    }
}

impl Joined {
    ghost use Rattle.std.specs.Prelude.{◌≡◌};

    /// The session's buffer.
    pub fn buf(&self) -> BufNo
        ensures { result ≡ self.now.buf }
    {
        self.buf
    }

    /// The unit's length in bytes.
    pub fn len(&self) -> u32
        ensures { result ≡ self.now.len }
    {
        self.len
    }
}
