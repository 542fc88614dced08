ghost use Rattle.std.specs.Prelude.{◌≡◌, ◌+◌, ◌<◌, ◌≤◌, true, length};
ghost use Rattle.gw_base.specs.Cell.{IsCell, count_of};

use crate::{End, Held, Joined, Opened};
use gw_base::{BufNo, DestNo, GroupNo, PathNo};

/// The answer to a take.
#[derive(Debug, Drop)]
pub enum Take {
    /// The buffer is taken, by the group's change of that number, from 1.
    Granted { change: u32, held: Held },
    /// The group's pool word of the last step had no free buffer with the cells: its number of changes, and its free
    /// set with bit i for the group's i-th buffer.
    Overflow { change: u32, free: u32 },
}

/// What a writer sees of its session's destinations.
#[derive(Clone, Copy, Debug, PartialEq, Eq)]
pub struct Room {
    /// The cells that may be put.
    pub cells: u32,
    /// The destinations that still take part.
    pub readers: u8,
}

/// What a destination sees of its session.
#[derive(Clone, Copy, Debug, PartialEq, Eq)]
pub struct Seen {
    /// The cells that are published.
    pub cells: u32,
    /// The bytes that are published.
    pub bytes: u32,
    /// Whether the writer still took part when they were looked at.
    pub writer: bool,
}

/// What a leaving party left.
#[derive(Clone, Copy, Debug, PartialEq, Eq)]
pub enum Left {
    /// Others still take part.
    Others,
    /// It was the last: its buffer is free, by its group's change of that number.
    Last { change: u32, buf: BufNo },
}

/// Access to shared sessions, for the parties that the port acts for (this project's own).
///
/// A look may be old: other parties may have gone on, or left, since. But it is never older than the port's floors,
/// which only rise; the floors of a hub that acts for all parties are its present numbers. What the answers of several
/// ports mean together is said by the law of the hub, over the views of all ports.
///
/// Buffers belong to groups and are numbered through them; each group has changes and a free set of its own.
pub trait Port {
    ghost use Rattle.hub_core.specs.Stays.{PortState};

    ghost Home: { Type 0 };

    ghost state: { Self → PortState Home };

    ghost use Rattle.hub_core.specs.Calls.{SameMeans, TakeUsed, CellUsed, SameParties, ByWriter, ByReader, ByEnd};
    ghost use Rattle.hub_core.specs.Calls.{took_of, entered_of, asked_of, next_of, saw_of, read_of, left_of};
    ghost use Rattle.hub_core.specs.Calls.{Answers, joins, Joins, FreesOwn};
    ghost use Rattle.hub_core.specs.Stays.{IsFreshFor, Stays};
    ghost use Rattle.hub_core.specs.Tokens.{Holds, Writes, Reads, TakesPart, SameOpened, SameJoined};
    ghost use Rattle.hub_core.specs.Tokens.{opened_new, asked, put_one, published, saw, read_one};
    ghost use Rattle.hub_core.specs.View.{grow};
    ghost use Rattle.hub_core.specs.View.{Put, Published};

    /// Takes the group's smallest free buffer that has `need` cells, of equals the lowest number; `Overflow` where none
    /// has. The takes that a port has left are over all groups.
    fn take(&mut self, group: GroupNo, need: u64) -> Take
        requires group { group.0 < length (state self.old).means.groups }
        requires takes { 0 < (state self.old).means.takes }
        ensures view { (state self.new).view ≡ grow (took_of group.0 need result) (state self.old).view }
        ensures answers { Answers (state self.new).view (state self.old).means.groups group.0 need result }
        ensures fresh { IsFreshFor (state self.old) (took_of group.0 need result) }
        ensures stays { Stays SameParties TakeUsed (state self.old) (state self.new) };

    /// Makes the path's next session known, in a buffer that was taken, to `readers` destinations. `len` is the unit's
    /// length in bytes.
    fn enter(&mut self, held: Held, path: PathNo, seq: u32, len: u32, readers: u8) -> Opened
        requires acts { (state self.old).means.writes path.0 ≡ true }
        requires held { Holds (state self.old).view held }
        requires seq { length ((state self.old).view.sessions path.0) ≡ seq }
        requires len { 0 < len }
        requires readers { (0 < readers) × (readers ≤ (state self.old).means.most) }
        ensures view { (state self.new).view ≡ grow (entered_of held path seq len readers) (state self.old).view }
        ensures opened { result ≡ opened_new held path seq len readers }
        ensures writes { Writes (state self.new).view result }
        ensures stays { Stays (ByWriter path.0 1) SameMeans (state self.old) (state self.new) };

    /// Looks at the positions of the destinations that still take part, and how many cells they leave room for. A
    /// destination that hasn't joined yet takes part; one that left never comes back.
    fn room(&mut self, at: &mut Opened) -> Room
        requires { Writes (state self.old).view at.old }
        ensures view { (state self.new).view ≡ grow (asked_of at.old result) (state self.old).view }
        ensures token { SameOpened at.new (asked result at.old) }

        // The room falls by puts alone, and is never more than the buffer.
        ensures cells { (at.old.room ≤ result.cells) × (result.cells ≤ at.old.cells) }
        ensures writes { Writes (state self.new).view at.new }
        ensures fresh { IsFreshFor (state self.old) (asked_of at.old result) }
        ensures stays { Stays (ByWriter at.old.path.0 0) SameMeans (state self.old) (state self.new) };

    /// Stores the session's next cell: one to seven bytes below their number. No destination sees it before it is
    /// published.
    fn put(&mut self, at: &mut Opened, cell: u64)
        requires writes { Writes (state self.old).view at.old }
        requires room { 0 < at.old.room }
        requires spare { 0 < (state self.old).means.spare }
        requires cell { IsCell cell }
        requires len { at.old.given + count_of cell ≤ at.old.len }
        ensures view { (state self.new).view ≡ grow (Put at.old.path.0 at.old.seq cell) (state self.old).view }
        ensures token { SameOpened at.new (put_one cell at.old) }
        ensures writes { Writes (state self.new).view at.new }
        ensures stays { Stays (ByWriter at.old.path.0 0) CellUsed (state self.old) (state self.new) };

    /// Makes all cells put, and `bytes` more bytes, visible.
    fn publish(&mut self, at: &mut Opened, bytes: u32)
        requires writes { Writes (state self.old).view at.old }
        requires bytes { at.old.told + bytes ≡ at.old.given }
        ensures view { (state self.new).view ≡ grow (Published at.old.path.0 at.old.seq bytes) (state self.old).view }
        ensures token { SameOpened at.new (published at.old) }
        ensures writes { Writes (state self.new).view at.new }
        ensures stays { Stays (ByWriter at.old.path.0 0) SameMeans (state self.old) (state self.new) };

    /// Joins the destination's next session, the path's one with the number `seq`, which lies in the group. `None` where
    /// no such session is known in the group yet: its writer hadn't entered it when this call looked. A session stays
    /// known until this destination has left it.
    fn next(&mut self, group: GroupNo, path: PathNo, dest: DestNo, seq: u32) -> Option<Joined>
        requires group { group.0 < length (state self.old).means.groups }
        requires acts { (state self.old).means.reads path.0 dest.0 ≡ true }
        requires seq { length ((state self.old).view.readings path.0 dest.0) ≡ seq }
        ensures view { (state self.new).view ≡ grow (next_of group.0 path.0 dest.0 seq result) (state self.old).view }
        ensures joins { Joins (state self.new).view path dest seq result }
        ensures fresh { IsFreshFor (state self.old) (next_of group.0 path.0 dest.0 seq result) }
        ensures stays { Stays (ByReader path.0 dest.0 (joins result)) SameMeans (state self.old) (state self.new) };

    /// Looks whether the writer takes part, and then how many cells and bytes are published. So where the writer is
    /// seen gone, these are all that it ever published.
    fn seen(&mut self, at: &mut Joined) -> Seen
        requires { Reads (state self.old).view at.old }
        ensures view { (state self.new).view ≡ grow (saw_of at.old result) (state self.old).view }
        ensures token { SameJoined at.new (saw result at.old) }

        // The count never falls.
        ensures cells { at.old.seen ≤ result.cells }
        ensures reads { Reads (state self.new).view at.new }
        ensures fresh { IsFreshFor (state self.old) (saw_of at.old result) }
        ensures stays { Stays (ByReader at.old.path.0 at.old.dest.0 0) SameMeans (state self.old) (state self.new) };

    /// Reads the session's next cell, and makes its place free for the writer.
    fn read(&mut self, at: &mut Joined) -> u64
        requires reads { Reads (state self.old).view at.old }
        requires more { at.old.at < at.old.seen }
        ensures view { (state self.new).view ≡ grow (read_of at.old result) (state self.old).view }
        ensures token { SameJoined at.new (read_one result at.old) }
        ensures cell { IsCell result }
        ensures len { at.old.taken + count_of result ≤ at.old.len }
        ensures reads { Reads (state self.new).view at.new }
        ensures stays { Stays (ByReader at.old.path.0 at.old.dest.0 0) SameMeans (state self.old) (state self.new) };

    /// Takes the party out of its session; the last one frees the buffer before the call returns. Cells that a writer
    /// put and didn't publish are never seen.
    fn leave(&mut self, end: End) -> Left
        requires { TakesPart (state self.old).view end }
        ensures view { (state self.new).view ≡ grow (left_of end result) (state self.old).view }
        ensures frees { FreesOwn end result }
        ensures stays { Stays (ByEnd end) SameMeans (state self.old) (state self.new) };
}
