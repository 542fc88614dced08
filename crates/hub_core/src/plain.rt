//! A hub on one thread.
ghost use Rattle.std.specs.Prelude.{◌≡◌, ◌+◌, ◌/◌, ◌%◌, ◌^◌, ◌<◌, ◌≤◌, length, sum, All, IfOk};
ghost use Rattle.gw_base.specs.Cell.{count_of};
ghost use Rattle.hub_core.specs.View.{empty_view};
ghost use Rattle.hub_core.specs.Calls.{buf_of, left_of};
ghost use Rattle.hub_core.specs.Past.{event_of, view_after};
ghost use Rattle.hub_core.specs.Groups.{grouped};
ghost use Rattle.hub_core.specs.Plain.{AreLaid, IsShown, hub_means};

use crate::groups::{find_group, first_buffer, full_pools};
use crate::history::{Deed, History};
use crate::place::{Place, Row};
use crate::rings::ring_starts;
use crate::row::{advanced, find_session, first_positions, has_party, room_left, without};
use crate::{End, Held, Joined, Left, Opened, Port, Room, Seen, Take};
use gw_base::{BufNo, DestNo, GroupNo, Memory, PathNo};
use pool_words::{Pool, after_free, after_take, smallest_fitting, word_of};
use std::alloc::Global;

/// The takes of a plain hub: one for each frame that a run may have.
const MOST_TAKES: u32 = 1_000_000;

/// The bytes that a cell counts: its low byte.
fn bytes_counted(cell: u64) -> u32
    ensures { result ≡ count_of cell }
{
    (cell & 0xff) as u32
}

/// The buffer of the party's session.
fn session_buf(end: &End) -> BufNo
    ensures { result.0 ≡ buf_of end.now }
{
    match end {
        End::Write(at) => at.buf,
        End::Read(at) => at.buf,
    }
}

/// A party's leave, and what it left.
fn leaving(end: &End, left: Left) -> Deed
    ensures { event_of result ≡ left_of end.now left }
{
    match end {
        End::Write(at) => Deed::Closed {
            path: at.path.0,
            seq: at.seq,
            left,
        },
        End::Read(at) => Deed::Parted {
            path: at.path.0,
            dest: at.dest.0,
            seq: at.seq,
            left,
        },
    }
}

/// A hub of up to four groups of 32 buffers each, for 64 paths with eight destinations each, on one thread. It acts for
/// all parties.
///
/// Each call costs the same whatever was done before, and no call takes memory.
#[derive(Drop)]
pub struct PlainHub {
    /// The buffers of each group.
    counts: Vec<u8>,
    /// The cells of each buffer.
    sizes: Vec<u32>,
    /// Where each buffer's ring of cells begins in the words.
    starts: Vec<u32>,
    /// The rings of all buffers: the cell of a session's k-th put lies at k modulo its buffer's cells.
    words: Vec<u64>,
    /// What each buffer is used for.
    places: Vec<Place>,
    /// The pool word of each group.
    pools: Vec<Pool>,
    takes: u32,
    past: History,
    ghost laid: { AreLaid counts.items sizes.items starts.items words.items places.items },
    ghost shown: { IsShown (grouped counts.items sizes.items) places.items words.items pools.items takes
        (view_after past.seat.me.0.deeds) },
}

impl PlainHub {
    ghost use Rattle.hub_core.specs.HubPort.{as_port, groups_of, view_of};

    /// A hub of 1 to 4 groups of 1 to 32 buffers, each buffer of 1 to 8192 cells and free, for 1,000,000 takes; it
    /// takes no memory later. `cells` is the cells of each buffer, group after group, and `counts` how many buffers
    /// each group has. `Memory` where a growth was refused.
    pub fn new(alloc: Global, cells: &[u32], counts: &[u8]) -> Result<PlainHub, Memory>
        requires groups { (1 ≤ length counts.now) × (length counts.now ≤ 4) }
        requires buffers { All (λ count. (1 ≤ count) × (count ≤ 32)) counts.now }
        requires all { sum counts.now ≡ length cells.now }
        requires cells { All (λ size. (1 ≤ size) × (size ≤ 8192)) cells.now }
        ensures view { IfOk result (λ hub. view_of hub ≡ empty_view) }
        ensures means { IfOk result (λ hub. (as_port hub).means ≡ hub_means (grouped counts.now cells.now) 1000000) }
    {
        let sizes = Vec::from_slice(alloc, cells)?;
        let (starts, total) = ring_starts(alloc, cells)?;
        let words = vec![in alloc; 0; total as usize]?;
        let places = vec![in alloc; Place::Free; cells.len()]?;
        Ok(PlainHub {
            counts: Vec::from_slice(alloc, counts)?,
            sizes,
            starts,
            words,
            places,
            pools: full_pools(alloc, counts)?,
            takes: MOST_TAKES,
            past: History::new(alloc)?,
        })
    }
}

impl PlainHub {
    ghost use Rattle.hub_core.specs.Groups.{changes_in, IsWordOf};
    ghost use Rattle.hub_core.specs.HubPort.{as_port, groups_of, view_of};
    ghost use Rattle.hub_core.specs.Joint.{Joint};
    ghost use Rattle.hub_core.specs.Journal.{AreInOrder};

    /// The pool word of the group: the number of its changes in its upper 32 bits, its free set in its lower 32.
    pub fn word(&self, group: GroupNo) -> u64
        requires { group.0 < length (groups_of self.now) }
        ensures word { IsWordOf (groups_of self.now) group.0 (view_of self.now) (result / 2 ^ 32) (result % 2 ^ 32) }
        ensures joint { Joint (groups_of self.now) (view_of self.now) }
        ensures in_order { AreInOrder (changes_in (groups_of self.now) group.0 (view_of self.now)) }
    {
        word_of(self.pools[usize::from(group.0)])
    }
}

impl PlainHub {
    ghost use Rattle.std.specs.Prelude.{drop, take};
    ghost use Rattle.hub_core.specs.Groups.{first_of, sizes_of};
    ghost use Rattle.hub_core.specs.HubPort.{groups_of};

    /// The group's first buffer, and the one after its last.
    fn buffers_of(&self, group: GroupNo) -> (usize, usize)
        requires { group.0 < length (groups_of self.now) }
        ensures first { result.0 ≡ first_of self.now.counts.items group.0 }
        ensures last { result.1 ≡ result.0 + length (sizes_of (groups_of self.now) group.0) }
        ensures few { result.1 ≤ length self.now.sizes.items }
    {
        let group = usize::from(group.0);
        let first = first_buffer(&self.counts, group);
        (first, first + usize::from(self.counts[group]))
    }
}

impl Port for PlainHub {
    ghost use Rattle.std.specs.Prelude.{◌≡◌, ◌<◌, ◌≤◌, true, length};
    ghost use Rattle.hub_core.specs.Alone.{IsTakeOf, IsRoomOf, IsNextOf, IsSeenOf, IsLeavingOf};
    ghost use Rattle.hub_core.specs.Calls.{SameMeans, TakeUsed, SameParties, ByWriter, ByReader, ByEnd};
    ghost use Rattle.hub_core.specs.Calls.{took_of, asked_of, next_of, saw_of, left_of};
    ghost use Rattle.hub_core.specs.Calls.{Answers, joins, Joins, FreesOwn};
    ghost use Rattle.hub_core.specs.HubPort.{as_port, groups_of, view_of};
    ghost use Rattle.hub_core.specs.Stays.{IsFreshFor, Stays};
    ghost use Rattle.hub_core.specs.Tokens.{Writes, Reads, TakesPart, asked, saw, SameOpened, SameJoined};
    ghost use Rattle.hub_core.specs.View.{grow};

    ghost Home = { Unit {0} };

    ghost state = { as_port };

    /// As for any port; the answer has the pool word of this call.
    fn take(&mut self, group: GroupNo, need: u64) -> Take
        requires group { group.0 < length (groups_of self.old) }
        requires takes { 0 < (as_port self.old).means.takes }
        ensures view { view_of self.new ≡ grow (took_of group.0 need result) (view_of self.old) }
        ensures answers { Answers (view_of self.new) (groups_of self.old) group.0 need result }
        ensures fresh { IsFreshFor (as_port self.old) (took_of group.0 need result) }
        ensures stays { Stays SameParties TakeUsed (as_port self.old) (as_port self.new) }

        // Beside the port's: a buffer that fits is taken by the next change, and an overflow's word is the present one.
        ensures exact { IsTakeOf (view_of self.old) (groups_of self.old) group.0 need result }
    {
        let (first, last) = self.buffers_of(group);
        let at = usize::from(group.0);
        let pool = self.pools[at];
        self.takes -= 1;
        let Some(place) = smallest_fitting(&self.sizes[first..last], pool.free, need) else {
            self.past.note(Deed::Refused {
                group: group.0,
                change: pool.changes,
                free: pool.free,
                need,
            });
            return Take::Overflow {
                change: pool.changes,
                free: pool.free,
            };
        };
        let buf = first + place;
        let pool = after_take(pool, place);
        let held = Held {
            buf: BufNo(buf as u8),
            cells: self.sizes[buf],
            change: pool.changes,
        };
        self.pools[at] = pool;
        self.places[buf] = Place::Reserved;
        self.past.note(Deed::Took {
            group: group.0,
            change: held.change,
            buf: held.buf.0,
            size: held.cells,
            need,
        });
        Take::Granted {
            change: held.change,
            held,
        }
    }

    fn enter(&mut self, held: Held, path: PathNo, seq: u32, len: u32, readers: u8) -> Opened {
        let Held { buf, cells, change } = held;
        self.places[usize::from(buf.0)] = Place::Occupied(Row {
            path: path.0,
            seq,
            len,
            shown: 0,
            told: 0,
            writes: true,
            positions: first_positions(readers),
        });
        self.past.note(Deed::Entered {
            path: path.0,
            seq,
            buf: buf.0,
            change,
            size: cells,
            len,
            readers,
        });
        Opened {
            path,
            seq,
            buf,
            cells,
            len,
            put: 0,
            given: 0,
            told: 0,
            room: cells,
            readers,
        }
    }

    /// As for any port; the room is that of the present position.
    fn room(&mut self, at: &mut Opened) -> Room
        requires { Writes (view_of self.old) at.old }
        ensures view { view_of self.new ≡ grow (asked_of at.old result) (view_of self.old) }
        ensures token { SameOpened at.new (asked result at.old) }
        ensures cells { (at.old.room ≤ result.cells) × (result.cells ≤ at.old.cells) }
        ensures writes { Writes (view_of self.new) at.new }
        ensures fresh { IsFreshFor (as_port self.old) (asked_of at.old result) }
        ensures stays { Stays (ByWriter at.old.path.0 0) SameMeans (as_port self.old) (as_port self.new) }

        // Beside the port's: the look is exact.
        ensures exact { IsRoomOf (view_of self.old) at.old.path.0 at.old.seq result }
    {
        let Place::Occupied(row) = self.places[usize::from(at.buf.0)] else {
            unreachable!();
        };
        let room = room_left(at.cells, at.put, &row.positions);
        self.past.note(Deed::Asked {
            path: at.path.0,
            seq: at.seq,
            cells: room.cells,
            readers: room.readers,
        });
        at.room = room.cells;
        at.readers = room.readers;
        room
    }

    fn put(&mut self, at: &mut Opened, cell: u64) {
        let start = self.starts[usize::from(at.buf.0)];
        self.words[(start + at.put % at.cells) as usize] = cell;
        self.past.note(Deed::Put {
            path: at.path.0,
            seq: at.seq,
            cell,
        });
        at.put += 1;
        at.given += bytes_counted(cell);
        at.room -= 1;
    }

    fn publish(&mut self, at: &mut Opened, bytes: u32) {
        let buf = usize::from(at.buf.0);
        let Place::Occupied(row) = self.places[buf] else {
            unreachable!();
        };
        self.places[buf] = Place::Occupied(Row {
            shown: at.put,
            told: at.given,
            ..row
        });
        self.past.note(Deed::Published {
            path: at.path.0,
            seq: at.seq,
            bytes,
        });
        at.told = at.given;
    }

    /// As for any port; `None` exactly where the path has no session of that number for the destination.
    fn next(&mut self, group: GroupNo, path: PathNo, dest: DestNo, seq: u32) -> Option<Joined>
        requires group { group.0 < length (groups_of self.old) }
        requires acts { (as_port self.old).means.reads path.0 dest.0 ≡ true }
        requires seq { length ((view_of self.old).readings path.0 dest.0) ≡ seq }
        ensures view { view_of self.new ≡ grow (next_of group.0 path.0 dest.0 seq result) (view_of self.old) }
        ensures joins { Joins (view_of self.new) path dest seq result }
        ensures fresh { IsFreshFor (as_port self.old) (next_of group.0 path.0 dest.0 seq result) }
        ensures stays { Stays (ByReader path.0 dest.0 (joins result)) SameMeans (as_port self.old) (as_port self.new) }

        // Beside the port's: the look is exact.
        ensures exact { IsNextOf (view_of self.old) (groups_of self.old) group.0 path.0 dest.0 seq result }
    {
        let (first, last) = self.buffers_of(group);
        let (place, row) = find_session(&self.places[first..last], path.0, seq)?;
        row.positions[usize::from(dest.0)]?;
        let buf = (first + place) as u8;
        self.past.note(Deed::Joining {
            path: path.0,
            dest: dest.0,
            seq,
            buf,
            len: row.len,
        });
        Some(Joined {
            path,
            dest,
            seq,
            buf: BufNo(buf),
            len: row.len,
            at: 0,
            taken: 0,
            seen: 0,
        })
    }

    /// As for any port; all that is published is seen.
    fn seen(&mut self, at: &mut Joined) -> Seen
        requires { Reads (view_of self.old) at.old }
        ensures view { view_of self.new ≡ grow (saw_of at.old result) (view_of self.old) }
        ensures token { SameJoined at.new (saw result at.old) }
        ensures cells { at.old.seen ≤ result.cells }
        ensures reads { Reads (view_of self.new) at.new }
        ensures fresh { IsFreshFor (as_port self.old) (saw_of at.old result) }
        ensures stays { Stays (ByReader at.old.path.0 at.old.dest.0 0) SameMeans (as_port self.old) (as_port self.new) }

        // Beside the port's: the look is exact.
        ensures exact { IsSeenOf (view_of self.old) at.old.path.0 at.old.seq result }
    {
        let Place::Occupied(row) = self.places[usize::from(at.buf.0)] else {
            unreachable!();
        };
        self.past.note(Deed::Saw {
            path: at.path.0,
            dest: at.dest.0,
            seq: at.seq,
            cells: row.shown,
            bytes: row.told,
            writer: row.writes,
        });
        at.seen = row.shown;
        Seen {
            cells: row.shown,
            bytes: row.told,
            writer: row.writes,
        }
    }

    fn read(&mut self, at: &mut Joined) -> u64 {
        let buf = usize::from(at.buf.0);
        let Place::Occupied(row) = self.places[buf] else {
            unreachable!();
        };
        let cell = self.words[(self.starts[buf] + at.at % self.sizes[buf]) as usize];
        self.places[buf] = Place::Occupied(advanced(row, at.dest, at.at + 1));
        self.past.note(Deed::Read {
            path: at.path.0,
            dest: at.dest.0,
            seq: at.seq,
            cell,
        });
        at.at += 1;
        at.taken += bytes_counted(cell);
        cell
    }

    /// As for any port; `Last` exactly where no other party takes part.
    fn leave(&mut self, end: End) -> Left
        requires { TakesPart (view_of self.old) end }
        ensures view { view_of self.new ≡ grow (left_of end result) (view_of self.old) }
        ensures frees { FreesOwn end result }
        ensures stays { Stays (ByEnd end) SameMeans (as_port self.old) (as_port self.new) }

        // Beside the port's: the last one is told so, and no other.
        ensures exact { IsLeavingOf (view_of self.new) end result }
    {
        let buf = session_buf(&end);
        let at = usize::from(buf.0);
        let Place::Occupied(row) = self.places[at] else {
            unreachable!();
        };
        let row = without(row, &end);
        if has_party(&row) {
            self.places[at] = Place::Occupied(row);
            self.past.note(leaving(&end, Left::Others));
            return Left::Others;
        }
        let (group, place) = find_group(&self.counts, at);
        let pool = after_free(self.pools[group], place);
        self.pools[group] = pool;
        self.places[at] = Place::Free;
        let left = Left::Last {
            change: pool.changes,
            buf,
        };
        self.past.note(leaving(&end, left));
        left
    }
}
