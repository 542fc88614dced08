//! What a buffer is used for, and what the parties of a session tell each other.
ghost use Rattle.std.specs.Prelude.{◌≡◌, ◌+◌, ◌≤◌, ◌<◌, ◌||◌, ◌⊎◌, nat_lt, length};
ghost use Rattle.hub_core.specs.Plain.{readers_to, IsRoomTo, AreWithin, AreFirst, IsPlaceOf, IsEndOf, advance, left_by};

use crate::place::{Place, Row};
use crate::{End, Room};
use gw_base::DestNo;

/// Where a session's destinations are as it begins: the first `readers` of them at its beginning.
pub(crate) fn first_positions(readers: u8) -> [Option<u32>; 8]
    requires { readers ≤ 8 }
    ensures { AreFirst readers 8 result }
{
    let mut positions = [None; 8];
    for dest in 0..usize::from(readers) {
        positions[dest] = Some(0);
    }
    positions
}

/// How many destinations take part.
fn readers(positions: &[Option<u32>; 8]) -> u8
    ensures { result ≡ readers_to positions.now 8 }
{
    let mut readers = 0;
    for dest in 0..8 {
        if positions[dest].is_some() {
            readers += 1;
        }
    }
    readers
}

/// The room that all destinations leave in a buffer of `size` cells, where `put` cells were put.
pub(crate) fn room_left(size: u32, put: u32, positions: &[Option<u32>; 8]) -> Room
    requires { AreWithin size put positions.now }
    ensures { IsRoomTo size put positions.now 8 result }
{
    let mut room = Room {
        cells: size,
        readers: 0,
    };
    for dest in 0..8 {
        if let Some(at) = positions[dest] {
            room = narrowed(room, size - (put - at));
        }
    }
    room
}

/// The room beside one more destination, which leaves so many cells.
fn narrowed(room: Room, cells: u32) -> Room
    requires { room.readers < 255 }
    ensures readers { result.readers ≡ room.readers + 1 }
    ensures cells { (result.cells ≤ room.cells) × (result.cells ≤ cells) }
    ensures one { (result.cells ≡ room.cells) ⊎ (result.cells ≡ cells) }
{
    Room {
        cells: room.cells.min(cells),
        readers: room.readers + 1,
    }
}

/// The session once the party has left.
pub(crate) fn without(row: Row, end: &End) -> Row
    requires { IsEndOf end.now }
    ensures { result ≡ left_by end.now row }
{
    match end {
        End::Write(_) => Row {
            writes: false,
            ..row
        },
        End::Read(at) => {
            let mut positions = row.positions;
            positions[usize::from(at.dest.0)] = None;
            Row { positions, ..row }
        }
    }
}

/// The session once its destination has read so many cells.
pub(crate) fn advanced(row: Row, dest: DestNo, at: u32) -> Row
    requires { dest.0 < 8 }
    ensures { result ≡ advance dest.0 at row }
{
    let mut positions = row.positions;
    positions[usize::from(dest.0)] = Some(at);
    Row { positions, ..row }
}

/// Whether the writer or a destination takes part.
pub(crate) fn has_party(row: &Row) -> bool
    ensures { result ≡ (row.now.writes || nat_lt 0 (readers_to row.now.positions 8)) }
{
    row.writes || readers(&row.positions) > 0
}

/// The place of the path's session with that number.
pub(crate) fn find_session(places: &[Place], path: u8, seq: u32) -> Option<(usize, Row)>
    ensures { IsPlaceOf places.now path seq result }
{
    for at in 0..places.len() {
        if let Place::Occupied(row) = places[at] {
            if row.path == path && row.seq == seq {
                return Some((at, row));
            }
        }
    }
    None
}
