//! A take by a seat: exchanges of the group's pool word until one wins. Each that is lost has found more changes.
ghost use Rattle.std.specs.Prelude.{◌≡◌, ◌+◌, ◌%◌, ◌^◌, ◌<◌, ◌≤◌, length};
ghost use Rattle.gw_base.specs.Fit.{IsSmallest, NoneFits};
ghost use Rattle.hub_core.specs.Groups.{first_of, sizes_of};
ghost use Rattle.hub_shared.specs.Seats.{IsSeatOf, groups_of, as_port};
ghost use Rattle.hub_shared.specs.Takes.{HasLooked, Tries, IsTaken};

use crate::plays::{Grant, Look, Refuse};
use crate::sight::{Note, Sight};
use crate::{HubSeat, SharedHub};
use atomic_table::Seat;
use gw_base::{BufNo, GroupNo};
use hub_core::{Held, Take, first_buffer};
use pool_words::{after_take, pool_of, smallest_fitting, word_of};

impl SharedHub {
    /// The group's first buffer, and the one after its last.
    pub(crate) fn buffers_of(&self, group: GroupNo) -> (usize, usize)
        requires { group.0 < length (groups_of self.now) }
        ensures first { result.0 ≡ first_of self.now.buffers.counts.items group.0 }
        ensures last { result.1 ≡ result.0 + length (sizes_of (groups_of self.now) group.0) }
        ensures few { result.1 ≤ length self.now.buffers.cells.items }
    {
        let group = usize::from(group.0);
        let first = first_buffer(&self.buffers.counts, group);
        (first, first + usize::from(self.buffers.counts[group]))
    }

    /// Takes the buffer at that place of the group, as the word is that was seen; `Err` with the word where it is
    /// another.
    fn grant(
        &self,
        seat: &mut Seat<Note, Sight>,
        group: GroupNo,
        word: u64,
        need: u64,
        place: usize,
    ) -> Result<Take, u64>
        requires seat { HasLooked self.now group.0 word seat.old }
        requires smallest { IsSmallest (sizes_of (groups_of self.now) group.0) (word % 2 ^ 32) need place }
        ensures { Tries self.now group.0 word need seat.old seat.new result }
    {
        let (first, _) = self.buffers_of(group);
        let buf = first + place;
        let cells = self.buffers.cells[buf];
        let buf = buf as u8;
        let next = after_take(pool_of(word), place);
        let note = Note::Takes { need, buf, cells };
        let at = self.layout.pool(group);
        let shared = &self.table.shared;
        let found = shared.compare_exchange_with::<Grant>(seat, at, word, word_of(next), &note);
        if found != word {
            return Err(found);
        }
        let change = next.changes;
        let held = Held {
            buf: BufNo(buf),
            cells,
            change,
        };
        Ok(Take::Granted { change, held })
    }

    /// Takes nothing, as the word is that was seen; `Err` with the word where it is another.
    fn refuse(
        &self,
        seat: &mut Seat<Note, Sight>,
        group: GroupNo,
        word: u64,
        need: u64,
    ) -> Result<Take, u64>
        requires seat { HasLooked self.now group.0 word seat.old }
        requires none_fits { NoneFits (sizes_of (groups_of self.now) group.0) (word % 2 ^ 32) need }
        ensures { Tries self.now group.0 word need seat.old seat.new result }
    {
        let note = Note::Refuses { need };
        let at = self.layout.pool(group);
        let shared = &self.table.shared;
        let found = shared.compare_exchange_with::<Refuse>(seat, at, word, word, &note);
        if found != word {
            return Err(found);
        }
        let pool = pool_of(word);
        Ok(Take::Overflow {
            change: pool.changes,
            free: pool.free,
        })
    }

    /// One exchange, by the word that was seen.
    fn exchange(
        &self,
        seat: &mut Seat<Note, Sight>,
        group: GroupNo,
        word: u64,
        need: u64,
    ) -> Result<Take, u64>
        requires seat { HasLooked self.now group.0 word seat.old }
        ensures { Tries self.now group.0 word need seat.old seat.new result }
    {
        let (first, last) = self.buffers_of(group);
        let free = pool_of(word).free;
        match smallest_fitting(&self.buffers.cells[first..last], free, need) {
            Some(place) => self.grant(seat, group, word, need, place),
            None => self.refuse(seat, group, word, need),
        }
    }

    /// A look, and then exchanges until one wins.
    fn take_by(&self, seat: &mut Seat<Note, Sight>, group: GroupNo, need: u64) -> Take
        requires of { seat.old.table_id ≡ self.now.table.shared.table_id }
        requires live { 0 < seat.old.me.0.parts }
        requires spare { 0 < seat.old.me.0.takes }
        requires group { group.0 < length (groups_of self.now) }
        ensures of { seat.new.table_id ≡ seat.old.table_id }
        ensures taken { IsTaken (groups_of self.now) group.0 need seat.old.me seat.new.me result }
    {
        let at = self.layout.pool(group);
        let mut word = self.table.shared.load::<Look>(seat, at);
        loop {
            match self.exchange(seat, group, word, need) {
                Ok(take) => return take,
                Err(found) => word = found,
            }
        }
    }

    /// As for a port.
    pub(crate) fn take(&self, seat: &mut HubSeat, group: GroupNo, need: u64) -> Take
        requires seat { IsSeatOf self.now seat.old }
        requires group { group.0 < length (groups_of self.now) }
        requires takes { 0 < (as_port seat.old).means.takes }
        ensures of { seat.new.seat.table_id ≡ seat.old.seat.table_id }
        ensures taken { IsTaken (groups_of self.now) group.0 need seat.old.seat.me seat.new.seat.me result }
    {
        let take = self.take_by(&mut seat.seat, group, need);
        seat.takes -= 1;
        take
    }
}
