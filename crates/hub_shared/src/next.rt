//! A destination looks for its next session among the cards of a group, and joins it.
ghost use Rattle.std.specs.Prelude.{◌≡◌, ◌<◌, ◌↔◌, true, length};
ghost use Rattle.hub_core.specs.Calls.{Joins, joins, next_of};
ghost use Rattle.hub_core.specs.Stays.{IsFreshFor};
ghost use Rattle.hub_core.specs.View.{grow};
ghost use Rattle.hub_shared.specs.Cards.{IsCardFor};
ghost use Rattle.hub_shared.specs.Seats.{IsSeatOf, as_port, groups_of, seat_part, seat_view};
ghost use Rattle.hub_shared.specs.Seeks.{Finds, IsLooking};

use crate::plays::{JoinSession, LookAtCard, Rest, Seek};
use crate::sight::{Note, Sight, Sought};
use crate::{HubSeat, SharedHub};
use atomic_table::Seat;
use gw_base::{BufNo, DestNo, GroupNo, PathNo};
use hub_core::Joined;

/// The most destinations of a session.
const MOST_DESTINATIONS: u8 = 8;

/// Whether the card is of the session that is sought, and the destination takes part in it.
fn is_card_for(card: u64, sought: &Sought) -> bool
    requires { sought.now.dest < 8 }
    ensures { (result ≡ true) ↔ IsCardFor sought.now card }
{
    card >> 9 == (u64::from(sought.seq) << 8) + u64::from(sought.path)
        && card >> (sought.dest + 1) & 1 == 1
}

impl SharedHub {
    /// Looks at the cards of the group's buffers, until one is the session's.
    fn find(&self, seat: &mut Seat<Note, Sight>, sought: &Sought) -> Option<BufNo>
        requires of { seat.old.table_id ≡ self.now.table.shared.table_id }
        requires groups { seat.old.me.0.groups ≡ groups_of self.now }
        requires group { sought.now.group < length (groups_of self.now) }
        requires looks { IsLooking sought.now seat.old.me }
        ensures of { seat.new.table_id ≡ seat.old.table_id }
        ensures finds { Finds sought.now seat.old.me seat.new.me result }
    {
        if sought.dest >= MOST_DESTINATIONS {
            return None;
        }
        let (first, last) = self.buffers_of(GroupNo(sought.group));
        for buf in first..last {
            let buf = BufNo(buf as u8);
            let at = self.layout.card(buf);
            let card = self.table.shared.load::<LookAtCard>(seat, at);
            if is_card_for(card, sought) {
                return Some(buf);
            }
        }
        None
    }

    /// As for a port.
    pub(crate) fn next(
        &self,
        seat: &mut HubSeat,
        group: GroupNo,
        path: PathNo,
        dest: DestNo,
        seq: u32,
    ) -> Option<Joined>
        requires seat { IsSeatOf self.now seat.old }
        requires group { group.0 < length (groups_of self.now) }
        requires acts { (seat_part seat.old).reads path.0 dest.0 ≡ true }
        requires seq { length ((seat_view seat.old).readings path.0 dest.0) ≡ seq }
        ensures seat { IsSeatOf self.now seat.new }
        ensures view { seat_view seat.new ≡ grow (next_of group.0 path.0 dest.0 seq result) (seat_view seat.old) }
        ensures joins { Joins (seat_view seat.new) path dest seq result }
        ensures fresh { IsFreshFor (as_port seat.old) (next_of group.0 path.0 dest.0 seq result) }
        ensures home { (as_port seat.new).home ≡ (as_port seat.old).home }
        ensures means { (as_port seat.new).means ≡ (as_port seat.old).means }
        ensures floors { (as_port seat.new).floors ≡ (as_port seat.old).floors }
    {
        let sought = Sought {
            group: group.0,
            path: path.0,
            dest: dest.0,
            seq,
        };
        let note = Note::Seeks(sought);
        let shared = &self.table.shared;
        shared.compare_exchange_with::<Seek>(&mut seat.seat, 0, 0, 0, &note);
        let Some(buf) = self.find(&mut seat.seat, &sought) else {
            shared.load::<Rest>(&mut seat.seat, 0);
            return None;
        };
        let at = self.layout.length(buf);
        let len = shared.load::<JoinSession>(&mut seat.seat, at) as u32;
        Some(Joined {
            path,
            dest,
            seq,
            buf,
            len,
            at: 0,
            taken: 0,
            seen: 0,
        })
    }
}
