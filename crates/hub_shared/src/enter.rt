//! A session is entered in a buffer that the seat took: what it is, its length, and then its card.
ghost use Rattle.std.specs.Prelude.{◌≡◌, ◌+◌, ◌-◌, ◌^◌, ◌<◌, ◌≤◌, true, length};
ghost use Rattle.hub_core.specs.Calls.{entered_of};
ghost use Rattle.hub_core.specs.Tokens.{Holds, opened_new};
ghost use Rattle.hub_core.specs.View.{grow};
ghost use Rattle.hub_shared.specs.Cards.{card_of};
ghost use Rattle.hub_shared.specs.Seats.{IsSeatOf, as_port, seat_part, seat_view};

use crate::plays::{Enter, Open, Prepare};
use crate::sight::{Note, Opening};
use crate::{HubSeat, SharedHub};
use gw_base::PathNo;
use hub_core::{Held, Opened};

/// The card of a session that its writer and so many destinations take part in.
fn card_of(path: u8, seq: u32, readers: u8) -> u64
    requires { readers ≤ 8 }
    ensures { result ≡ card_of path seq (2 ^ (readers + 1) - 1) }
{
    (u64::from(seq) << 17) + (u64::from(path) << 9) + ((2 << readers) - 1)
}

impl SharedHub {
    /// As for a port.
    pub(crate) fn enter(
        &self,
        seat: &mut HubSeat,
        held: Held,
        path: PathNo,
        seq: u32,
        len: u32,
        readers: u8,
    ) -> Opened
        requires seat { IsSeatOf self.now seat.old }
        requires acts { (seat_part seat.old).writes path.0 ≡ true }
        requires held { Holds (seat_view seat.old) held }
        requires seq { length ((seat_view seat.old).sessions path.0) ≡ seq }
        requires len { 0 < len }
        requires readers { (0 < readers) × (readers ≤ 8) }
        ensures seat { IsSeatOf self.now seat.new }
        ensures view { seat_view seat.new ≡ grow (entered_of held path seq len readers) (seat_view seat.old) }
        ensures opened { result ≡ opened_new held path seq len readers }
        ensures home { (as_port seat.new).home ≡ (as_port seat.old).home }
        ensures means { (as_port seat.new).means ≡ (as_port seat.old).means }
        ensures floors { (as_port seat.new).floors ≡ (as_port seat.old).floors }
    {
        let Held { buf, cells, change } = held;
        let opening = Opening {
            path: path.0,
            seq,
            buf: buf.0,
            change,
            cells,
            len,
            readers,
        };
        let note = Note::Opens(opening);
        let shared = &self.table.shared;
        shared.compare_exchange_with::<Open>(&mut seat.seat, 0, 0, 0, &note);
        let at = self.layout.length(buf);
        shared.store::<Prepare>(&mut seat.seat, at, u64::from(len));
        let at = self.layout.card(buf);
        shared.store::<Enter>(&mut seat.seat, at, card_of(path.0, seq, readers));
        Opened {
            path,
            seq,
            buf,
            cells,
            len,
            put: 0,
            given: 0,
            told: 0,
            room: cells,
            readers,
        }
    }
}
