//! The frames that leave the bus in a tick, and who is told of them.
ghost use Rattle.std.specs.Prelude.{◌≡◌, ◌≤◌, OnOk};
ghost use Rattle.bus_worker.specs.Emission.{AllLeaveAfter, AwaitsLeft, EmitsAfter, LeavesAfter, LeftBox, NotedAfter};
ghost use Rattle.bus_worker.specs.Phases.{RestsBy};

use crate::sent::Sent;
use crate::worker::Worker;
use arrayvec::ArrayVec;
use can_frame::Frame;
use gw_base::{Memory, Tick};
use hub_core::Port;
use tp_receiver::RxEvent;
use tp_sender::TxEvent;

/// The same frame once more.
fn copy_of(frame: &Frame) -> Frame
    ensures { result ≡ frame.now }
{
    let Ok(copy) = Frame::new(frame.id(), frame.fd(), frame.brs(), frame.bytes()) else {
        unreachable!();
    };
    copy
}

impl Worker {
    /// At most `budget` frames leave, by arbitration, and each one's machine is told, in the order in which they left.
    pub(crate) fn emit<P: Port>(&mut self, tick: Tick, port: &mut P) -> Result<(), Memory>
        requires budget { self.old.budget ≤ 64 }
        requires tick { tick.0 ≤ 10_000_000 }
        requires rests { RestsBy tick.0 self.old (P.state port.old) }
        ensures { OnOk result (EmitsAfter tick.0 self.old self.new (P.state port.old) (P.state port.new)) }
    {
        if self.boxes.is_empty() {
            return Ok(());
        }
        let mut left = ArrayVec::new();
        self.boxes.emit(self.budget, &mut left);
        self.leave_all(left.as_slice(), tick, port)?;
        Ok(())
    }

    /// These frames left their boxes: each one's machine is told, in this order, and the frame is noted.
    fn leave_all<P: Port>(
        &mut self,
        left: &[(u8, Frame)],
        tick: Tick,
        port: &mut P,
    ) -> Result<(), Memory>
        requires tick { tick.0 ≤ 10_000_000 }
        requires left { AwaitsLeft tick.0 left.now self.old (P.state port.old) }
        ensures { OnOk result (AllLeaveAfter tick.0 left.now self.old self.new (P.state port.old) (P.state port.new)) }
    {
        for entry in left {
            self.leave_one(entry, tick, port)?;
        }
        Ok(())
    }

    /// A frame left its box: its machine is told, and it is noted.
    fn leave_one<P: Port>(
        &mut self,
        entry: &(u8, Frame),
        tick: Tick,
        port: &mut P,
    ) -> Result<(), Memory>
        requires tick { tick.0 ≤ 10_000_000 }
        requires left { LeftBox tick.0 entry.now.0 self.old (P.state port.old) }
        ensures { OnOk result (NotedAfter tick.0 entry.now self.old self.new (P.state port.old) (P.state port.new)) }
    {
        self.leave(entry.0, tick, port)?;
        self.sent.push(Sent {
            tick,
            frame: copy_of(&entry.1),
        })?;
        Ok(())
    }

    /// A frame left the box of that number: its machine is told.
    fn leave<P: Port>(&mut self, number: u8, tick: Tick, port: &mut P) -> Result<(), Memory>
        requires tick { tick.0 ≤ 10_000_000 }
        requires left { LeftBox tick.0 number self.old (P.state port.old) }
        ensures { OnOk result (LeavesAfter tick.0 number self.old self.new (P.state port.old) (P.state port.new)) }
    {
        let place = usize::from(number / 2);
        if number % 2 == 0 {
            self.tell_receiver(place, RxEvent::FcLeft, tick, port)?;
        } else {
            self.tell_sender(place, TxEvent::Left, tick, port)?;
        }
        Ok(())
    }
}
