//! A tick of the bus.
ghost use Rattle.std.specs.Prelude.{◌≤◌, OnOk, length};
ghost use Rattle.bus_worker.specs.Hearing.{HearsBy, frames_of};
ghost use Rattle.bus_worker.specs.Tick.{WorksTick};

use crate::dated::Dated;
use crate::worker::Worker;
use gw_base::{Memory, Tick};
use hub_core::Port;

impl Worker {
    /// The work of a tick: the frames of the tick come, in the order of the log; each receiver is told that the tick is
    /// over, and then each sender takes its turn, in the order of the channels; then at most `budget` frames leave, by
    /// arbitration, and their machines are told, in the order in which they left. `Memory` where memory is wanting.
    ///
    /// Ticks rise from call to call, and are at most 10,000,000.
    pub fn tick<P: Port>(
        &mut self,
        frames: &[Dated],
        tick: Tick,
        port: &mut P,
    ) -> Result<(), Memory>
        requires budget { self.old.budget ≤ 64 }
        requires tick { tick.0 ≤ 10_000_000 }
        requires can { HearsBy tick.0 (length frames.now) self.old (P.state port.old) }
        ensures { OnOk result (WorksTick tick.0 (frames_of frames.now) self.old self.new (P.state port.old) (P.state port.new)) }
    {
        self.hear_all(frames, tick, port)?;
        self.time(tick, port)?;
        self.turn(tick, port)?;
        self.emit(tick, port)?;
        Ok(())
    }
}
