//! The ticks of a window.
ghost use Rattle.std.specs.Prelude.{◌≡◌, ◌+◌, ◌≤◌, ℕ, List, IfOk, length, take_while};
ghost use Rattle.bus_worker.specs.Hearing.{HearsBy};
ghost use Rattle.bus_worker.specs.Window.{NeverFall, WorksWindow, is_in};

use crate::dated::Dated;
use crate::worker::Worker;
use gw_base::{Memory, Tick};
use hub_core::Port;

/// How many of the frames, from the first one on, are of that tick.
fn count_in(frames: &[Dated], tick: Tick) -> usize
    ensures { result ≡ length (take_while (is_in tick.0) frames.now) }
{
    frames.iter().take_while(|dated| dated.is_in(tick)).count()
}

impl Worker {
    /// The work of the ticks from `from` to below `to`, one after another, in which the frames of these ticks come. The
    /// answer is how many frames came: the first ones, up to those of `to` or later ticks. `Memory` where memory is wanting.
    ///
    /// The frames stand in the order of the log, and none is of a tick below `from`; ticks are at most 10,000,000.
    pub fn window<P: Port>(
        &mut self,
        from: Tick,
        to: Tick,
        frames: &[Dated],
        port: &mut P,
    ) -> Result<usize, Memory>
        requires budget { self.old.budget ≤ 64 }
        requires ticks { (from.0 ≤ to.0) × (to.0 ≤ 10_000_001) }
        requires frames { NeverFall from.0 frames.now }
        requires can { HearsBy from.0 (length frames.now) self.old (P.state port.old) }
        ensures { IfOk result (λ came. WorksWindow from.0 to.0 frames.now came self.old self.new (P.state port.old) (P.state port.new)) }
    {
        let mut came = 0;
        for tick in from.0..to.0 {
            came += self.next_tick(&frames[came..], Tick(tick), port)?;
        }
        Ok(came)
    }

    /// The work of one tick, in which the first of the frames come, as many as are of it. The answer is how many.
    fn next_tick<P: Port>(
        &mut self,
        frames: &[Dated],
        tick: Tick,
        port: &mut P,
    ) -> Result<usize, Memory>
        requires budget { self.old.budget ≤ 64 }
        requires tick { tick.0 ≤ 10_000_000 }
        requires frames { NeverFall tick.0 frames.now }
        requires can { HearsBy tick.0 (length frames.now) self.old (P.state port.old) }
        ensures { IfOk result (λ came. WorksWindow tick.0 (tick.0 + 1) frames.now came self.old self.new (P.state port.old) (P.state port.new)) }
    {
        let count = count_in(frames, tick);
        self.tick(&frames[..count], tick, port)?;
        Ok(count)
    }
}
