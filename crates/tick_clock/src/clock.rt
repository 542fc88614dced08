ghost use Rattle.std.specs.Prelude.{◌≡◌, ◌*◌, ◌^◌, ◌<◌, ◌≤◌};
ghost use Rattle.tick_clock.specs.Ticks.{tick_at, stamp_after, LiesIn};

use gw_base::{Micros, Tick};

/// A run's clock: where its first tick begins, and how long a tick lasts.
#[derive(Clone, Copy, Debug, PartialEq, Eq)]
pub struct Clock {
    /// The least stamp of all listed frames of all logs, in microseconds; 0 where there is no frame.
    pub start: Micros,
    /// How long a tick lasts, in microseconds; not 0.
    pub period: u32,
    ghost ticking: { 0 < period },
}

impl Clock {
    /// The tick that the stamp lies in; tick 0 also has every stamp before `start`.
    pub fn tick_of(&self, at: Micros) -> Tick
        ensures tick { result.0 ≡ tick_at self.now.start.0 self.now.period at.0 }
        ensures early { at.0 < self.now.start.0 → result.0 ≡ 0 }
        ensures within { self.now.start.0 ≤ at.0 → LiesIn self.now.start.0 self.now.period at.0 result.0 }
    {
        Tick(at.0.saturating_sub(self.start.0) / u64::from(self.period))
    }

    /// The stamp, in microseconds, of what is sent in the tick: the moment at which the tick is over.
    pub fn stamp_of(&self, tick: Tick) -> Micros
        requires run { tick.0 ≤ 10_000_000 }
        requires date { self.now.start.0 < 5 * 10 ^ 15 }
        ensures { result.0 ≡ stamp_after self.now.start.0 self.now.period tick.0 }
    {
        let period = self.period;
        Micros(self.start.0 + (tick.0 + 1) * u64::from(period))
    }
}

#[cfg(test)]
mod tests {
    use super::*;

    /// A tick of one millisecond from one second on.
    const CLOCK: Clock = Clock {
        start: Micros(1_000_000),
        period: 1000,
    };

    /// Stamps, each with its tick.
    const TICKS: [(Micros, Tick); 6] = [
        (Micros(0), Tick(0)),
        (Micros(999_999), Tick(0)),
        (Micros(1_000_000), Tick(0)),
        (Micros(1_000_999), Tick(0)),
        (Micros(1_001_000), Tick(1)),
        (Micros(4_000_000), Tick(3000)),
    ];

    /// Ticks, each with the stamp of what is sent in it.
    const STAMPS: [(Tick, Micros); 3] = [
        (Tick(0), Micros(1_001_000)),
        (Tick(1), Micros(1_002_000)),
        (Tick(3000), Micros(4_001_000)),
    ];

    #[test]
    fn stamps_have_ticks(rt: HostRuntime) {
        for (at, tick) in TICKS {
            assert_eq!(rt; CLOCK.tick_of(at), tick);
        }
    }

    #[test]
    fn ticks_have_stamps(rt: HostRuntime) {
        for (tick, at) in STAMPS {
            assert!(rt; tick.0 <= 10_000_000);
            assert_eq!(rt; CLOCK.stamp_of(tick), at);
        }
    }
}
