ghost use Rattle.std.specs.Prelude.{◌+◌, ◌≤◌, ◌↔◌, IsTrue};

use gw_base::Tick;

/// A timer that was started in a tick and runs for a number of ticks.
#[derive(Clone, Copy, Debug, PartialEq, Eq)]
pub struct Timer {
    /// The tick in which it was started.
    pub since: Tick,
    /// How many ticks it runs.
    pub limit: u64,
}

impl Timer {
    /// Whether the timer has run for `limit` ticks or more.
    pub fn due(&self, now: Tick) -> bool
        requires { self.now.since.0 ≤ now.0 }
        ensures { IsTrue result ↔ (self.now.since.0 + self.now.limit ≤ now.0) }
    {
        now.0 - self.since.0 >= self.limit
    }
}

#[cfg(test)]
mod tests {
    use super::*;

    #[test]
    fn is_due_from_its_limit_on(rt: HostRuntime) {
        let timer = Timer {
            since: Tick(7),
            limit: 3,
        };
        assert_eq!(rt; timer.due(Tick(7)), false);
        assert_eq!(rt; timer.due(Tick(9)), false);
        assert_eq!(rt; timer.due(Tick(10)), true);
        assert_eq!(rt; timer.due(Tick(u64::MAX)), true);
    }
}
