//! The frames of a log that are still to come, each with its tick.
ghost use Rattle.std.specs.Prelude.{◌≡◌, MatchOption, option_map};
ghost use Rattle.gw_run.specs.Feed.{ComeAfter, TakesFirst, first_tick};
ghost use Rattle.gw_run.specs.Frames.{in_ticks};

use can_frame::Frame;
use candump_log::Stamped;
use gw_base::Tick;
use std::marker::Model;
use tick_clock::Clock;

/// The frames of a log that are still to come. Contracts see them with their ticks, which never fall.
#[derive(Drop)]
pub(crate) struct Feed<'a> {
    rest: &'a [Stamped],
    clock: Clock,
    /// The tick of the frame before them, 0 at first.
    before: u64,
}

impl<'a> Model for Feed<'a> {
    ghost use Rattle.std.specs.Prelude.{List};
    ghost use Rattle.gw_law.specs.Channels.{InTick};
    ghost use Rattle.gw_run.specs.Frames.{in_ticks_from};

    ghost Value = { List InTick };

    ghost view = { λ feed. in_ticks_from feed.clock.start.0 feed.clock.period feed.before feed.rest.now };
}

impl<'a> Feed<'a> {
    /// All frames of the log.
    pub(crate) fn new(frames: &'a [Stamped], clock: &Clock) -> Feed<'a>
        ensures { result ≡ in_ticks clock.now.start.0 clock.now.period frames.now }
    {
        Feed {
            rest: frames,
            clock: *clock,
            before: 0,
        }
    }

    /// The tick of the next frame.
    pub(crate) fn next_tick(&self) -> Option<Tick>
        ensures { option_map (λ tick. tick.0) result ≡ first_tick self.now }
    {
        match self.rest {
            [] => None,
            [next, ..] => Some(Tick(self.before.max(self.clock.tick_of(next.at).0))),
        }
    }

    /// The next frame, where it comes by the tick.
    pub(crate) fn take_by(&mut self, tick: Tick) -> Option<&'a Frame>
        ensures { MatchOption result ((self.new ≡ self.old) × ComeAfter tick.0 self.old) (λ frame. TakesFirst tick.0 self.old self.new frame.now) }
    {
        let [next, later @ ..] = self.rest else {
            return None;
        };
        let at = self.before.max(self.clock.tick_of(next.at).0);
        if at > tick.0 {
            return None;
        }
        self.before = at;
        self.rest = later;
        Some(&next.frame)
    }
}
