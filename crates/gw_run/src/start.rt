//! When a run begins, and the last tick of a log: the least and the greatest stamp.
ghost use Rattle.std.specs.Prelude.{◌≡◌, ◌++◌, ◌<◌, ◌*◌, ◌^◌, [], IfSome, MatchOption};
ghost use Rattle.candump_log.specs.Dated.{AreDated};
ghost use Rattle.gw_run.specs.Frames.{greatest_tick};
ghost use Rattle.gw_run.specs.Start.{IsLeast, IsStart, stamps_of};

use candump_log::Stamped;
use gw_base::{Micros, Tick};
use tick_clock::Clock;

/// The least stamp of a log's frames, in microseconds.
fn least_stamp(frames: &[Stamped]) -> Option<u64>
    ensures { MatchOption result (stamps_of frames.now ≡ []) (IsLeast (stamps_of frames.now)) }
{
    frames.iter().map(|stamped| stamped.at.0).min()
}

/// The same of a log whose stamps are below 2^32 seconds, and so is that one.
fn dated_least(frames: &[Stamped]) -> Option<u64>
    requires { AreDated frames.now }
    ensures least { MatchOption result (stamps_of frames.now ≡ []) (IsLeast (stamps_of frames.now)) }
    ensures dated { IfSome result (λ least. least < 2 ^ 32 * 10 ^ 6) }
{
    least_stamp(frames)
}

/// The least stamp of both logs' frames, and 0 where there is no frame.
pub(crate) fn start_of(source: &[Stamped], destination: &[Stamped]) -> Micros
    requires source { AreDated source.now }
    requires destination { AreDated destination.now }
    ensures start { IsStart (stamps_of source.now ++ stamps_of destination.now) result.0 }
    ensures dated { result.0 < 2 ^ 32 * 10 ^ 6 }
{
    match (dated_least(source), dated_least(destination)) {
        (None, None) => Micros(0),
        (Some(least), None) => Micros(least),
        (None, Some(least)) => Micros(least),
        (Some(one), Some(other)) => Micros(one.min(other)),
    }
}

/// The greatest tick of a log's frames, 0 without one.
pub(crate) fn greatest_tick(clock: &Clock, frames: &[Stamped]) -> Tick
    requires { AreDated frames.now }
    ensures tick { result.0 ≡ greatest_tick clock.now.start.0 clock.now.period frames.now }
    ensures dated { result.0 < 2 ^ 32 * 10 ^ 6 }
{
    let mut top = 0u64;
    for stamped in frames {
        top = top.max(clock.tick_of(stamped.at).0);
    }
    Tick(top)
}
