//! The lines of the frames that a bus sends.
ghost use Rattle.std.specs.Prelude.{◌≡◌, ◌<◌, ◌≤◌, ◌++◌, All, OnOk, IfOk};
ghost use Rattle.candump_line.specs.Line.{IsInterface};
ghost use Rattle.gw_run.specs.Output.{IsOneLine, line_of, output_text};

use crate::played::Sent;
use candump_line::write_line;
use gw_base::{Bytes, Memory};
use std::alloc::Global;
use tick_clock::Clock;

/// Appends the line of a frame.
fn push_line(clock: &Clock, interface: &[u8], sent: &Sent, text: &mut Bytes) -> Result<(), Memory>
    requires period { clock.now.period ≤ 1_000_000 }
    requires date { clock.now.start.0 < 4_294_967_296_000_000 }
    requires tick { sent.now.tick ≤ 10_000_000 }
    requires name { IsInterface interface.now }
    ensures line { OnOk result (text.new ≡ text.old ++ line_of clock.now.start.0 clock.now.period interface.now sent.now) }
    ensures one_line { IsOneLine clock.now.start.0 clock.now.period interface.now sent.now }
{
    let at = clock.stamp_of(sent.tick);
    write_line(at, interface, &sent.frame, text)
}

/// The lines of all frames that a bus sent, as its output has them.
pub(crate) fn output_text(
    alloc: Global,
    clock: &Clock,
    interface: &[u8],
    frames: &[Sent],
) -> Result<Bytes, Memory>
    requires period { clock.now.period ≤ 1_000_000 }
    requires date { clock.now.start.0 < 4_294_967_296_000_000 }
    requires ticks { All (λ sent. sent.tick ≤ 10_000_000) frames.now }
    requires name { IsInterface interface.now }
    ensures lines { IfOk result (λ _. All (IsOneLine clock.now.start.0 clock.now.period interface.now) frames.now) }
    ensures text { IfOk result (λ text. text ≡ output_text clock.now.start.0 clock.now.period interface.now frames.now) }
{
    let mut text = Bytes::new(alloc);
    for sent in frames {
        push_line(clock, interface, sent, &mut text)?;
    }
    Ok(text)
}
