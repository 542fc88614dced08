//! A machine's box, which holds the one frame that waits to leave.
ghost use Rattle.std.specs.Prelude.{◌≡◌, OnOk};
ghost use Rattle.tp_unit.specs.Box.{box_then};
ghost use Rattle.tp_unit.specs.Shape.{IsShape};
ghost use Rattle.tp_unit.specs.Unit.{box_meaning_of};
ghost use Rattle.gw_run.specs.Standing.{FitsIn, lying};
ghost use Rattle.gw_run.specs.Leaving.{Leaves};

use crate::played::Sent;
use gw_base::{ListOf, Memory, Tick};
use tp_unit::{BoxAct, Shape, Unit, write_unit};

/// Does with the box what a machine's step says.
pub(crate) fn put(lies: &mut Option<Unit>, act: BoxAct)
    ensures { lying lies.new ≡ box_then (box_meaning_of act) (lying lies.old) }
{
    match act {
        BoxAct::Keep => {}
        BoxAct::Offer(unit) => *lies = Some(unit),
        BoxAct::Revoke => *lies = None,
    }
}

/// What lies in the box leaves, written in the channel's shape.
pub(crate) fn leave(
    lies: &mut Option<Unit>,
    shape: &Shape,
    tick: Tick,
    sent: &mut ListOf<Sent>,
) -> Result<(), Memory>
    requires shape { IsShape shape.now }
    requires fits { FitsIn shape.now (lying lies.old) }
    ensures { OnOk result (Leaves shape.now tick.0 (lying lies.old) (lying lies.new) sent.old sent.new) }
{
    let Some(unit) = lies.take() else {
        return Ok(());
    };
    let frame = write_unit(shape, &unit);
    sent.push(Sent { tick, frame })?;
    Ok(())
}
