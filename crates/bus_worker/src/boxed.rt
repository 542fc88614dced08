//! What a machine's step does with its box among those of the bus.
ghost use Rattle.std.specs.Prelude.{◌<◌};
ghost use Rattle.tp_unit.specs.Shape.{IsShape};
ghost use Rattle.tp_unit.specs.Unit.{box_meaning_of};
ghost use Rattle.bus_worker.specs.Boxed.{FitsAct, SetsBox};

use tp_unit::{BoxAct, Shape, write_unit};
use tx_mailbox::Boxes;

/// Does with the box of that number what a machine's step says; what is offered is written in the channel's shape.
pub(crate) fn put(boxes: &mut Boxes, number: u8, shape: &Shape, act: BoxAct)
    requires number { number < 176 }
    requires shape { IsShape shape.now }
    requires fits { FitsAct shape.now (box_meaning_of act) }
    ensures { SetsBox shape.now number (box_meaning_of act) boxes.old boxes.new }
{
    match act {
        BoxAct::Keep => {}
        BoxAct::Offer(unit) => boxes.offer(number, write_unit(shape, &unit)),
        BoxAct::Revoke => {
            boxes.revoke(number);
        }
    }
}
