//! The priority of a frame.
ghost use Rattle.std.specs.Prelude.{◌≡◌};
ghost use Rattle.can_frame.specs.Priority.{IsPriority};

use crate::{CanId, Frame, Priority};

/// How many values the other 18 bits of an extended identifier have.
const REST: u32 = 1 << 18;

/// The frame's priority: the bits of its identifier.
pub fn priority(frame: &Frame) -> Priority
    ensures { IsPriority frame.now.id result }
{
    match frame.id() {
        CanId::Std(number) => Priority {
            base: number,
            ext: false,
            rest: 0,
        },
        CanId::Ext(number) => Priority {
            base: (number / REST) as u16,
            ext: true,
            rest: number % REST,
        },
    }
}
