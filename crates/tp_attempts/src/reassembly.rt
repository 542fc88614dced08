ghost use Rattle.std.specs.Prelude.{◌≡◌, ◌<◌, ◌≤◌, ◌^◌, length, IfOk};
ghost use Rattle.tp_attempts.specs.Attempts.{attempts_of};

use crate::AttemptList;
use crate::cutting::Cutting;
use can_frame::Frame;
use gw_base::Memory;
use std::alloc::Global;

/// The attempts to send a message in these frames, which are those of one identifier and address, in order
/// (ISO 15765-2, segmentation and reassembly). `a` is the number of address bytes, 0 or 1.
///
/// Each single frame and, unless the channel is functional, each first frame starts one. A consecutive frame is
/// counted while the message isn't whole, and ends the attempt where its sequence number isn't the due one. It is passed
/// over where its frame is longer than the start's or carries less than what is due, which is this project's own choice.
pub fn attempts(
    alloc: Global,
    a: u8,
    functional: bool,
    frames: &[Frame],
) -> Result<AttemptList, Memory>
    requires address { a ≤ 1 }
    requires few { length frames.now < 2 ^ 32 }
    ensures { IfOk result (λ list. list ≡ attempts_of a functional frames.now) }
{
    let mut cutting = Cutting::new(alloc);
    for (place, frame) in frames.iter().enumerate() {
        cutting.add(alloc, a, functional, place as u32, frame)?;
    }
    cutting.finish()
}
