//! Which block a receiver grants, by the room of its buffer.
ghost use Rattle.std.specs.Prelude.{◌≡◌, ◌<◌};
ghost use Rattle.flow_plan.specs.Grant.{granted, with_room};

use crate::Grant;

/// What is granted, where `room` cells may be put, a full consecutive frame has `per_cf` cells, and `left_cells` cells of
/// `left_frames` frames remain. `bs` is the configured block size; 0 sets no limit (this project's own; the block size is that
/// of ISO 15765-2, flow control).
///
/// As many frames have room as all that remain, where these fit, and else as full frames fit. `All` is granted where all have
/// room and there is no limit, `Wait` where none has, and else a block, of 255 frames at most.
pub fn grant(bs: u8, room: u32, per_cf: u32, left_cells: u64, left_frames: u32) -> Grant
    requires some { 0 < per_cf }
    ensures { result ≡ granted bs room per_cf left_cells left_frames }
{
    let frames = frames_with_room(room, per_cf, left_cells, left_frames);
    if bs == 0 && frames == left_frames {
        return Grant::All;
    }
    if frames == 0 {
        return Grant::Wait;
    }
    let most = if bs == 0 { u8::MAX } else { bs };
    Grant::Block(u8::try_from(frames).unwrap_or(u8::MAX).min(most))
}

/// How many of the next frames have room.
fn frames_with_room(room: u32, per_cf: u32, left_cells: u64, left_frames: u32) -> u32
    requires some { 0 < per_cf }
    ensures { result ≡ with_room room per_cf left_cells left_frames }
{
    if left_cells <= u64::from(room) {
        left_frames
    } else {
        room / per_cf
    }
}

#[cfg(test)]
mod tests {
    use super::*;

    /// Block size, cells of room, of a full consecutive frame and of all that remain, frames that remain, and the grant. The first
    /// five are of messages of 63 and 20 bytes through a buffer of four cells.
    const GRANTS: [(u8, u32, u32, u64, u32, Grant); 13] = [
        (0, 3, 1, 9, 9, Grant::Block(3)),
        (0, 3, 1, 3, 3, Grant::All),
        (0, 1, 1, 6, 6, Grant::Block(1)),
        (0, 0, 1, 5, 5, Grant::Wait),
        (0, 3, 1, 2, 2, Grant::All),
        (8, 3, 1, 9, 9, Grant::Block(3)),
        (2, 3, 1, 9, 9, Grant::Block(2)),
        (2, 3, 1, 2, 2, Grant::Block(2)),
        (0, 8, 9, 577, 65, Grant::Wait),
        (0, 9, 9, 577, 65, Grant::Block(1)),
        (0, 1, 9, 1, 1, Grant::All),
        (0, 8192, 1, 9000, 9000, Grant::Block(255)),
        (255, 8192, 1, 8000, 8000, Grant::Block(255)),
    ];

    #[test]
    fn what_has_room_is_granted(rt: HostRuntime) {
        for (bs, room, per_cf, left_cells, left_frames, granted) in GRANTS {
            assert!(rt; per_cf > 0);
            assert_eq!(rt; grant(bs, room, per_cf, left_cells, left_frames), granted);
        }
    }
}
