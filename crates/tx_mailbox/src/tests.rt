ghost use Rattle.std.specs.Prelude.{◌<◌, ◌≤◌};

use crate::Boxes;
use arrayvec::ArrayVec;
use can_frame::{CanId, Frame};
use std::test::Fail;

/// Identifiers of two bases, both formats, and two values of the other 18 bits, in the order in which they win
/// arbitration.
const IDS: [CanId; 6] = [
    CanId::Std(0x100),
    CanId::Ext(0x0400_0000),
    CanId::Ext(0x0400_0001),
    CanId::Std(0x101),
    CanId::Ext(0x0404_0000),
    CanId::Ext(0x0404_0001),
];

/// The boxes of three frames.
const NUMBERS: [u8; 3] = [0, 7, 175];

/// The orders in which the frames are offered.
const ORDERS: [[usize; 3]; 6] = [
    [0, 1, 2],
    [0, 2, 1],
    [1, 0, 2],
    [1, 2, 0],
    [2, 0, 1],
    [2, 1, 0],
];

/// Offers a frame without data.
fn offer_to(boxes: &mut Boxes, number: u8, id: CanId) -> Option<()> {
    if number > 175 {
        return None;
    }
    let frame = Frame::new(id, false, false, &[]).ok()?;
    boxes.offer(number, frame);
    Some(())
}

/// How many of the three frames leave before one of them, by the places of their identifiers in the list above.
fn frames_before(ids: [usize; 3], at: usize) -> usize
    requires { at < 3 }
{
    let mut count: usize = 0;
    for other in 0..3 {
        if ids[other] < ids[at] || ids[other] == ids[at] && other < at {
            count = count.saturating_add(1);
        }
    }
    count
}

/// Whether the frames of these identifiers, offered in this order, leave and stay as they should.
fn leave_in_turn(ids: [usize; 3], order: [usize; 3], budget: u8) -> Option<bool>
    requires { budget ≤ 64 }
{
    let mut boxes = Boxes::new();
    for at in order {
        offer_to(&mut boxes, *NUMBERS.get(at)?, *IDS.get(*ids.get(at)?)?)?;
    }
    let mut out = ArrayVec::new();
    boxes.emit(budget, &mut out);
    for at in 0..3 {
        let place = frames_before(ids, at);
        let left = out.as_slice().get(place).map(|entry| entry.0);
        let stays = place >= usize::from(budget);
        let wanted = if stays { None } else { Some(NUMBERS[at]) };
        if left != wanted || boxes.revoke(NUMBERS[at]) != stays {
            return Some(false);
        }
    }
    Some(boxes.is_empty())
}

#[test]
fn three_frames_leave_by_priority_and_box(rt: HostRuntime) -> Result<(), Fail> {
    for order in ORDERS {
        for first in 0..IDS.len() {
            for second in 0..IDS.len() {
                for third in 0..IDS.len() {
                    let ids = [first, second, third];
                    for budget in 0..4 {
                        assert_eq!(rt;
                            leave_in_turn(ids, order, budget),
                            Some(true),
                            "{ids:?} {order:?} {budget}"
                        );
                    }
                }
            }
        }
    }
    Ok(())
}

#[test]
fn a_box_has_one_frame(rt: HostRuntime) -> Result<(), Fail> {
    let mut boxes = Boxes::new();
    assert!(rt; boxes.is_empty());
    assert_eq!(rt; offer_to(&mut boxes, 5, CanId::Std(0x200)), Some(()));
    assert_eq!(rt; offer_to(&mut boxes, 5, CanId::Std(0x201)), Some(()));
    let mut out = ArrayVec::new();
    boxes.emit(64, &mut out);
    assert_eq!(rt; out.len(), 1);
    let id = out.as_slice().get(0).map(|entry| entry.1.id());
    assert_eq!(rt; id, Some(CanId::Std(0x201)));
    assert!(rt; !boxes.revoke(5));
    Ok(())
}
