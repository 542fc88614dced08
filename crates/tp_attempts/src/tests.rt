use crate::attempts;
use can_frame::{CanId, Frame, FrameFault};
use std::alloc::Global;
use std::test::Fail;

/// A classic frame of these bytes.
fn classic(bytes: &[u8]) -> Result<Frame, FrameFault> {
    Frame::new(CanId::Std(0x700), false, false, bytes)
}

#[test]
fn a_start_ends_the_attempt_before(rt: HostRuntime) -> Result<(), Fail> {
    let frames = [
        classic(&[0x10, 0x14, 0, 1, 2, 3, 4, 5])?,
        classic(&[0x03, 0xAA, 0xBB, 0xCC])?,
    ];
    let list = attempts(rt.alloc(), 0, false, &frames)?;
    assert_eq!(rt; list.items().len(), 2);
    let [first, second] = list.items() else {
        return Ok(());
    };
    assert_eq!(rt; (first.start, first.len, first.end), (0, 20, 0));
    assert_eq!(rt; first.bytes.items(), [0, 1, 2, 3, 4, 5].as_slice());
    assert_eq!(rt; (second.start, second.len, second.end), (1, 3, 1));
    assert_eq!(rt; second.bytes.items(), [0xAA, 0xBB, 0xCC].as_slice());
    Ok(())
}

#[test]
fn a_short_frame_is_passed_over_and_the_filling_dropped(rt: HostRuntime) -> Result<(), Fail> {
    let frames = [
        classic(&[0x55, 0x30, 0, 0])?,
        classic(&[0x55, 0x10, 0x0C, 0, 1, 2, 3, 4])?,
        classic(&[0x55, 0x22, 5, 6])?,
        classic(&[0x55, 0x21, 5, 6, 7, 8, 9, 10])?,
        classic(&[0x55, 0x22, 11, 0xCC, 0xCC, 0xCC, 0xCC, 0xCC])?,
        classic(&[0x55, 0x23, 12, 0xCC])?,
    ];
    let list = attempts(rt.alloc(), 1, false, &frames)?;
    assert_eq!(rt; list.items().len(), 1);
    let [only] = list.items() else {
        return Ok(());
    };
    assert_eq!(rt; (only.start, only.len, only.end), (1, 12, 4));
    assert_eq!(rt;
        only.bytes.items(),
        [0, 1, 2, 3, 4, 5, 6, 7, 8, 9, 10, 11].as_slice()
    );
    Ok(())
}

#[test]
fn a_wrong_number_ends_the_attempt(rt: HostRuntime) -> Result<(), Fail> {
    let frames = [
        classic(&[0x10, 0x14, 0, 1, 2, 3, 4, 5])?,
        classic(&[0x22, 6, 7, 8, 9, 10, 11, 12])?,
        classic(&[0x21, 6, 7, 8, 9, 10, 11, 12])?,
    ];
    let list = attempts(rt.alloc(), 0, false, &frames)?;
    assert_eq!(rt; list.items().len(), 1);
    let functional = attempts(rt.alloc(), 0, true, &frames)?;
    assert_eq!(rt; functional.items().len(), 0);
    let [only] = list.items() else {
        return Ok(());
    };
    assert_eq!(rt; only.bytes.items(), [0, 1, 2, 3, 4, 5].as_slice());
    Ok(())
}

/// The frames of three channels as one log has them: the identifier and the data. Two channels have one identifier and
/// two address bytes; the third is functional.
const INTERLEAVED: [(u16, &[u8]); 9] = [
    (0x700, &[0x51, 0x10, 0x0A, 0, 1, 2, 3, 4]),
    (0x700, &[0x52, 0x10, 0x09, 9, 8, 7, 6, 5]),
    (0x7DF, &[0x02, 0x3E, 0x00]),
    (0x700, &[0x52, 0x21, 4, 3, 2, 1]),
    (0x7DF, &[0x10, 0x0A, 0, 1, 2, 3, 4, 5]),
    (0x700, &[0x51, 0x21, 5, 6, 7, 8, 9, 0xCC]),
    (0x700, &[0x52, 0x01, 0xEE]),
    (0x7DF, &[0x21, 6, 7, 8, 9]),
    (0x700, &[0x51, 0x22, 0xFF]),
];

/// The frames of one channel of that log.
fn frames_of(alloc: Global, id: u16, address: Option<u8>) -> Result<Vec<Frame>, Fail> {
    let mut frames = Vec::new(alloc);
    for (other, bytes) in INTERLEAVED {
        if other == id && (address.is_none() || bytes.first().copied() == address) {
            frames.push(Frame::new(CanId::Std(id), false, false, bytes)?)?;
        }
    }
    Ok(frames)
}

#[test]
fn two_channels_of_one_identifier_have_their_own_attempts(rt: HostRuntime) -> Result<(), Fail> {
    let one = frames_of(rt.alloc(), 0x700, Some(0x51))?;
    assert_eq!(rt; one.len(), 3);
    let list = attempts(rt.alloc(), 1, false, one.as_slice())?;
    let [only] = list.items() else {
        return Err(Fail::from("one attempt"));
    };
    assert_eq!(rt; (only.start, only.len, only.end), (0, 10, 1));
    assert_eq!(rt;
        only.bytes.items(),
        [0, 1, 2, 3, 4, 5, 6, 7, 8, 9].as_slice()
    );

    let other = frames_of(rt.alloc(), 0x700, Some(0x52))?;
    assert_eq!(rt; other.len(), 3);
    let list = attempts(rt.alloc(), 1, false, other.as_slice())?;
    let [first, second] = list.items() else {
        return Err(Fail::from("two attempts"));
    };
    assert_eq!(rt; first.bytes.items(), [9, 8, 7, 6, 5, 4, 3, 2, 1].as_slice());
    assert_eq!(rt; second.bytes.items(), [0xEE].as_slice());
    Ok(())
}

#[test]
fn a_functional_start_interrupts_no_other_message(rt: HostRuntime) -> Result<(), Fail> {
    let functional = frames_of(rt.alloc(), 0x7DF, None)?;
    assert_eq!(rt; functional.len(), 3);
    let list = attempts(rt.alloc(), 0, true, functional.as_slice())?;
    let [only] = list.items() else {
        return Err(Fail::from("one attempt"));
    };
    assert_eq!(rt; (only.start, only.len, only.end), (0, 2, 0));
    assert_eq!(rt; only.bytes.items(), [0x3E, 0x00].as_slice());
    Ok(())
}
