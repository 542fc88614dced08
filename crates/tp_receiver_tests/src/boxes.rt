//! A wrong number within a block, and flow controls that lie in their box as another start comes, or for too long.
use crate::tests::{
    Boxed, CONTINUE, FIRST, LAST, NEXT, OVERFLOW, Row, SINGLE, Told, first_ended, play, play_boxed,
    refused, silent,
};
use hub_core::{SessionRecord, SessionResult};
use std::test::Fail;

/// A first frame of 30 bytes, its first two consecutive frames, and one with the number 4.
const FIRST_OF_30: [u8; 8] = [0x10, 30, 0, 1, 2, 3, 4, 5];

const FOURTH: [u8; 8] = [0x24, 0x14, 0x15, 0x16, 0x17, 0x18, 0x19, 0x1A];

/// The flow control of a block of three frames.
const THREE: Boxed = Boxed::Offer {
    fs: 0,
    bs: 3,
    st: 0,
};

#[test]
fn a_number_is_left_out_within_a_block(rt: HostRuntime) -> Result<(), Fail> {
    let wrong = SessionRecord {
        len: 30,
        ..first_ended(20, 4, SessionResult::WrongSn { want: 3, got: 4 })
    };
    let rows = [
        silent(0, Told::Frame(&FIRST_OF_30), THREE),
        silent(0, Told::Left, Boxed::Keep),
        silent(2, Told::Frame(&NEXT), Boxed::Keep),
        silent(3, Told::Frame(&LAST), Boxed::Keep),
        Row {
            tick: 4,
            told: Told::Frame(&FOURTH),
            fc: Boxed::Keep,
            records: [Some(wrong), None],
        },
    ];
    play(&rt, rt.alloc(), &rows)
}

#[test]
fn a_flow_control_in_its_box_goes_with_its_reception(rt: HostRuntime) -> Result<(), Fail> {
    let restarted = first_ended(6, 2, SessionResult::Restarted);
    // a single frame comes: the flow control is revoked
    play(
        &rt,
        rt.alloc(),
        &[
            silent(0, Told::Frame(&FIRST), CONTINUE),
            silent(1, Told::Timer, Boxed::Keep),
            Row {
                tick: 2,
                told: Told::Frame(&SINGLE),
                fc: Boxed::Revoke,
                records: [Some(restarted), Some(refused(1, 3, 2))],
            },
            silent(2, Told::Timer, Boxed::Keep),
        ],
    )?;
    // a first frame comes: its refusal takes the place, and isn't revoked by a single frame
    play_boxed(
        &rt,
        rt.alloc(),
        &[
            silent(0, Told::Frame(&FIRST), CONTINUE),
            Row {
                tick: 2,
                told: Told::Frame(&FIRST),
                fc: OVERFLOW,
                records: [Some(restarted), Some(refused(1, 20, 2))],
            },
            Row {
                tick: 3,
                told: Told::Frame(&SINGLE),
                fc: Boxed::Keep,
                records: [Some(refused(2, 3, 3)), None],
            },
            silent(6, Told::Timer, Boxed::Keep),
            silent(7, Told::Timer, Boxed::Revoke),
            silent(8, Told::Timer, Boxed::Keep),
        ],
    )
}

#[test]
fn a_refusal_lies_in_its_box_for_its_limit(rt: HostRuntime) -> Result<(), Fail> {
    let restarted = first_ended(6, 1, SessionResult::Restarted);
    let second = Row {
        tick: 1,
        told: Told::Frame(&FIRST),
        fc: OVERFLOW,
        records: [Some(restarted), Some(refused(1, 20, 1))],
    };
    // it leaves one tick before, and nothing is revoked
    play_boxed(
        &rt,
        rt.alloc(),
        &[
            silent(0, Told::Frame(&FIRST), CONTINUE),
            second,
            silent(5, Told::Timer, Boxed::Keep),
            silent(5, Told::Left, Boxed::Keep),
            silent(6, Told::Timer, Boxed::Keep),
            silent(7, Told::Timer, Boxed::Keep),
        ],
    )?;
    // a further refusal takes its place, and its limit begins anew
    play_boxed(
        &rt,
        rt.alloc(),
        &[
            silent(0, Told::Frame(&FIRST), CONTINUE),
            second,
            Row {
                tick: 4,
                told: Told::Frame(&FIRST),
                fc: OVERFLOW,
                records: [Some(refused(2, 20, 4)), None],
            },
            silent(6, Told::Timer, Boxed::Keep),
            silent(8, Told::Timer, Boxed::Keep),
            silent(9, Told::Timer, Boxed::Revoke),
        ],
    )
}
