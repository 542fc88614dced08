ghost use Rattle.tp_unit.specs.Shape.{IsShape};

use crate::{Part, Shape, Unit, Why, cf_part, read_unit, start_part, unit_fits, write_unit};
use arrayvec::ArrayVec;
use can_frame::{CanId, Frame};
use std::test::Fail;

/// Address bytes and the bytes of a frame; the kind of its unit, the unit's number (a length, a sequence number, or
/// the three numbers of a flow control behind one another) and its bytes.
const READINGS: [(u8, &[u8], &str, u32, &[u8]); 35] = [
    (0, &[], "short", 0, &[]),
    (1, &[0x55], "short", 0, &[]),
    (0, &[0x00], "length", 0, &[]),
    (0, &[0x01], "length", 0, &[]),
    (0, &[0x01, 0xAA], "single", 0, &[0xAA]),
    (
        0,
        &[0x07, 1, 2, 3, 4, 5, 6, 7],
        "single",
        0,
        &[1, 2, 3, 4, 5, 6, 7],
    ),
    (0, &[0x08, 1, 2, 3, 4, 5, 6, 7], "length", 0, &[]),
    (1, &[0x55, 0x03, 0x11, 0x22], "length", 0, &[]),
    (1, &[0x55, 0x02, 0x11, 0x22], "single", 0, &[0x11, 0x22]),
    (1, &[0x55, 0x07, 1, 2, 3, 4, 5, 6], "length", 0, &[]),
    (
        0,
        &[0x00, 0x08, 1, 2, 3, 4, 5, 6, 7, 8, 0xCC, 0xCC],
        "single",
        0,
        &[1, 2, 3, 4, 5, 6, 7, 8],
    ),
    (
        0,
        &[0x00, 0x07, 1, 2, 3, 4, 5, 6, 7, 8, 9, 10],
        "length",
        0,
        &[],
    ),
    (
        0,
        &[0x00, 0x0B, 1, 2, 3, 4, 5, 6, 7, 8, 9, 10],
        "length",
        0,
        &[],
    ),
    (
        0,
        &[0x01, 0x08, 1, 2, 3, 4, 5, 6, 7, 8, 9, 10],
        "length",
        0,
        &[],
    ),
    (
        0,
        &[0x10, 0x14, 0, 1, 2, 3, 4, 5],
        "first",
        20,
        &[0, 1, 2, 3, 4, 5],
    ),
    (0, &[0x10, 0x14, 0, 1, 2, 3, 4], "length", 0, &[]),
    (
        0,
        &[0x10, 0x08, 1, 2, 3, 4, 5, 6],
        "first",
        8,
        &[1, 2, 3, 4, 5, 6],
    ),
    (0, &[0x10, 0x07, 1, 2, 3, 4, 5, 6], "length", 0, &[]),
    (
        1,
        &[0x55, 0x10, 0x07, 1, 2, 3, 4, 5],
        "first",
        7,
        &[1, 2, 3, 4, 5],
    ),
    (
        0,
        &[0x10, 0x0A, 1, 2, 3, 4, 5, 6, 7, 8, 9, 10],
        "length",
        0,
        &[],
    ),
    (
        0,
        &[0x1F, 0xFF, 1, 2, 3, 4, 5, 6],
        "first",
        4095,
        &[1, 2, 3, 4, 5, 6],
    ),
    (
        0,
        &[0x10, 0x00, 0x00, 0x00, 0x0F, 0xFF, 0xAA, 0xBB],
        "length",
        0,
        &[],
    ),
    (
        0,
        &[0x10, 0x00, 0x00, 0x00, 0x10, 0x00, 0xAA, 0xBB],
        "first",
        4096,
        &[0xAA, 0xBB],
    ),
    (
        1,
        &[0x55, 0x00, 0x07, 1, 2, 3, 4, 5, 6, 7, 0xCC, 0xCC],
        "single",
        0,
        &[1, 2, 3, 4, 5, 6, 7],
    ),
    (
        1,
        &[0x55, 0x00, 0x06, 1, 2, 3, 4, 5, 6, 0xCC, 0xCC, 0xCC],
        "length",
        0,
        &[],
    ),
    (
        1,
        &[0x55, 0x10, 0x0A, 1, 2, 3, 4, 5, 6, 7, 8, 9],
        "first",
        10,
        &[1, 2, 3, 4, 5, 6, 7, 8, 9],
    ),
    (
        1,
        &[0x55, 0x10, 0x09, 1, 2, 3, 4, 5, 6, 7, 8, 9],
        "length",
        0,
        &[],
    ),
    (
        1,
        &[0x55, 0x10, 0x00, 0x00, 0x00, 0x10, 0x00, 0xAA],
        "first",
        4096,
        &[0xAA],
    ),
    (1, &[0x55, 0x2F], "consecutive", 15, &[]),
    (
        1,
        &[0x55, 0x32, 0x05, 0x01],
        "flow control",
        0x02_05_01,
        &[],
    ),
    (0, &[0x31, 0x05, 0xF1], "flow control", 0x01_05_F1, &[]),
    (0, &[0x30, 0x00], "short", 0, &[]),
    (1, &[0x55, 0x30, 0x00], "short", 0, &[]),
    (0, &[0x40, 0x00], "kind", 0, &[]),
    (0, &[0xF0], "kind", 0, &[]),
];

/// The kind, the number and the bytes of the unit.
fn told(unit: &Unit) -> (&'static str, u32, &[u8]) {
    match unit {
        Unit::Sf { bytes } => ("single", 0, bytes.as_slice()),
        Unit::Ff { len, bytes } => ("first", *len, bytes.as_slice()),
        Unit::Cf { sn, bytes } => ("consecutive", u32::from(*sn), bytes.as_slice()),
        Unit::Fc { fs, bs, st } => ("flow control", u32::from_be_bytes([0, *fs, *bs, *st]), &[]),
        Unit::Ignored(Why::Short) => ("short", 0, &[]),
        Unit::Ignored(Why::Kind) => ("kind", 0, &[]),
        Unit::Ignored(Why::Length) => ("length", 0, &[]),
    }
}

#[test]
fn frames_are_read(rt: HostRuntime) -> Result<(), Fail> {
    for (a, bytes, kind, number, message) in READINGS {
        assert!(rt; a <= 1);
        let frame = Frame::new(CanId::Std(0x700), bytes.len() > 8, false, bytes)?;
        let unit = read_unit(a, &frame);
        let (told_kind, told_number, told_bytes) = told(&unit);
        assert_eq!(rt; told_kind, kind);
        assert_eq!(rt; told_number, number);
        assert_eq!(rt; told_bytes, message);
    }
    Ok(())
}

/// Classic frames, not filled.
const CLASSIC: Shape = Shape {
    id: CanId::Std(0x710),
    fd: false,
    brs: false,
    address: None,
    dl: 8,
    pad: false,
    fill: 0xCC,
};

/// The same with an address byte, and filled up to 8 bytes.
const ADDRESSED: Shape = Shape {
    id: CanId::Ext(0x18DA_55F1),
    fd: false,
    brs: false,
    address: Some(0x55),
    dl: 8,
    pad: true,
    fill: 0xAA,
};

/// FD frames of at most 12 bytes.
const TWELVE: Shape = Shape {
    id: CanId::Std(0x710),
    fd: true,
    brs: false,
    address: None,
    dl: 12,
    pad: false,
    fill: 0xCC,
};

/// FD frames of at most 64 bytes, at the higher bit rate.
const LONGEST: Shape = Shape {
    id: CanId::Std(0x710),
    fd: true,
    brs: true,
    address: None,
    dl: 64,
    pad: true,
    fill: 0xCC,
};

/// Fails unless the unit fits the shape and is written as a frame of these bytes.
fn expect_written(shape: &Shape, unit: &Unit, bytes: &[u8]) -> Result<(), Fail>
    requires { IsShape shape.now }
{
    if !unit_fits(shape, unit) {
        return Err(Fail::from("the unit doesn't fit"));
    }
    let frame = write_unit(shape, unit);
    if frame.id() != shape.id || frame.fd() != shape.fd || frame.brs() != shape.brs {
        return Err(Fail::from("another kind of frame"));
    }
    if frame.bytes() != bytes {
        return Err(Fail::from("other bytes"));
    }
    Ok(())
}

/// A single frame of these bytes.
fn single(message: &[u8]) -> Result<Unit, Fail> {
    let Ok(bytes) = ArrayVec::try_from(message) else {
        return Err(Fail::from("too many bytes"));
    };
    Ok(Unit::Sf { bytes })
}

/// The first frame of a message of `len` bytes, which carries these.
fn first(len: u32, message: &[u8]) -> Result<Unit, Fail> {
    let Ok(bytes) = ArrayVec::try_from(message) else {
        return Err(Fail::from("too many bytes"));
    };
    Ok(Unit::Ff { len, bytes })
}

/// A consecutive frame of these bytes.
fn consecutive(sn: u8, message: &[u8]) -> Result<Unit, Fail> {
    let Ok(bytes) = ArrayVec::try_from(message) else {
        return Err(Fail::from("too many bytes"));
    };
    Ok(Unit::Cf { sn, bytes })
}

#[test]
fn units_are_written(rt: HostRuntime) -> Result<(), Fail> {
    let message = [0, 1, 2, 3, 4, 5, 6, 7];
    assert!(rt; !unit_fits(&CLASSIC, &single(&message)?));
    let overflow = Unit::Fc {
        fs: 2,
        bs: 0,
        st: 0,
    };
    // Classic frames aren't filled, or up to 8 bytes, with the channel's own fill byte.
    expect_written(&CLASSIC, &single(&message[..3])?, &[3, 0, 1, 2])?;
    expect_written(
        &ADDRESSED,
        &single(&message[..2])?,
        &[0x55, 2, 0, 1, 0xAA, 0xAA, 0xAA, 0xAA],
    )?;
    expect_written(
        &ADDRESSED,
        &first(20, &message[..5])?,
        &[0x55, 0x10, 20, 0, 1, 2, 3, 4],
    )?;
    expect_written(
        &ADDRESSED,
        &overflow,
        &[0x55, 0x32, 0, 0, 0xAA, 0xAA, 0xAA, 0xAA],
    )?;
    expect_written(
        &CLASSIC,
        &first(4096, &message[..2])?,
        &[0x10, 0, 0, 0, 0x10, 0, 0, 1],
    )?;
    // FD frames are filled up to the next length that a frame may have.
    expect_written(
        &TWELVE,
        &single(&message)?,
        &[0, 8, 0, 1, 2, 3, 4, 5, 6, 7, 0xCC, 0xCC],
    )?;
    expect_written(
        &LONGEST,
        &consecutive(9, &message)?,
        &[0x29, 0, 1, 2, 3, 4, 5, 6, 7, 0xCC, 0xCC, 0xCC],
    )
}

#[test]
fn the_longest_single_frame_is_written(rt: HostRuntime) -> Result<(), Fail> {
    let unit = single(&[7; 62])?;
    assert!(rt; unit_fits(&LONGEST, &unit));
    let frame = write_unit(&LONGEST, &unit);
    assert_eq!(rt; frame.bytes().len(), 64);
    assert_eq!(rt; &frame.bytes()[..3], [0, 62, 7].as_slice());
    Ok(())
}

#[test]
fn a_message_is_cut(rt: HostRuntime) {
    assert_eq!(rt;
        start_part(&CLASSIC, 7),
        Part {
            single: true,
            bytes: 7
        }
    );
    assert_eq!(rt;
        start_part(&CLASSIC, 20),
        Part {
            single: false,
            bytes: 6
        }
    );
    assert_eq!(rt;
        start_part(&CLASSIC, 4096),
        Part {
            single: false,
            bytes: 2
        }
    );
    assert_eq!(rt;
        start_part(&TWELVE, 11),
        Part {
            single: false,
            bytes: 10
        }
    );
    assert_eq!(rt;
        start_part(&ADDRESSED, 7),
        Part {
            single: false,
            bytes: 5
        }
    );
    assert_eq!(rt; cf_part(&CLASSIC, 14), 7);
    assert_eq!(rt; cf_part(&ADDRESSED, 14), 6);
    assert_eq!(rt; cf_part(&CLASSIC, 3), 3);
}
