use can_frame::{CanId, Frame};
use candump_line::{Line, LineFault, LineKind, read_line, write_line};
use gw_base::{Bytes, Micros};
use std::test::Fail;

/// Stamps in microseconds and frames (identifier, FD, bit rate switch, data), each with its line.
const WRITTEN: [(u64, CanId, bool, bool, &[u8], &[u8]); 6] = [
    (
        1_000_000,
        CanId::Std(0x700),
        false,
        false,
        b"\x02\x11\x22",
        b"(0000000001.000000) can0 700#021122\n",
    ),
    (
        1_001_500,
        CanId::Std(0x718),
        false,
        false,
        b"\x30\x00\x00",
        b"(0000000001.001500) can0 718#300000\n",
    ),
    (
        0,
        CanId::Std(0),
        false,
        false,
        b"",
        b"(0000000000.000000) can0 000#\n",
    ),
    (
        9_999_999_999_999_999,
        CanId::Ext(0x1FFF_FFFF),
        false,
        true,
        b"\x00\xAB\xCD\xEF",
        b"(9999999999.999999) can0 1FFFFFFF#00ABCDEF\n",
    ),
    (
        1_436_509_053_850_870,
        CanId::Std(0x7FF),
        true,
        true,
        b"\x9F",
        b"(1436509053.850870) can0 7FF##19F\n",
    ),
    (
        1_436_509_053_850_870,
        CanId::Ext(0xA),
        true,
        false,
        b"",
        b"(1436509053.850870) can0 0000000A##0\n",
    ),
];

/// Lines of can0 with a stamp in microseconds and a frame (identifier, FD, bit rate switch, data). The first five are python-can's
/// (4.1.0, `CanutilsLogWriter`), the next two those of `asc2log` (can-utils 2020.11, which prints a frame as candump does).
const FRAMES: [(&[u8], u64, CanId, bool, bool, &[u8]); 11] = [
    (
        b"(1436509053.850870) can0 7E0#021003 R",
        1_436_509_053_850_870,
        CanId::Std(0x7E0),
        false,
        false,
        b"\x02\x10\x03",
    ),
    (
        b"(1436509053.850870) can0 7E8#065003003201F4AA T",
        1_436_509_053_850_870,
        CanId::Std(0x7E8),
        false,
        false,
        b"\x06P\x03\x002\x01\xF4\xAA",
    ),
    (
        b"(1436509053.850870) can0 123##0000102030405060708090A0B R",
        1_436_509_053_850_870,
        CanId::Std(0x123),
        true,
        false,
        b"\x00\x01\x02\x03\x04\x05\x06\x07\x08\x09\x0A\x0B",
    ),
    (
        b"(1436509053.850870) can0 00000123##3000102 R",
        1_436_509_053_850_870,
        CanId::Ext(0x123),
        true,
        true,
        b"\x00\x01\x02",
    ),
    (
        b"(1436509053.850870) can0 123# R",
        1_436_509_053_850_870,
        CanId::Std(0x123),
        false,
        false,
        b"",
    ),
    (
        b"(1796122240.154592) can0 18DAF110#065003003201F4AA T",
        1_796_122_240_154_592,
        CanId::Ext(0x18DAF110),
        false,
        false,
        b"\x06P\x03\x002\x01\xF4\xAA",
    ),
    (
        b"(1796122261.726388) can0 011##100000000000000000000000000000000 T",
        1_796_122_261_726_388,
        CanId::Std(0x11),
        true,
        true,
        b"\x00\x00\x00\x00\x00\x00\x00\x00\x00\x00\x00\x00\x00\x00\x00\x00",
    ),
    (
        b"(1436509053.850875) can0 123#0011223344556677_B",
        1_436_509_053_850_875,
        CanId::Std(0x123),
        false,
        false,
        b"\x00\x11\x223DUfw",
    ),
    (
        b"(1436509053.850870123) can0 7e0#0A0b",
        1_436_509_053_850_870,
        CanId::Std(0x7E0),
        false,
        false,
        b"\x0A\x0B",
    ),
    (
        b"(0.000000) can0 7FF#   ",
        0,
        CanId::Std(0x7FF),
        false,
        false,
        b"",
    ),
    (
        b"(4294967295.999999) can0 123#11",
        4_294_967_295_999_999,
        CanId::Std(0x123),
        false,
        false,
        b"\x11",
    ),
];

/// Lines that can0 passes over, the first three of python-can: remote frames, error frames, and what stands on other interfaces.
const PASSED: [&[u8]; 7] = [
    b"(1436509053.850870) can0 123#R R",
    b"(1436509053.850870) can0 20000080#0000000000000000",
    b"(1436509053.850870) vcan0 123#01 R",
    b"(1.000000) can0 20000004#0000000000000000",
    b"(1.000000) can0 FFFFFFFF#R",
    b"(1.000000) can1 whatever",
    b"(1.000000) abcdefghijklmno 123#11",
];

/// Lines with their first faults. The first is what `log2long` (can-utils) makes of a line of a log.
const FAULTS: [(&[u8], LineKind, u32); 25] = [
    (
        b"(1436509053.850870)  can0       7E0   [3]  02 10 03                  '...'",
        LineKind::NoHash,
        35,
    ),
    (b"can0 123#11", LineKind::NoStamp, 0),
    (b"(0000000001.0000", LineKind::BadStamp, 16),
    (b"(.000000) can0 123#11", LineKind::BadStamp, 1),
    (b"(12345678901.000000) can0 123#11", LineKind::BadStamp, 11),
    (b"(1.0000000) can0 123#11", LineKind::BadStamp, 10),
    (b"(1.0000000000) can0 123#11", LineKind::BadStamp, 12),
    (b"(4294967296.000000) can0 123#11", LineKind::BadStamp, 1),
    (b"(1.000000)can0 123#11", LineKind::NoIface, 10),
    (b"(1.000000) ", LineKind::NoIface, 11),
    (b"(1.000000) abcdefghijklmnop 123#11", LineKind::NoIface, 26),
    (b"(1.000000) can0", LineKind::BadId, 15),
    (b"(1.000000) can0 7000#11", LineKind::BadId, 16),
    (b"(1.000000) can0 FFF#11", LineKind::BadId, 16),
    (b"(1.000000) can0 5FFFFFFF#11", LineKind::BadId, 16),
    (b"(1.000000) can0 123 #11", LineKind::NoHash, 19),
    (b"(1.000000) can0 123##", LineKind::BadData, 21),
    (b"(1.000000) can0 123##0AABBC", LineKind::BadData, 26),
    (
        b"(1.000000) can0 123##0112233445566778899",
        LineKind::BadLength,
        22,
    ),
    (
        b"(1.000000) can0 123#112233445566778899",
        LineKind::BadLength,
        20,
    ),
    (
        b"(1.000000) can0 123#1122334455667788_8",
        LineKind::BadData,
        37,
    ),
    (b"(1.000000) can0 123#11_9", LineKind::BadData, 22),
    (b"(1.000000) can0 123#11 X", LineKind::BadData, 23),
    (b"(1.000000) can0 123#11 R T", LineKind::BadData, 25),
    (b"(1.000000) can0 123#11R", LineKind::BadData, 22),
];

/// A line of python-can.
const GOOD: [u8; 37] = *b"(1436509053.850870) can0 7E0#021003 R";

/// Bytes, and what becomes of the good line with that byte at each of its places: the letter of the outcome, and the place of the
/// fault's byte, 0 without a fault.
const CHANGED: [(u8, &[u8; 37], &[u32; 37]); 10] = [
    (
        0x20,
        b"nssssssssssssssssss=----=dddhbbbbbb==",
        &[
            0, 1, 2, 3, 4, 5, 6, 7, 8, 9, 10, 11, 12, 13, 14, 15, 16, 17, 18, 0, 0, 0, 0, 0, 0, 26,
            25, 25, 28, 30, 29, 32, 31, 34, 33, 0, 0,
        ],
    ),
    (
        0x28,
        b"=ssssssssssssssssssi-----dddhbbbbbbbb",
        &[
            0, 1, 2, 3, 4, 5, 6, 7, 8, 9, 10, 11, 12, 13, 14, 15, 16, 17, 18, 19, 0, 0, 0, 0, 0,
            25, 25, 25, 28, 29, 29, 31, 31, 33, 33, 35, 36,
        ],
    ),
    (
        0x29,
        b"nsssssssssssssssss=i-----dddhbbbbbbbb",
        &[
            0, 1, 2, 3, 4, 5, 6, 7, 8, 9, 10, 11, 12, 13, 14, 15, 16, 17, 0, 19, 0, 0, 0, 0, 0, 25,
            25, 25, 28, 29, 29, 31, 31, 33, 33, 35, 36,
        ],
    ),
    (
        0x2E,
        b"nssssssssss=sssssssi-----dddhbbbbbbbb",
        &[
            0, 1, 11, 11, 11, 11, 11, 11, 11, 11, 11, 0, 12, 13, 14, 15, 16, 17, 18, 19, 0, 0, 0,
            0, 0, 25, 25, 25, 28, 29, 29, 31, 31, 33, 33, 35, 36,
        ],
    ),
    (
        0x23,
        b"nssssssssssssssssssi-----ddd==bbbbbbb",
        &[
            0, 1, 2, 3, 4, 5, 6, 7, 8, 9, 10, 11, 12, 13, 14, 15, 16, 17, 18, 19, 0, 0, 0, 0, 0,
            25, 25, 25, 0, 0, 29, 31, 31, 33, 33, 35, 36,
        ],
    ),
    (
        0x39,
        b"ns=========s======si-----d==d======bb",
        &[
            0, 1, 0, 0, 0, 0, 0, 0, 0, 0, 0, 11, 0, 0, 0, 0, 0, 0, 19, 19, 0, 0, 0, 0, 0, 25, 0, 0,
            25, 0, 0, 0, 0, 0, 0, 35, 36,
        ],
    ),
    (
        0x41,
        b"nssssssssssssssssssi-----d==d======bb",
        &[
            0, 1, 2, 3, 4, 5, 6, 7, 8, 9, 10, 11, 12, 13, 14, 15, 16, 17, 18, 19, 0, 0, 0, 0, 0,
            25, 0, 0, 25, 0, 0, 0, 0, 0, 0, 35, 36,
        ],
    ),
    (
        0x52,
        b"nssssssssssssssssssi-----dddh-bbbbbb=",
        &[
            0, 1, 2, 3, 4, 5, 6, 7, 8, 9, 10, 11, 12, 13, 14, 15, 16, 17, 18, 19, 0, 0, 0, 0, 0,
            25, 25, 25, 28, 0, 29, 31, 31, 33, 33, 35, 0,
        ],
    ),
    (
        0x5F,
        b"nssssssssssssssssssi-----dddhbbbbbbbb",
        &[
            0, 1, 2, 3, 4, 5, 6, 7, 8, 9, 10, 11, 12, 13, 14, 15, 16, 17, 18, 19, 0, 0, 0, 0, 0,
            25, 25, 25, 28, 29, 29, 31, 31, 33, 33, 35, 36,
        ],
    ),
    (
        0x80,
        b"nssssssssssssssssssii---ddddhbbbbbbbb",
        &[
            0, 1, 2, 3, 4, 5, 6, 7, 8, 9, 10, 11, 12, 13, 14, 15, 16, 17, 18, 19, 20, 0, 0, 0, 24,
            25, 25, 25, 28, 29, 29, 31, 31, 33, 33, 35, 36,
        ],
    ),
];

#[test]
fn lines_are_written(rt: HostRuntime) -> Result<(), Fail> {
    for (at, id, fd, brs, data, line) in WRITTEN {
        let frame = Frame::new(id, fd, brs, data)?;
        let mut out = Bytes::new(rt.alloc());
        assert!(rt; at < 10_000_000_000_000_000);
        write_line(Micros(at), b"can0", &frame, &mut out)?;
        assert_eq!(rt; out.items(), line);
    }
    Ok(())
}

#[test]
fn frames_are_read(rt: HostRuntime) -> Result<(), Fail> {
    for (line, at, id, fd, brs, data) in FRAMES {
        let frame = Frame::new(id, fd, brs, data)?;
        let at = Micros(at);
        assert_eq!(rt; read_line(line, b"can0"), Ok(Line::Frame { at, frame }));
    }
    Ok(())
}

#[test]
fn other_lines_are_passed_over(rt: HostRuntime) {
    for line in PASSED {
        assert_eq!(rt; read_line(line, b"can0"), Ok(Line::Passed));
    }
}

#[test]
fn blank_lines_are_empty(rt: HostRuntime) {
    assert_eq!(rt; read_line(b"", b"can0"), Ok(Line::Empty));
    assert_eq!(rt; read_line(&[b' '; 512], b"can0"), Ok(Line::Empty));
    let fault = LineFault {
        kind: LineKind::TooLong,
        at: 512,
    };
    assert_eq!(rt; read_line(&[b' '; 513], b"can0"), Err(fault));
}

#[test]
fn faults_have_their_kind_and_byte(rt: HostRuntime) {
    for (line, kind, at) in FAULTS {
        assert_eq!(rt; read_line(line, b"can0"), Err(LineFault { kind, at }));
    }
}

/// The letter of an outcome, and the place of the fault's byte.
fn outcome(read: Result<Line, LineFault>) -> (u8, u32) {
    match read {
        Ok(Line::Frame { .. }) => (b'=', 0),
        Ok(Line::Passed) => (b'-', 0),
        Ok(Line::Empty) => (b'e', 0),
        Err(LineFault { kind, at }) => (letter(kind), at),
    }
}

/// The letter of a fault.
fn letter(kind: LineKind) -> u8 {
    match kind {
        LineKind::TooLong => b't',
        LineKind::NoStamp => b'n',
        LineKind::BadStamp => b's',
        LineKind::NoIface => b'i',
        LineKind::BadId => b'd',
        LineKind::NoHash => b'h',
        LineKind::BadData => b'b',
        LineKind::BadLength => b'l',
    }
}

/// The good line with this byte at this place.
fn changed(place: usize, byte: u8) -> [u8; 37] {
    let mut line = GOOD;
    if place < line.len() {
        line[place] = byte;
    }
    line
}

#[test]
fn each_byte_has_its_fault(rt: HostRuntime) {
    for (byte, letters, places) in CHANGED {
        for place in 0..GOOD.len() {
            let read = read_line(&changed(place, byte), b"can0");
            assert_eq!(rt;
                outcome(read),
                (letters[place], places[place]),
                "{byte} at {place}"
            );
        }
    }
}
