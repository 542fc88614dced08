//! Logs that are read and written in pieces of several lengths, over files in memory.
ghost use Rattle.std.specs.Prelude.{◌<◌};
ghost use Rattle.candump_log.specs.Writer.{IsThere};
ghost use Rattle.gw_depot.specs.MemDepot.{state_of};

use can_frame::{CanId, Frame};
use candump_line::{LineFault, LineKind};
use candump_log::{LineStop, LogReader, LogSource, LogStop, LogWriter, read_log};
use gw_base::Micros;
use gw_depot::{CallKind, Depot, Failed, MemDepot};

/// The file that a test's log stands in.
const NAME: &str = "can0.log";

/// A log of two interfaces with an empty line; its last line has no line feed.
const GOOD: &[u8] =
    b"(1.000000) can0 700#01\r\n(1.000001) can1 700#02\n\n(1.000002) can0 701##003\n(1.000003) can0 702#04";

/// The same with a fault in its sixth line, at its ninth byte, and a good line after it.
const BAD: &[u8] =
    b"(1.000000) can0 700#01\r\n(1.000001) can1 700#02\n\n(1.000002) can0 701##003\n(1.000003) can0 702#04\n(1.00000x) can0 703#05\n(1.000006) can0 704#06\n";

/// The stamps and identifiers of its frames.
const FRAMES: [(u64, u16); 3] = [(1_000_000, 0x700), (1_000_002, 0x701), (1_000_003, 0x702)];

/// The same where the bus has no CAN FD.
const CLASSIC: [(u64, u16); 2] = [(1_000_000, 0x700), (1_000_003, 0x702)];

/// Where the bad log stops.
const FAULT: LogStop = LogStop::Line(LineStop::Refused {
    line: 6,
    fault: LineFault {
        kind: LineKind::BadStamp,
        at: 8,
    },
});

/// Where it stops, where its fourth line ends within its stamp.
const SHORT: LogStop = LogStop::Line(LineStop::Refused {
    line: 4,
    fault: LineFault {
        kind: LineKind::BadStamp,
        at: 9,
    },
});

/// The log of `can0`.
#[derive(Drop)]
struct Can0 {
    fd: bool,
}

impl LogSource for Can0 {
    ghost use Rattle.std.specs.Prelude.{codes};

    ghost source = { λ bus. record { interface = codes "can0"; file = codes "can0.log"; fd = bus.fd } };

    fn file(&self) -> &str {
        NAME
    }

    fn interface(&self) -> &[u8] {
        b"can0"
    }

    fn is_fd(&self) -> bool {
        self.fd
    }
}

/// Whether the reader's next answer is this stop, or the end where there is none.
fn ends(reader: &mut LogReader<'_>, depot: &mut MemDepot, stop: Option<LogStop>) -> bool {
    match reader.next(depot) {
        Ok(None) => stop.is_none(),
        Ok(Some(_)) => false,
        Err(found) => stop == Some(found),
    }
}

/// Whether the reader's next answers are these frames.
fn gives(reader: &mut LogReader<'_>, depot: &mut MemDepot, frames: &[(u64, u16)]) -> bool {
    for (at, id) in frames {
        let Ok(Some(stamped)) = reader.next(depot) else {
            return false;
        };
        if stamped.at != Micros(*at) || stamped.frame.id() != CanId::Std(*id) {
            return false;
        }
    }
    true
}

/// Whether the log gives these frames and then this stop, twice, or its end.
fn reads(
    depot: &mut MemDepot,
    fd: bool,
    most: u32,
    frames: &[(u64, u16)],
    stop: Option<LogStop>,
) -> bool
    requires { most < 1_000 }
{
    let source = Can0 { fd };
    let mut reader = LogReader::new(&source, most);
    gives(&mut reader, depot, frames)
        && ends(&mut reader, depot, stop)
        && ends(&mut reader, depot, stop)
}

#[test]
fn pieces_of_every_size_give_the_same_frames(rt: HostRuntime) {
    for bytes in 1..=20 {
        let mut depot = MemDepot::new(rt.alloc());
        depot.at_most(bytes);
        assert!(rt; depot.set(NAME, GOOD).is_ok());
        assert!(rt; reads(&mut depot, true, 5, &FRAMES, None), "{bytes}");
        assert!(rt; reads(&mut depot, false, 5, &CLASSIC, None), "{bytes}");
        let limit = Some(LogStop::Line(LineStop::Limit));
        assert!(rt; reads(&mut depot, true, 3, &FRAMES[..1], limit), "{bytes}");
        assert!(rt; depot.set(NAME, BAD).is_ok());
        assert!(rt; reads(&mut depot, true, 9, &FRAMES, Some(FAULT)), "{bytes}");
    }
}

#[test]
fn the_read_that_fails_stops_the_reader(rt: HostRuntime) {
    // Two reads of 48 bytes have the whole log, and a third one finds its end.
    for (nth, frames) in [(1, 0), (2, 1), (3, 2)] {
        let mut depot = MemDepot::new(rt.alloc());
        depot.at_most(48);
        assert!(rt; depot.set(NAME, GOOD).is_ok());
        depot.fail(CallKind::Read, nth);
        assert!(rt;
            reads(&mut depot, true, 5, &FRAMES[..frames], Some(LogStop::Fault)),
            "{nth}"
        );
    }
}

#[test]
fn a_file_that_is_not_there_is_a_fault(rt: HostRuntime) {
    let mut depot = MemDepot::new(rt.alloc());
    assert!(rt; reads(&mut depot, true, 5, &[], Some(LogStop::Fault)));
}

/// The log without all but nine bytes of its fourth line and what is after it.
const CUT: &[u8] = b"(1.000000) can0 700#01\r\n(1.000001) can1 700#02\n\n(1.000002";

/// What the log holds once its first three lines were read, and what is then given: frames, and a stop or the end.
const CHANGED: [(&[u8], &[(u64, u16)], Option<LogStop>); 4] = [
    (GOOD, &[(1_000_002, 0x701), (1_000_003, 0x702)], None),
    (b"", &[], None),
    (BAD, &[(1_000_002, 0x701), (1_000_003, 0x702)], Some(FAULT)),
    (CUT, &[], Some(SHORT)),
];

#[test]
fn a_log_that_changes_is_read_on_where_it_was(rt: HostRuntime) {
    for (changed, frames, stop) in CHANGED {
        let mut depot = MemDepot::new(rt.alloc());
        depot.at_most(48);
        assert!(rt; depot.set(NAME, GOOD).is_ok());
        let source = Can0 { fd: true };
        let mut reader = LogReader::new(&source, 9);
        assert!(rt; gives(&mut reader, &mut depot, &FRAMES[..1]));
        assert!(rt; depot.set(NAME, changed).is_ok());
        assert!(rt; gives(&mut reader, &mut depot, frames));
        assert!(rt; ends(&mut reader, &mut depot, stop));
        assert!(rt; depot.set(NAME, BAD).is_ok());
        assert!(rt; ends(&mut reader, &mut depot, stop), "it has ended");
    }
}

#[test]
fn a_whole_log_has_its_lines_and_frames(rt: HostRuntime) {
    let mut depot = MemDepot::new(rt.alloc());
    assert!(rt; depot.set(NAME, GOOD).is_ok());
    let Ok(log) = read_log(rt.alloc(), &mut depot, &Can0 { fd: true }, 9) else {
        panic!(rt; "the log is good");
    };
    assert_eq!(rt; log.lines, 5);
    assert_eq!(rt; log.frames.items().len(), 3);
}

/// The lines that are written.
const LINES: &[u8] = b"(0000000001.000000) can0 700#0102\n(0000000001.000001) can0 701#0102\n";

/// Writes those lines, and appends them.
fn write(
    writer: &mut LogWriter<'_>,
    depot: &mut MemDepot,
    frame: &Frame,
    other: &Frame,
) -> Result<(), Failed>
    requires { IsThere (state_of depot.old) writer.old }
    ensures { IsThere (state_of depot.new) writer.new }
{
    writer.write(depot, Micros(1_000_000), frame)?;
    writer.write(depot, Micros(1_000_001), other)?;
    writer.flush(depot)
}

#[test]
fn lines_are_written_in_pieces_of_every_size(rt: HostRuntime) {
    let (Ok(frame), Ok(other)) = (
        Frame::new(CanId::Std(0x700), false, false, b"\x01\x02"),
        Frame::new(CanId::Std(0x701), false, false, b"\x01\x02"),
    ) else {
        panic!(rt; "both are lawful");
    };
    for bytes in 1..=20 {
        let mut depot = MemDepot::new(rt.alloc());
        depot.at_most(bytes);
        assert!(rt; depot.create(NAME).is_ok());
        let mut writer = LogWriter::new(NAME, b"can0");
        assert!(rt; write(&mut writer, &mut depot, &frame, &other).is_ok());
        assert_eq!(rt; depot.contents(NAME), Some(LINES), "{bytes}");
    }
}

/// Which append of at most 40 bytes fails, and what then stands in the file.
const LEFT: [(u32, &[u8]); 3] = [
    (1, b""),
    (2, b"(0000000001.000000) can0 700#0102\n(00000"),
    (3, LINES),
];

#[test]
fn an_append_that_fails_is_made_good(rt: HostRuntime) {
    let (Ok(frame), Ok(other)) = (
        Frame::new(CanId::Std(0x700), false, false, b"\x01\x02"),
        Frame::new(CanId::Std(0x701), false, false, b"\x01\x02"),
    ) else {
        panic!(rt; "both are lawful");
    };
    for (nth, left) in LEFT {
        let mut depot = MemDepot::new(rt.alloc());
        depot.at_most(40);
        depot.fail(CallKind::Append, nth);
        assert!(rt; depot.create(NAME).is_ok());
        let mut writer = LogWriter::new(NAME, b"can0");
        let written = write(&mut writer, &mut depot, &frame, &other);
        assert_eq!(rt; written.is_ok(), nth > 2, "{nth}");
        assert_eq!(rt; depot.contents(NAME), Some(left), "{nth}");
        assert!(rt; writer.flush(&mut depot).is_ok(), "{nth}");
        assert_eq!(rt; depot.contents(NAME), Some(LINES), "{nth}");
    }
}
