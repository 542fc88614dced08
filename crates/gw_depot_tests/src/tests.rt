ghost use Rattle.std.specs.Prelude.{◌<◌, length};

use gw_depot::{
    CallKind, Depot, Failed, FolderDepot, MemDepot, MemSink, NeverFails, OutSink, Sink,
};
use std::fs;
use std::rt::Files;

const NAME: &str = "gw_depot_test.out";

/// A kind of call, which later call of it fails, which of two creates, two appends of `ab` and two reads are
/// answered, and what the file then holds.
const FAILURES: [(CallKind, u32, [bool; 6], &[u8]); 9] = [
    (
        CallKind::Create,
        0,
        [true, true, true, true, true, true],
        b"abab",
    ),
    (
        CallKind::Create,
        1,
        [false, true, true, true, true, true],
        b"abab",
    ),
    (
        CallKind::Create,
        2,
        [true, false, true, true, true, true],
        b"abab",
    ),
    (
        CallKind::Append,
        1,
        [true, true, false, true, true, true],
        b"ab",
    ),
    (
        CallKind::Append,
        2,
        [true, true, true, false, true, true],
        b"ab",
    ),
    (
        CallKind::Append,
        3,
        [true, true, true, true, true, true],
        b"abab",
    ),
    (
        CallKind::Read,
        1,
        [true, true, true, true, false, true],
        b"abab",
    ),
    (
        CallKind::Read,
        2,
        [true, true, true, true, true, false],
        b"abab",
    ),
    (
        CallKind::Read,
        3,
        [true, true, true, true, true, true],
        b"abab",
    ),
];

/// Places in `abcde`, and what a read of at most two bytes finds there.
const READS: [(u64, &[u8]); 5] = [(0, b"ab"), (1, b"bc"), (4, b"e"), (5, b""), (9, b"")];

fn creates<D: Depot>(depot: &mut D) -> bool {
    depot.create(NAME).is_ok()
}

/// Whether a read of up to eight bytes finds these.
fn finds<D: Depot>(depot: &mut D, at: u64, want: &[u8]) -> bool {
    let mut buffer = [0; 8];
    match depot.read(NAME, at, &mut buffer) {
        Ok(count) => &buffer[..count] == want,
        Err(Failed) => false,
    }
}

/// Appends where the file is there, and fails where it isn't.
fn append_in_memory(depot: &mut MemDepot, piece: &[u8]) -> Result<usize, Failed>
    requires { 0 < length piece.now }
{
    if depot.contents(NAME).is_none() {
        return Err(Failed);
    }
    depot.append(NAME, piece)
}

fn append_in_folder<R: Files<File = fs::File>>(
    depot: &mut FolderDepot<'_, R>,
    piece: &[u8],
) -> Result<usize, Failed>
    requires { 0 < length piece.now }
{
    depot.append(NAME, piece)
}

/// Which of two creates, two appends of `ab` and two reads of these bytes are answered.
fn answers(depot: &mut MemDepot, held: &[u8]) -> [bool; 6] {
    [
        creates(depot),
        creates(depot),
        append_in_memory(depot, b"ab").is_ok(),
        append_in_memory(depot, b"ab").is_ok(),
        finds(depot, 0, held),
        finds(depot, 0, held),
    ]
}

fn say<K: Sink>(sink: &mut K, piece: &[u8]) -> Result<usize, Failed>
    requires { 0 < length piece.now }
{
    sink.put(piece)
}

#[test]
fn the_call_that_was_set_to_fail_fails(rt: HostRuntime) {
    for (kind, nth, answered, held) in FAILURES {
        let mut depot = MemDepot::new(rt.alloc());
        depot.fail(kind, nth);
        assert_eq!(rt; answers(&mut depot, held), answered, "{kind:?} {nth}");
        assert_eq!(rt; depot.contents(NAME), Some(held), "{kind:?} {nth}");
    }
}

#[test]
fn one_call_takes_at_most_the_bound(rt: HostRuntime) {
    let mut depot = MemDepot::new(rt.alloc());
    depot.at_most(2);
    assert!(rt; !finds(&mut depot, 0, b""), "a missing file");
    assert!(rt; depot.set(NAME, b"abcde").is_ok());
    for (at, want) in READS {
        assert!(rt; finds(&mut depot, at, want), "at {at}");
    }
    assert_eq!(rt; append_in_memory(&mut depot, b"fgh"), Ok(2));
    assert_eq!(rt; depot.contents(NAME), Some(b"abcdefg".as_slice()));
}

#[test]
fn the_put_that_was_set_to_fail_fails(rt: HostRuntime) {
    let mut sink = MemSink::new(rt.alloc());
    sink.fail(2);
    assert_eq!(rt; say(&mut sink, b"done "), Ok(5));
    assert_eq!(rt; say(&mut sink, b"lost"), Err(Failed));
    assert_eq!(rt; say(&mut sink, b"1\n"), Ok(2));
    assert_eq!(rt; sink.bytes(), b"done 1\n".as_slice());
}

#[test]
fn what_was_set_is_read_and_nothing_is_kept(rt: HostRuntime) {
    let mut depot = NeverFails::new(rt.alloc());
    assert!(rt; finds(&mut depot, 0, b""), "what wasn't set");
    assert!(rt; depot.set(NAME, b"abc").is_ok());
    assert!(rt; creates(&mut depot));
    assert_eq!(rt; depot.append(NAME, b"de"), Ok(2));
    assert!(rt; finds(&mut depot, 0, b"abc"));
}

#[test]
fn a_real_file_is_made_grows_and_is_read(rt: HostRuntime) {
    let mut depot = FolderDepot::new(rt.alloc(), &rt);
    assert!(rt; !finds(&mut depot, 0, b""), "a missing file");
    assert_eq!(rt;
        append_in_folder(&mut depot, b"ab"),
        Err(Failed),
        "a missing file"
    );
    assert!(rt; creates(&mut depot));
    assert!(rt; finds(&mut depot, 0, b""), "an empty file");
    assert_eq!(rt; append_in_folder(&mut depot, b"abc"), Ok(3));
    assert_eq!(rt; append_in_folder(&mut depot, b"de"), Ok(2));
    assert!(rt; finds(&mut depot, 1, b"bcde"));
    assert!(rt; finds(&mut depot, 5, b""), "at the end");
    assert!(rt; finds(&mut depot, 9, b""), "past the end");
    assert!(rt; fs::remove_file(&rt, NAME).is_ok());
}

#[test]
fn the_standard_output_takes_a_piece(rt: HostRuntime) {
    assert_eq!(rt; say(&mut OutSink::new(&rt), b"said\n"), Ok(5));
}
