//! The lines of a report, each read at the front of a text with its line feed.
ghost use Rattle.std.specs.Prelude.{◌≡◌, option_map};
ghost use Rattle.session_report.specs.Reading.{clock_at, dest_at, group_at, interface_at, line_at, move_at, pool_at, session_at, version_at};

use crate::fields::{after, byte_then, long_then, set_of, word_then};
use crate::line::Line;
use crate::report::{GroupMove, GroupPool, PoolLine};
use crate::results::{dest_result, kind, opened, session_result, took};
use gw_base::{BufNo, ChanNo, DestNo, PathNo, Tick};
use hub_core::{DestRecord, Move, SessionRecord};
use if_core::IfRecord;

/// The line of a session.
#[tactic(auto, unfolding(crate::specs::Reading::session_at))]
fn session(text: &[u8]) -> Option<(Line, &[u8])>
    ensures { option_map (λ found. (found.0, found.1.now)) result ≡ session_at text.now }
{
    let rest = after(text, b"session ")?;
    let (chan, rest) = byte_then(rest, b" ")?;
    let (n, rest) = word_then(rest, b" ")?;
    let (len, rest) = word_then(rest, b" ")?;
    let (begin, rest) = long_then(rest, b" ")?;
    let (bytes, rest) = word_then(rest, b" ")?;
    let (end, rest) = long_then(rest, b" ")?;
    let (opened, rest) = opened(rest)?;
    let (result, rest) = session_result(rest)?;
    let record = SessionRecord {
        chan: ChanNo(chan),
        n,
        len,
        begin: Tick(begin),
        bytes,
        end: Tick(end),
        opened,
        result,
    };
    Some((Line::Session(record), rest))
}

/// The line of a destination.
#[tactic(auto, unfolding(crate::specs::Reading::dest_at))]
fn dest(text: &[u8]) -> Option<(Line, &[u8])>
    ensures { option_map (λ found. (found.0, found.1.now)) result ≡ dest_at text.now }
{
    let rest = after(text, b"dest ")?;
    let (path, rest) = byte_then(rest, b" ")?;
    let (dest, rest) = byte_then(rest, b" ")?;
    let (seq, rest) = word_then(rest, b" ")?;
    let (begin, rest) = long_then(rest, b" ")?;
    let (sent, rest) = word_then(rest, b" ")?;
    let (end, rest) = long_then(rest, b" ")?;
    let (result, rest) = dest_result(rest)?;
    let record = DestRecord {
        path: PathNo(path),
        dest: DestNo(dest),
        seq,
        begin: Tick(begin),
        sent,
        end: Tick(end),
        result,
    };
    Some((Line::Dest(record), rest))
}

/// The line of units of an interface path, which are one at least.
#[tactic(auto, unfolding(crate::specs::Reading::interface_at))]
fn interface(version: u8, text: &[u8]) -> Option<(Line, &[u8])>
    ensures { option_map (λ found. (found.0, found.1.now)) result ≡ interface_at version text.now }
{
    let rest = after(text, b"iface ")?;
    let (path, rest) = byte_then(rest, b" ")?;
    let (from, rest) = long_then(rest, b" ")?;
    let (to, rest) = long_then(rest, b" ")?;
    let (kind, rest) = kind(version, rest)?;
    if from > to {
        return None;
    }
    let record = IfRecord {
        path: PathNo(path),
        from,
        to,
        kind,
    };
    Some((Line::Interface(record), rest))
}

/// The group that a line names; version 1 names none.
#[tactic(auto, unfolding(crate::specs::Reading::group_at))]
fn group(version: u8, text: &[u8]) -> Option<(u8, &[u8])>
    ensures { option_map (λ found. (found.0, found.1.now)) result ≡ group_at version text.now }
{
    if version == 1 {
        return Some((0, text));
    }
    byte_then(text, b" ")
}

/// The line of a move.
#[tactic(auto, unfolding(crate::specs::Reading::move_at))]
fn moved(version: u8, text: &[u8]) -> Option<(Line, &[u8])>
    ensures { option_map (λ found. (found.0, found.1.now)) result ≡ move_at version text.now }
{
    let rest = after(text, b"move ")?;
    let (group, rest) = group(version, rest)?;
    let (change, rest) = word_then(rest, b" ")?;
    let (took, rest) = took(rest)?;
    let (buf, rest) = byte_then(rest, b"\n")?;
    let made = Move {
        change,
        took,
        buf: BufNo(buf),
    };
    Some((Line::Move(GroupMove { group, made }), rest))
}

/// The line of a pool.
#[tactic(auto, unfolding(crate::specs::Reading::pool_at))]
fn pool(version: u8, text: &[u8]) -> Option<(Line, &[u8])>
    ensures { option_map (λ found. (found.0, found.1.now)) result ≡ pool_at version text.now }
{
    let rest = after(text, b"pool ")?;
    let (group, rest) = group(version, rest)?;
    let (buffers, rest) = word_then(rest, b" ")?;
    let (changes, rest) = word_then(rest, b" ")?;
    let (free, rest) = set_of(rest)?;
    let rest = after(rest, b"\n")?;
    let pool = PoolLine {
        buffers,
        changes,
        free,
    };
    Some((Line::Pool(GroupPool { group, pool }), rest))
}

/// A line of a report after its first two.
#[tactic(auto, unfolding(crate::specs::Reading::line_at))]
pub(crate) fn line(version: u8, text: &[u8]) -> Option<(Line, &[u8])>
    ensures { option_map (λ found. (found.0, found.1.now)) result ≡ line_at version text.now }
{
    if let Some(found) = session(text) {
        return Some(found);
    }
    if let Some(found) = dest(text) {
        return Some(found);
    }
    if let Some(found) = interface(version, text) {
        return Some(found);
    }
    if let Some(found) = moved(version, text) {
        return Some(found);
    }
    pool(version, text)
}

/// The first line: the version.
#[tactic(auto, unfolding(crate::specs::Reading::version_at))]
pub(crate) fn version(text: &[u8]) -> Option<(u8, &[u8])>
    ensures { option_map (λ found. (found.0, found.1.now)) result ≡ version_at text.now }
{
    if let Some(rest) = after(text, b"report 1\n") {
        return Some((1, rest));
    }
    let rest = after(text, b"report 2\n")?;
    Some((2, rest))
}

/// The second line: a start, and a period that isn't 0.
#[tactic(auto, unfolding(crate::specs::Reading::clock_at))]
pub(crate) fn clock(text: &[u8]) -> Option<((u64, u32), &[u8])>
    ensures { option_map (λ found. (found.0, found.1.now)) result ≡ clock_at text.now }
{
    let rest = after(text, b"clock ")?;
    let (start, rest) = long_then(rest, b" ")?;
    let (period, rest) = word_then(rest, b"\n")?;
    if period == 0 {
        return None;
    }
    Some(((start, period), rest))
}
