//! How receptions and transmissions ended and what became of units, read at the front of a text.
ghost use Rattle.std.specs.Prelude.{◌≡◌, option_map};
ghost use Rattle.session_report.specs.Reading.{cs_timeout_at, deed_at, dest_result_at, invalid_fs_at, kind_at, no_room_at, opened_at, opened_place_at, overflow_at, plain_dest_at, plain_session_at, refused_at, rx_end_at, rx_limit_at, rx_timeout_at, rx_wait_at, session_result_at, tx_end_at, tx_wait_at, word_at, wrong_sn_at};

use crate::fields::{after, byte_then, long_then, set_of, word_then};
use gw_base::{BufNo, Tick};
use hub_core::{DestResult, OpenedAt, RxLimit, RxWait, SessionResult, TxWait};
use if_core::IfKind;

/// Where a session was opened, and the space after it.
#[tactic(auto, unfolding(crate::specs::Reading::opened_place_at))]
fn opened_place(text: &[u8]) -> Option<(Option<OpenedAt>, &[u8])>
    ensures { option_map (λ found. (found.0, found.1.now)) result ≡ opened_place_at text.now }
{
    let (seq, rest) = word_then(text, b"/")?;
    let (buf, rest) = byte_then(rest, b"/")?;
    let (change, rest) = word_then(rest, b" ")?;
    let opened = OpenedAt {
        seq,
        buf: BufNo(buf),
        change,
    };
    Some((Some(opened), rest))
}

/// Where a session was opened, or `-`, and the space after it.
#[tactic(auto, unfolding(crate::specs::Reading::opened_at))]
pub(crate) fn opened(text: &[u8]) -> Option<(Option<OpenedAt>, &[u8])>
    ensures { option_map (λ found. (found.0, found.1.now)) result ≡ opened_at text.now }
{
    if let Some(rest) = after(text, b"- ") {
        return Some((None, rest));
    }
    opened_place(text)
}

/// A time limit of a reception.
#[tactic(auto, unfolding(crate::specs::Reading::rx_limit_at))]
fn rx_limit(text: &[u8]) -> Option<(RxLimit, &[u8])>
    ensures { option_map (λ found. (found.0, found.1.now)) result ≡ rx_limit_at text.now }
{
    if let Some(rest) = after(text, b"box\n") {
        return Some((RxLimit::Box, rest));
    }
    let rest = after(text, b"cf\n")?;
    Some((RxLimit::Cf, rest))
}

/// What a reception waits for, and the space after it.
#[tactic(auto, unfolding(crate::specs::Reading::rx_wait_at))]
fn rx_wait(text: &[u8]) -> Option<(RxWait, &[u8])>
    ensures { option_map (λ found. (found.0, found.1.now)) result ≡ rx_wait_at text.now }
{
    if let Some(rest) = after(text, b"box ") {
        return Some((RxWait::Box, rest));
    }
    if let Some(rest) = after(text, b"room ") {
        return Some((RxWait::Room, rest));
    }
    let rest = after(text, b"cf ")?;
    Some((RxWait::Cf, rest))
}

/// What a transmission waits for, and the space after it.
#[tactic(auto, unfolding(crate::specs::Reading::tx_wait_at))]
fn tx_wait(text: &[u8]) -> Option<(TxWait, &[u8])>
    ensures { option_map (λ found. (found.0, found.1.now)) result ≡ tx_wait_at text.now }
{
    if let Some(rest) = after(text, b"start ") {
        return Some((TxWait::Start, rest));
    }
    if let Some(rest) = after(text, b"turn ") {
        return Some((TxWait::Turn, rest));
    }
    if let Some(rest) = after(text, b"fc ") {
        return Some((TxWait::Fc, rest));
    }
    if let Some(rest) = after(text, b"gap ") {
        return Some((TxWait::Gap, rest));
    }
    if let Some(rest) = after(text, b"bytes ") {
        return Some((TxWait::Bytes, rest));
    }
    let rest = after(text, b"bus ")?;
    Some((TxWait::Bus, rest))
}

/// No free buffer had the cells that were needed.
#[tactic(auto, unfolding(crate::specs::Reading::overflow_at))]
fn overflow(text: &[u8]) -> Option<(SessionResult, &[u8])>
    ensures { option_map (λ found. (found.0, found.1.now)) result ≡ overflow_at text.now }
{
    let rest = after(text, b"overflow ")?;
    let (change, rest) = word_then(rest, b" ")?;
    let (free, rest) = set_of(rest)?;
    let rest = after(rest, b" ")?;
    let (need, rest) = long_then(rest, b"\n")?;
    Some((SessionResult::Overflow { change, free, need }, rest))
}

/// A wrong sequence number came.
#[tactic(auto, unfolding(crate::specs::Reading::wrong_sn_at))]
fn wrong_sn(text: &[u8]) -> Option<(SessionResult, &[u8])>
    ensures { option_map (λ found. (found.0, found.1.now)) result ≡ wrong_sn_at text.now }
{
    let rest = after(text, b"wrong-sn ")?;
    let (want, rest) = byte_then(rest, b" ")?;
    let (got, rest) = byte_then(rest, b"\n")?;
    Some((SessionResult::WrongSn { want, got }, rest))
}

/// A time limit of a reception passed.
#[tactic(auto, unfolding(crate::specs::Reading::rx_timeout_at))]
fn rx_timeout(text: &[u8]) -> Option<(SessionResult, &[u8])>
    ensures { option_map (λ found. (found.0, found.1.now)) result ≡ rx_timeout_at text.now }
{
    let rest = after(text, b"rx-timeout ")?;
    let (limit, rest) = rx_limit(rest)?;
    Some((SessionResult::RxTimeout(limit), rest))
}

/// A consecutive frame found too little room.
#[tactic(auto, unfolding(crate::specs::Reading::no_room_at))]
fn no_room(text: &[u8]) -> Option<(SessionResult, &[u8])>
    ensures { option_map (λ found. (found.0, found.1.now)) result ≡ no_room_at text.now }
{
    let rest = after(text, b"no-room ")?;
    let (room, rest) = word_then(rest, b" ")?;
    let (need, rest) = word_then(rest, b"\n")?;
    Some((SessionResult::NoRoom { room, need }, rest))
}

/// The run ended during a reception.
#[tactic(auto, unfolding(crate::specs::Reading::rx_end_at))]
fn rx_end(text: &[u8]) -> Option<(SessionResult, &[u8])>
    ensures { option_map (λ found. (found.0, found.1.now)) result ≡ rx_end_at text.now }
{
    let rest = after(text, b"run-end ")?;
    let (wait, rest) = rx_wait(rest)?;
    let (since, rest) = long_then(rest, b"\n")?;
    let since = Tick(since);
    Some((SessionResult::RunEnd { wait, since }, rest))
}

/// An end of a reception that has no number.
#[tactic(auto, unfolding(crate::specs::Reading::plain_session_at))]
fn plain_session(text: &[u8]) -> Option<(SessionResult, &[u8])>
    ensures { option_map (λ found. (found.0, found.1.now)) result ≡ plain_session_at text.now }
{
    if let Some(rest) = after(text, b"whole\n") {
        return Some((SessionResult::Whole, rest));
    }
    if let Some(rest) = after(text, b"restarted\n") {
        return Some((SessionResult::Restarted, rest));
    }
    if let Some(rest) = after(text, b"wait-over\n") {
        return Some((SessionResult::WaitOver, rest));
    }
    if let Some(rest) = after(text, b"no-readers\n") {
        return Some((SessionResult::NoReaders, rest));
    }
    let rest = after(text, b"cancelled\n")?;
    Some((SessionResult::Cancelled, rest))
}

/// How a reception ended.
#[tactic(auto, unfolding(crate::specs::Reading::session_result_at))]
pub(crate) fn session_result(text: &[u8]) -> Option<(SessionResult, &[u8])>
    ensures { option_map (λ found. (found.0, found.1.now)) result ≡ session_result_at text.now }
{
    if let Some(found) = plain_session(text) {
        return Some(found);
    }
    if let Some(found) = overflow(text) {
        return Some(found);
    }
    if let Some(found) = wrong_sn(text) {
        return Some(found);
    }
    if let Some(found) = rx_timeout(text) {
        return Some(found);
    }
    if let Some(found) = no_room(text) {
        return Some(found);
    }
    rx_end(text)
}

/// A flow control had an unknown status.
#[tactic(auto, unfolding(crate::specs::Reading::invalid_fs_at))]
fn invalid_fs(text: &[u8]) -> Option<(DestResult, &[u8])>
    ensures { option_map (λ found. (found.0, found.1.now)) result ≡ invalid_fs_at text.now }
{
    let rest = after(text, b"invalid-fs ")?;
    let (status, rest) = byte_then(rest, b"\n")?;
    Some((DestResult::InvalidFs(status), rest))
}

/// The next frame's bytes weren't there in time.
#[tactic(auto, unfolding(crate::specs::Reading::cs_timeout_at))]
fn cs_timeout(text: &[u8]) -> Option<(DestResult, &[u8])>
    ensures { option_map (λ found. (found.0, found.1.now)) result ≡ cs_timeout_at text.now }
{
    let rest = after(text, b"cs-timeout ")?;
    let (seen, rest) = word_then(rest, b"\n")?;
    Some((DestResult::CsTimeout { seen }, rest))
}

/// The run ended during a transmission.
#[tactic(auto, unfolding(crate::specs::Reading::tx_end_at))]
fn tx_end(text: &[u8]) -> Option<(DestResult, &[u8])>
    ensures { option_map (λ found. (found.0, found.1.now)) result ≡ tx_end_at text.now }
{
    let rest = after(text, b"run-end ")?;
    let (wait, rest) = tx_wait(rest)?;
    let (since, rest) = long_then(rest, b"\n")?;
    let since = Tick(since);
    Some((DestResult::RunEnd { wait, since }, rest))
}

/// An end of a transmission that has no number.
#[tactic(auto, unfolding(crate::specs::Reading::plain_dest_at))]
fn plain_dest(text: &[u8]) -> Option<(DestResult, &[u8])>
    ensures { option_map (λ found. (found.0, found.1.now)) result ≡ plain_dest_at text.now }
{
    if let Some(rest) = after(text, b"sent\n") {
        return Some((DestResult::Sent, rest));
    }
    if let Some(rest) = after(text, b"source-ended\n") {
        return Some((DestResult::SourceEnded, rest));
    }
    if let Some(rest) = after(text, b"bs-timeout\n") {
        return Some((DestResult::BsTimeout, rest));
    }
    if let Some(rest) = after(text, b"fc-overflow\n") {
        return Some((DestResult::FcOverflow, rest));
    }
    if let Some(rest) = after(text, b"as-timeout\n") {
        return Some((DestResult::AsTimeout, rest));
    }
    let rest = after(text, b"cancelled\n")?;
    Some((DestResult::Cancelled, rest))
}

/// How a transmission ended.
#[tactic(auto, unfolding(crate::specs::Reading::dest_result_at))]
pub(crate) fn dest_result(text: &[u8]) -> Option<(DestResult, &[u8])>
    ensures { option_map (λ found. (found.0, found.1.now)) result ≡ dest_result_at text.now }
{
    if let Some(found) = plain_dest(text) {
        return Some(found);
    }
    if let Some(found) = invalid_fs(text) {
        return Some(found);
    }
    if let Some(found) = cs_timeout(text) {
        return Some(found);
    }
    tx_end(text)
}

/// Units that a full queue refused; version 1 has none.
#[tactic(auto, unfolding(crate::specs::Reading::refused_at))]
fn refused(version: u8, text: &[u8]) -> Option<(IfKind, &[u8])>
    ensures { option_map (λ found. (found.0, found.1.now)) result ≡ refused_at version text.now }
{
    if version == 1 {
        return None;
    }
    let rest = after(text, b"refused\n")?;
    Some((IfKind::Refused, rest))
}

/// What became of units.
#[tactic(auto, unfolding(crate::specs::Reading::kind_at))]
pub(crate) fn kind(version: u8, text: &[u8]) -> Option<(IfKind, &[u8])>
    ensures { option_map (λ found. (found.0, found.1.now)) result ≡ kind_at version text.now }
{
    if let Some(rest) = after(text, b"sent\n") {
        return Some((IfKind::Sent, rest));
    }
    if let Some(rest) = after(text, b"boxed\n") {
        return Some((IfKind::Boxed, rest));
    }
    if let Some(rest) = after(text, b"flushed\n") {
        return Some((IfKind::Flushed, rest));
    }
    if let Some(rest) = after(text, b"left\n") {
        return Some((IfKind::Left, rest));
    }
    refused(version, text)
}

/// Whether a buffer was taken, and the space after it.
#[tactic(auto, unfolding(crate::specs::Reading::deed_at))]
pub(crate) fn took(text: &[u8]) -> Option<(bool, &[u8])>
    ensures { option_map (λ found. (found.0, found.1.now)) result ≡ deed_at text.now }
{
    if let Some(rest) = after(text, b"take ") {
        return Some((true, rest));
    }
    let rest = after(text, b"free ")?;
    Some((false, rest))
}
