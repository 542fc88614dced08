//! The fields of a line, appended with the byte that stands after each.
ghost use Rattle.std.specs.Prelude.{◌≡◌, ◌/◌, ◌%◌, ◌<◌, [], ◌∷◌, ◌++◌, OnOk, decimal};
ghost use Rattle.session_report.specs.Lines.{deed_word, dest_fields, kind_word, line_before, opened_word, rx_limit_word, rx_wait_word, session_fields, set_word, tx_wait_word, upper_digit};

use gw_base::{BufNo, Bytes, Memory, Tick};
use hub_core::{DestResult, OpenedAt, RxLimit, RxWait, SessionResult, TxWait};
use if_core::IfKind;
use itoa::write_digits;

/// The most decimal digits that a number has.
const MOST_DIGITS: usize = 20;

/// Appends the number and the byte after it.
pub(crate) fn push_number(text: &mut Bytes, number: u64, after: u8) -> Result<(), Memory>
    ensures { OnOk result (text.new ≡ text.old ++ (decimal number ++ after ∷ [])) }
{
    let mut digits = [after; MOST_DIGITS + 1];
    let start = write_digits(number, &mut digits, MOST_DIGITS);
    text.append(&digits[start..])
}

/// Appends the number of one byte and the byte after it.
pub(crate) fn push_byte(text: &mut Bytes, number: u8, after: u8) -> Result<(), Memory>
    ensures { OnOk result (text.new ≡ text.old ++ (decimal number ++ after ∷ [])) }
{
    push_number(text, u64::from(number), after)
}

/// Appends the number of four bytes and the byte after it.
pub(crate) fn push_word(text: &mut Bytes, number: u32, after: u8) -> Result<(), Memory>
    ensures { OnOk result (text.new ≡ text.old ++ (decimal number ++ after ∷ [])) }
{
    push_number(text, u64::from(number), after)
}

/// An upper-case hex digit.
fn upper_digit(digit: u8) -> u8
    requires { digit < 16 }
    ensures { result ≡ upper_digit digit }
{
    if digit < 10 {
        b'0' + digit
    } else {
        b'A' - 10 + digit
    }
}

/// The two hex digits of a byte.
fn byte_word(byte: u8) -> (u8, u8)
    ensures { result ≡ (upper_digit (byte / 16), upper_digit (byte % 16)) }
{
    (upper_digit(byte / 16), upper_digit(byte % 16))
}

/// Appends the free set and the byte after it.
pub(crate) fn push_set(text: &mut Bytes, free: u32, after: u8) -> Result<(), Memory>
    ensures { OnOk result (text.new ≡ text.old ++ (set_word free ++ after ∷ [])) }
{
    let [a, b, c, d] = free.to_be_bytes();
    let (a, b, c, d) = (byte_word(a), byte_word(b), byte_word(c), byte_word(d));
    text.append(&[a.0, a.1, b.0, b.1, c.0, c.1, d.0, d.1, after])
}

/// Appends where a session was opened, or `-`, and a space.
pub(crate) fn push_opened(text: &mut Bytes, opened: Option<OpenedAt>) -> Result<(), Memory>
    ensures { OnOk result (text.new ≡ text.old ++ (opened_word opened ++ 32 ∷ [])) }
{
    let Some(
        OpenedAt {
            seq,
            buf: BufNo(buf),
            change,
        },
    ) = opened
    else {
        return text.append(b"- ");
    };
    push_word(text, seq, b'/')?;
    push_byte(text, buf, b'/')?;
    push_word(text, change, b' ')
}

/// Appends a time limit of a reception and the line feed.
fn push_rx_limit(text: &mut Bytes, limit: RxLimit) -> Result<(), Memory>
    ensures { OnOk result (text.new ≡ text.old ++ (rx_limit_word limit ++ 10 ∷ [])) }
{
    match limit {
        RxLimit::Box => text.append(b"box\n"),
        RxLimit::Cf => text.append(b"cf\n"),
    }
}

/// Appends what a reception waits for and a space.
fn push_rx_wait(text: &mut Bytes, wait: RxWait) -> Result<(), Memory>
    ensures { OnOk result (text.new ≡ text.old ++ (rx_wait_word wait ++ 32 ∷ [])) }
{
    match wait {
        RxWait::Box => text.append(b"box "),
        RxWait::Room => text.append(b"room "),
        RxWait::Cf => text.append(b"cf "),
    }
}

/// Appends what a transmission waits for and a space.
fn push_tx_wait(text: &mut Bytes, wait: TxWait) -> Result<(), Memory>
    ensures { OnOk result (text.new ≡ text.old ++ (tx_wait_word wait ++ 32 ∷ [])) }
{
    match wait {
        TxWait::Start => text.append(b"start "),
        TxWait::Turn => text.append(b"turn "),
        TxWait::Fc => text.append(b"fc "),
        TxWait::Gap => text.append(b"gap "),
        TxWait::Bytes => text.append(b"bytes "),
        TxWait::Bus => text.append(b"bus "),
    }
}

/// Appends how a reception ended and the line feed.
pub(crate) fn push_session_result(text: &mut Bytes, ended: SessionResult) -> Result<(), Memory>
    ensures { OnOk result (text.new ≡ text.old ++ line_before (session_fields ended) []) }
{
    match ended {
        SessionResult::Whole => text.append(b"whole\n"),
        SessionResult::Overflow { change, free, need } => {
            text.append(b"overflow ")?;
            push_word(text, change, b' ')?;
            push_set(text, free, b' ')?;
            push_number(text, need, b'\n')
        }
        SessionResult::WrongSn { want, got } => {
            text.append(b"wrong-sn ")?;
            push_byte(text, want, b' ')?;
            push_byte(text, got, b'\n')
        }
        SessionResult::RxTimeout(limit) => {
            text.append(b"rx-timeout ")?;
            push_rx_limit(text, limit)
        }
        SessionResult::Restarted => text.append(b"restarted\n"),
        SessionResult::NoRoom { room, need } => {
            text.append(b"no-room ")?;
            push_word(text, room, b' ')?;
            push_word(text, need, b'\n')
        }
        SessionResult::WaitOver => text.append(b"wait-over\n"),
        SessionResult::NoReaders => text.append(b"no-readers\n"),
        SessionResult::Cancelled => text.append(b"cancelled\n"),
        SessionResult::RunEnd {
            wait,
            since: Tick(since),
        } => {
            text.append(b"run-end ")?;
            push_rx_wait(text, wait)?;
            push_number(text, since, b'\n')
        }
    }
}

/// Appends how a transmission ended and the line feed.
pub(crate) fn push_dest_result(text: &mut Bytes, ended: DestResult) -> Result<(), Memory>
    ensures { OnOk result (text.new ≡ text.old ++ line_before (dest_fields ended) []) }
{
    match ended {
        DestResult::Sent => text.append(b"sent\n"),
        DestResult::SourceEnded => text.append(b"source-ended\n"),
        DestResult::BsTimeout => text.append(b"bs-timeout\n"),
        DestResult::FcOverflow => text.append(b"fc-overflow\n"),
        DestResult::InvalidFs(status) => {
            text.append(b"invalid-fs ")?;
            push_byte(text, status, b'\n')
        }
        DestResult::CsTimeout { seen } => {
            text.append(b"cs-timeout ")?;
            push_word(text, seen, b'\n')
        }
        DestResult::AsTimeout => text.append(b"as-timeout\n"),
        DestResult::Cancelled => text.append(b"cancelled\n"),
        DestResult::RunEnd {
            wait,
            since: Tick(since),
        } => {
            text.append(b"run-end ")?;
            push_tx_wait(text, wait)?;
            push_number(text, since, b'\n')
        }
    }
}

/// Appends what became of units and the line feed.
pub(crate) fn push_kind(text: &mut Bytes, kind: IfKind) -> Result<(), Memory>
    ensures { OnOk result (text.new ≡ text.old ++ (kind_word kind ++ 10 ∷ [])) }
{
    match kind {
        IfKind::Sent => text.append(b"sent\n"),
        IfKind::Boxed => text.append(b"boxed\n"),
        IfKind::Flushed => text.append(b"flushed\n"),
        IfKind::Refused => text.append(b"refused\n"),
        IfKind::Left => text.append(b"left\n"),
    }
}

/// Appends whether a buffer was taken, and a space.
pub(crate) fn push_deed(text: &mut Bytes, took: bool) -> Result<(), Memory>
    ensures { OnOk result (text.new ≡ text.old ++ (deed_word took ++ 32 ∷ [])) }
{
    if took {
        text.append(b"take ")
    } else {
        text.append(b"free ")
    }
}
