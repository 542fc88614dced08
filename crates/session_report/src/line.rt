//! A line of a report after its first two, and which line may stand after which.
ghost use Rattle.std.specs.Prelude.{◌≡◌};
ghost use Rattle.session_report.specs.Orders.{dest_goes_on, follows, goes_on, interface_goes_on, kind_of, may_begin, move_goes_on, same_kind, session_goes_on};

use crate::report::{GroupMove, GroupPool};
use hub_core::{DestRecord, SessionRecord};
use if_core::{IfKind, IfRecord};

/// A line of a report after its first two.
#[derive(Clone, Copy, Debug)]
pub(crate) enum Line {
    Session(SessionRecord),
    Dest(DestRecord),
    Interface(IfRecord),
    Move(GroupMove),
    Pool(GroupPool),
}

/// The place of the line's kind: sessions, destinations, interface paths, moves, pools.
fn kind_of(line: &Line) -> u8
    ensures { result ≡ kind_of line.now }
{
    match line {
        Line::Session(_) => 0,
        Line::Dest(_) => 1,
        Line::Interface(_) => 2,
        Line::Move(_) => 3,
        Line::Pool(_) => 4,
    }
}

/// Whether the line may stand first of its kind.
fn may_begin(line: &Line) -> bool
    ensures { result ≡ may_begin line.now }
{
    match line {
        Line::Move(moved) => moved.made.change == 1,
        Line::Pool(pool) => pool.group == 0,
        Line::Session(_) | Line::Dest(_) | Line::Interface(_) => true,
    }
}

/// Whether the same became of both.
fn same_kind(a: IfKind, b: IfKind) -> bool
    ensures { result ≡ same_kind a b }
{
    match a {
        IfKind::Sent => matches!(b, IfKind::Sent),
        IfKind::Boxed => matches!(b, IfKind::Boxed),
        IfKind::Flushed => matches!(b, IfKind::Flushed),
        IfKind::Refused => matches!(b, IfKind::Refused),
        IfKind::Left => matches!(b, IfKind::Left),
    }
}

/// Whether session `b` may stand after session `a`.
fn session_goes_on(a: &SessionRecord, b: &SessionRecord) -> bool
    ensures { result ≡ session_goes_on a.now b.now }
{
    a.chan.0 < b.chan.0 || (a.chan.0 == b.chan.0 && a.n < b.n)
}

/// Whether destination `b` may stand after destination `a`.
fn dest_goes_on(a: &DestRecord, b: &DestRecord) -> bool
    ensures { result ≡ dest_goes_on a.now b.now }
{
    a.path.0 < b.path.0
        || (a.path.0 == b.path.0
            && (a.dest.0 < b.dest.0 || (a.dest.0 == b.dest.0 && a.seq < b.seq)))
}

/// Whether units `b` of an interface path may stand after units `a`.
fn interface_goes_on(a: &IfRecord, b: &IfRecord) -> bool
    ensures { result ≡ interface_goes_on a.now b.now }
{
    if a.path.0 < b.path.0 {
        return true;
    }
    if a.path.0 != b.path.0 || a.to >= b.from {
        return false;
    }
    !(a.to + 1 == b.from && same_kind(a.kind, b.kind))
}

/// Whether move `b` may stand after move `a`.
fn move_goes_on(a: &GroupMove, b: &GroupMove) -> bool
    ensures { result ≡ move_goes_on a.now b.now }
{
    if a.group == b.group {
        return u64::from(a.made.change) + 1 == u64::from(b.made.change);
    }
    a.group < b.group && b.made.change == 1
}

/// Whether the line may stand after one of its own kind.
fn goes_on(last: &Line, line: &Line) -> bool
    ensures { result ≡ goes_on last.now line.now }
{
    match (last, line) {
        (Line::Session(a), Line::Session(b)) => session_goes_on(a, b),
        (Line::Dest(a), Line::Dest(b)) => dest_goes_on(a, b),
        (Line::Interface(a), Line::Interface(b)) => interface_goes_on(a, b),
        (Line::Move(a), Line::Move(b)) => move_goes_on(a, b),
        (Line::Pool(a), Line::Pool(b)) => u16::from(a.group) + 1 == u16::from(b.group),
        _ => false,
    }
}

/// Whether the line may stand after the last one; the first stands after the clock's line.
pub(crate) fn follows(last: Option<Line>, line: &Line) -> bool
    ensures { result ≡ follows last line.now }
{
    let Some(last) = last else {
        return may_begin(line);
    };
    if kind_of(&last) < kind_of(line) && may_begin(line) {
        return true;
    }
    goes_on(&last, line)
}
