//! The lines of a report, printed.
ghost use Rattle.std.specs.Prelude.{◌≡◌, [], ◌++◌, flat_map, OnOk, IfOk};
ghost use Rattle.session_report.specs.Lines.{clock_before, report_text, version_before};
ghost use Rattle.session_report.specs.Printing.{dest_text, first_move_text, group_text, interface_text, move_text, pool_text, session_text};

use crate::report::{GroupMove, GroupPool, PoolLine, Report};
use crate::words::{
    push_byte, push_deed, push_dest_result, push_kind, push_number, push_opened,
    push_session_result, push_set, push_word,
};
use gw_base::{BufNo, Bytes, ChanNo, DestNo, Memory, PathNo, Tick};
use hub_core::{DestRecord, Move, SessionRecord};
use if_core::IfRecord;
use std::alloc::Global;
use tick_clock::Clock;

/// Appends the report's version.
fn push_version(text: &mut Bytes, version: u8) -> Result<(), Memory>
    ensures { OnOk result (text.new ≡ text.old ++ version_before version []) }
{
    if version == 1 {
        text.append(b"report 1\n")
    } else {
        text.append(b"report 2\n")
    }
}

/// Appends the clock's line.
fn push_clock(text: &mut Bytes, clock: &Clock) -> Result<(), Memory>
    ensures { OnOk result (text.new ≡ text.old ++ clock_before clock.now []) }
{
    text.append(b"clock ")?;
    push_number(text, clock.start.0, b' ')?;
    push_word(text, clock.period, b'\n')
}

/// Appends the line of a session.
fn push_session(text: &mut Bytes, told: &SessionRecord) -> Result<(), Memory>
    ensures { OnOk result (text.new ≡ text.old ++ session_text told.now) }
{
    let SessionRecord {
        chan: ChanNo(chan),
        n,
        len,
        begin: Tick(begin),
        bytes,
        end: Tick(end),
        opened,
        result,
    } = *told;
    text.append(b"session ")?;
    push_byte(text, chan, b' ')?;
    push_word(text, n, b' ')?;
    push_word(text, len, b' ')?;
    push_number(text, begin, b' ')?;
    push_word(text, bytes, b' ')?;
    push_number(text, end, b' ')?;
    push_opened(text, opened)?;
    push_session_result(text, result)
}

/// Appends the line of a destination.
fn push_dest(text: &mut Bytes, told: &DestRecord) -> Result<(), Memory>
    ensures { OnOk result (text.new ≡ text.old ++ dest_text told.now) }
{
    let DestRecord {
        path: PathNo(path),
        dest: DestNo(dest),
        seq,
        begin: Tick(begin),
        sent,
        end: Tick(end),
        result,
    } = *told;
    text.append(b"dest ")?;
    push_byte(text, path, b' ')?;
    push_byte(text, dest, b' ')?;
    push_word(text, seq, b' ')?;
    push_number(text, begin, b' ')?;
    push_word(text, sent, b' ')?;
    push_number(text, end, b' ')?;
    push_dest_result(text, result)
}

/// Appends the line of units of an interface path.
fn push_interface(text: &mut Bytes, units: &IfRecord) -> Result<(), Memory>
    ensures { OnOk result (text.new ≡ text.old ++ interface_text units.now) }
{
    let IfRecord {
        path: PathNo(path),
        from,
        to,
        kind,
    } = *units;
    text.append(b"iface ")?;
    push_byte(text, path, b' ')?;
    push_number(text, from, b' ')?;
    push_number(text, to, b' ')?;
    push_kind(text, kind)
}

/// Appends the group of a line and a space; version 1 names none.
fn push_group(text: &mut Bytes, version: u8, group: u8) -> Result<(), Memory>
    ensures { OnOk result (text.new ≡ text.old ++ group_text version group) }
{
    if version == 1 {
        return Ok(());
    }
    push_byte(text, group, b' ')
}

/// Appends the line of a move.
fn push_move(text: &mut Bytes, version: u8, moved: GroupMove) -> Result<(), Memory>
    ensures { OnOk result (text.new ≡ text.old ++ move_text version moved) }
{
    let Move {
        change,
        took,
        buf: BufNo(buf),
    } = moved.made;
    text.append(b"move ")?;
    push_group(text, version, moved.group)?;
    push_word(text, change, b' ')?;
    push_deed(text, took)?;
    push_byte(text, buf, b'\n')
}

/// Appends the line of a pool.
fn push_pool(text: &mut Bytes, version: u8, pool: GroupPool) -> Result<(), Memory>
    ensures { OnOk result (text.new ≡ text.old ++ pool_text version pool) }
{
    let PoolLine {
        buffers,
        changes,
        free,
    } = pool.pool;
    text.append(b"pool ")?;
    push_group(text, version, pool.group)?;
    push_word(text, buffers, b' ')?;
    push_word(text, changes, b' ')?;
    push_set(text, free, b'\n')
}

/// Appends the lines of all sessions.
fn push_sessions(text: &mut Bytes, records: &[SessionRecord]) -> Result<(), Memory>
    ensures { OnOk result (text.new ≡ text.old ++ flat_map session_text records.now) }
{
    for record in records {
        push_session(text, record)?;
    }
    Ok(())
}

/// Appends the lines of all destinations.
fn push_dests(text: &mut Bytes, records: &[DestRecord]) -> Result<(), Memory>
    ensures { OnOk result (text.new ≡ text.old ++ flat_map dest_text records.now) }
{
    for record in records {
        push_dest(text, record)?;
    }
    Ok(())
}

/// Appends the lines of all units of interface paths.
fn push_interfaces(text: &mut Bytes, records: &[IfRecord]) -> Result<(), Memory>
    ensures { OnOk result (text.new ≡ text.old ++ flat_map interface_text records.now) }
{
    for record in records {
        push_interface(text, record)?;
    }
    Ok(())
}

/// Appends the lines of all moves of the first group.
fn push_first_moves(text: &mut Bytes, version: u8, moves: &[Move]) -> Result<(), Memory>
    ensures { OnOk result (text.new ≡ text.old ++ flat_map (first_move_text version) moves.now) }
{
    for made in moves {
        let moved = GroupMove {
            group: 0,
            made: *made,
        };
        push_move(text, version, moved)?;
    }
    Ok(())
}

/// Appends the lines of all moves of further groups.
fn push_moves(text: &mut Bytes, version: u8, moves: &[GroupMove]) -> Result<(), Memory>
    ensures { OnOk result (text.new ≡ text.old ++ flat_map (move_text version) moves.now) }
{
    for moved in moves {
        push_move(text, version, *moved)?;
    }
    Ok(())
}

/// Appends the lines of the pools of further groups.
fn push_pools(text: &mut Bytes, version: u8, pools: &[GroupPool]) -> Result<(), Memory>
    ensures { OnOk result (text.new ≡ text.old ++ flat_map (pool_text version) pools.now) }
{
    for pool in pools {
        push_pool(text, version, *pool)?;
    }
    Ok(())
}

/// The report's text: a line for its version, the clock, each session, each destination, each run of units of an interface
/// path, each move and each pool, in this order and each with a line feed (this project's own). `Memory` where memory is
/// wanting.
pub fn print_report(alloc: Global, report: &Report) -> Result<Bytes, Memory>
    ensures { IfOk result (λ text. text ≡ report_text report.now) }
{
    let version = report.version;
    let mut text = Bytes::new(alloc);
    push_version(&mut text, version)?;
    push_clock(&mut text, &report.clock)?;
    push_sessions(&mut text, report.sessions.items())?;
    push_dests(&mut text, report.dests.items())?;
    push_interfaces(&mut text, report.ifs.items())?;
    push_first_moves(&mut text, version, report.moves.items())?;
    push_moves(&mut text, version, report.other_moves.items())?;
    let pool = GroupPool {
        group: 0,
        pool: report.pool,
    };
    push_pool(&mut text, version, pool)?;
    push_pools(&mut text, version, report.other_pools.items())?;
    Ok(text)
}
