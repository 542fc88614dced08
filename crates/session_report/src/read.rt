//! A report that is read.
ghost use Rattle.std.specs.Prelude.{◌≡◌, ℕ, ◌^◌, ◌+◌, ◌<◌, ◌≤◌, Ok, Err, length, IfOk, IfErr};
ghost use Rattle.session_report.specs.Orders.{Answers, HasCause, HasClock, IsFirstBad, IsReport, IsVersion};
ghost use Rattle.session_report.specs.Lines.{report_text};
ghost use Rattle.session_report.specs.Reading.{AreAll, StopsFor};
ghost use Rattle.session_report.specs.declared.report.Report.{Report};
ghost use Rattle.session_report.specs.declared.fault.ReportFault.TheVariants.{Bad};

use crate::fault::ReportFault;
use crate::line::{Line, follows};
use crate::lines::{clock, line, version};
use crate::parts::Parts;
use crate::report::Report;
use gw_base::Micros;
use std::alloc::Global;
use tick_clock::Clock;

/// The number of the version's line.
const FIRST: u32 = 1;

/// The number of the clock's line.
const SECOND: u32 = 2;

/// The number of the line after it.
const THIRD: u32 = 3;

/// Reads the lines after the first two.
fn read_lines(alloc: Global, version: u8, text: &[u8]) -> Result<Parts, ReportFault>
    requires version { IsVersion version }
    requires length { length text.now + 9 < 2 ^ 32 }
    ensures ok { IfOk result (AreAll version text.now) }
    ensures err { IfErr result (StopsFor version text.now) }
{
    let mut parts = Parts::new(alloc);
    let mut last = None;
    let mut number = THIRD;
    let mut rest = text;
    while !rest.is_empty() {
        let Some((line, after)) = line(version, rest) else {
            return Err(ReportFault::Bad { line: number });
        };
        if !follows(last, &line) {
            return Err(ReportFault::Bad { line: number });
        }
        let Ok(()) = parts.add(line) else {
            return Err(ReportFault::Memory);
        };
        last = Some(line);
        number += 1;
        rest = after;
    }
    if parts.pool.is_none() {
        return Err(ReportFault::Bad { line: number });
    }
    Ok(parts)
}

/// Reads the first two lines: the version and the clock.
fn read_head(text: &[u8]) -> Result<(u8, Clock, &[u8]), ReportFault>
    ensures found { IfOk result (λ head. HasClock text.now head.0 head.1 head.2.now) }
    ensures shorter { IfOk result (λ head. length head.2.now + 9 ≤ length text.now) }
    ensures cause { IfErr result (HasCause text.now) }
{
    let Some((version, rest)) = version(text) else {
        return Err(ReportFault::Bad { line: FIRST });
    };
    let Some(((start, period), rest)) = clock(rest) else {
        return Err(ReportFault::Bad { line: SECOND });
    };
    let start = Micros(start);
    Ok((version, Clock { start, period }, rest))
}

/// Reads the text of a report.
fn read(alloc: Global, text: &[u8]) -> Result<Report, ReportFault>
    requires { length text.now < 2 ^ 32 }
    ensures found { IfOk result (λ report. IsReport report × (text.now ≡ report_text report)) }
    ensures cause { IfErr result (HasCause text.now) }
{
    let (version, clock, rest) = read_head(text)?;
    let parts = match read_lines(alloc, version, rest) {
        Ok(parts) => parts,
        Err(fault) => return Err(fault),
    };
    let Parts {
        sessions,
        dests,
        ifs,
        moves,
        pool,
        other_moves,
        other_pools,
    } = parts;
    let Some(pool) = pool else { unreachable!() };
    Ok(Report {
        version,
        clock,
        sessions,
        dests,
        ifs,
        moves,
        pool,
        other_moves,
        other_pools,
    })
}

/// Reads the text of a report, of version 1 or 2, with all its records: `Bad` with the first line that can't stand where
/// it stands, where the text is no report.
pub fn read_report(alloc: Global, text: &[u8]) -> Result<Report, ReportFault>
    requires { length text.now < 2 ^ 32 }
    // What is read is a report, and is spelled so.
    ensures found { IfOk result (λ report. IsReport report × (text.now ≡ report_text report)) }
    // What is spelled so is read, unless memory is wanting.
    ensures only { (report : Report) → IsReport report → text.now ≡ report_text report → Answers result (Ok report) }
    // A line is told only where it is the first bad one.
    ensures cause { IfErr result (HasCause text.now) }
    // The first bad line is told, unless memory is wanting.
    ensures first { (line : ℕ) → IsFirstBad text.now line → Answers result (Err (Bad line)) }
{
    read(alloc, text)
}
