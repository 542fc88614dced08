//! The reading of a log: in pieces, cut at each line feed.
ghost use Rattle.std.specs.Prelude.{◌≡◌, ◌<◌, ◌≤◌, ◌+◌, ◌-◌, ◌*◌, ◌^◌, [], ◌∷◌, length, take, All, IfErr, IfOk, OnOk};
ghost use Rattle.std.specs.Bool.{OnFalse, OnTrue};
ghost use Rattle.candump_log.specs.Dated.{AreDated};
ghost use Rattle.candump_log.specs.Log.{HasNoFeed, LogStops};
ghost use Rattle.candump_log.specs.Reading.{FaultsReading, IsLogIn};

use crate::line::push_line;
use crate::log::{LineStop, Log, LogStop};
use crate::reader::{MOST_KEPT, MOST_LINE, feed_place};
use crate::so_far::LogSoFar;
use crate::source::LogSource;
use arrayvec::ArrayVec;
use candump_line::{LineFault, LineKind};
use gw_base::ListOf;
use gw_depot::Depot;
use std::alloc::Global;

/// How many bytes one read asks for.
const PIECE: usize = 65_536;

impl LogSoFar {
    ghost use Rattle.candump_log.specs.Reading.{EndsAs, KeepsDated, ReadsLine, ReadsOn, StopsAtEnd, StopsAtFeed, StopsAtLine, StopsIn};

    /// Whether no further line may begin.
    fn is_past_limit(&self) -> bool
        ensures past { OnTrue result ((self.now.piece.items ≡ []) × (self.now.most ≤ self.now.lines)) }
        ensures within { OnFalse result (self.now.lines < self.now.most) }
    {
        self.piece.is_empty() && self.lines >= self.most
    }

    /// Keeps bytes of a line.
    fn keep<S: LogSource>(&mut self, source: &S, part: &[u8]) -> Result<(), LineStop>
        requires few { self.old.lines < self.old.most }
        requires kept { HasNoFeed part.now }
        ensures same { self.new.most ≡ self.old.most }
        ensures lines { self.new.lines ≡ self.old.lines }
        ensures count { OnOk result (self.new.taken ≡ self.old.taken + length part.now) }
        ensures read { OnOk result (ReadsOn (S.source source.now) part.now self.old self.new) }
        ensures stops { IfErr result (StopsIn (S.source source.now) self.old.most part.now self.old) }
    {
        let Ok(()) = self.piece.try_extend_from_slice(part) else {
            let line = self.lines + 1;
            let fault = LineFault {
                kind: LineKind::TooLong,
                at: MOST_LINE,
            };
            return Err(LineStop::Refused { line, fault });
        };
        self.taken += part.len() as u64;
        Ok(())
    }

    /// Ends the line that is kept, at its line feed.
    fn end_line<S: LogSource>(&mut self, source: &S) -> Result<(), LineStop>
        requires { self.old.lines < self.old.most }
        ensures same { self.new.most ≡ self.old.most }
        ensures count { OnOk result (self.new.taken ≡ self.old.taken + 1) }
        ensures read { OnOk result (ReadsOn (S.source source.now) (10 ∷ []) self.old self.new) }
        ensures stops { IfErr result (StopsAtFeed (S.source source.now) self.old.most self.old) }
    {
        push_line(source, self.piece.as_slice(), self.lines, &mut self.frames)?;
        self.piece.clear();
        self.lines += 1;
        self.taken += 1;
        Ok(())
    }

    /// Takes a whole line of the log and its line feed, after which nothing of a line is kept, as before it.
    fn take_line<S: LogSource>(&mut self, source: &S, line: &[u8]) -> Result<(), LineStop>
        requires few { self.old.lines < self.old.most }
        requires between { self.old.piece.items ≡ [] }
        requires kept { HasNoFeed line.now }
        requires short { length line.now ≤ 513 }
        ensures same { self.new.most ≡ self.old.most }
        ensures count { OnOk result (self.new.taken ≡ self.old.taken + (length line.now + 1)) }
        ensures read { OnOk result (ReadsLine (S.source source.now) line.now self.old self.new) }
        ensures stops { IfErr result (StopsAtLine (S.source source.now) self.old.most line.now self.old) }
    {
        push_line(source, line, self.lines, &mut self.frames)?;
        self.lines += 1;
        self.taken += line.len() as u64 + 1;
        Ok(())
    }

    /// Takes the next bytes of the log, as far as their first line feed or else all, and says how many.
    fn take_part<S: LogSource>(&mut self, source: &S, bytes: &[u8]) -> Result<usize, LineStop>
        requires { 0 < length bytes.now }
        ensures same { self.new.most ≡ self.old.most }
        ensures some { IfOk result (λ count. (0 < count) × (count ≤ length bytes.now)) }
        ensures count { IfOk result (λ count. self.new.taken ≡ self.old.taken + count) }
        ensures read { IfOk result (λ count. ReadsOn (S.source source.now) (take count bytes.now) self.old self.new) }
        ensures stops { IfErr result (StopsIn (S.source source.now) self.old.most bytes.now self.old) }
    {
        if self.is_past_limit() {
            return Err(LineStop::Limit);
        }
        let Some(end) = feed_place(bytes) else {
            self.keep(source, bytes)?;
            return Ok(bytes.len());
        };
        if self.piece.is_empty() && end <= MOST_KEPT {
            self.take_line(source, &bytes[..end])?;
            return Ok(end + 1);
        }
        self.keep(source, &bytes[..end])?;
        self.end_line(source)?;
        Ok(end + 1)
    }

    /// Takes the next bytes of the log.
    fn take_all<S: LogSource>(&mut self, source: &S, bytes: &[u8]) -> Result<(), LineStop>
        ensures same { self.new.most ≡ self.old.most }
        ensures count { OnOk result (self.new.taken ≡ self.old.taken + length bytes.now) }
        ensures read { OnOk result (ReadsOn (S.source source.now) bytes.now self.old self.new) }
        ensures stops { IfErr result (StopsIn (S.source source.now) self.old.most bytes.now self.old) }
    {
        let mut done = 0;
        while done < bytes.len() {
            let count = self.take_part(source, &bytes[done..])?;
            done += count;
        }
        Ok(())
    }

    /// Ends the log: a last line needs no line feed.
    fn finish<S: LogSource>(self, source: &S) -> Result<Log, LineStop>
        ensures read { IfOk result (λ log. EndsAs (S.source source.now) self log.lines log.frames) }
        ensures few { IfOk result (λ log. log.lines ≤ self.most) }
        ensures given { IfOk result (λ log. length log.frames ≤ log.lines) }
        ensures dated { IfOk result (λ log. KeepsDated (S.source source.now) self log.frames) }
        ensures stops { IfErr result (StopsAtEnd (S.source source.now) self.most self) }
    {
        let LogSoFar {
            most: _,
            lines,
            taken: _,
            piece,
            mut frames,
        } = self;
        let last = piece.as_slice();
        if last.is_empty() {
            return Ok(Log { lines, frames });
        }
        push_line(source, last, lines, &mut frames)?;
        Ok(Log {
            lines: lines + 1,
            frames,
        })
    }
}

/// Reads a log to its end; it may have at most so many lines.
///
/// A line ends at its line feed, and a last one may lack it; one carriage return before it is dropped. Else the log
/// stops at `Fault` where a read failed, and at the first line that isn't taken: `Refused` with its number where it has
/// a fault, `Limit` where it is one line too many. After `Memory` nothing is known of the log.
pub fn read_log<D: Depot, S: LogSource>(
    alloc: Global,
    depot: &mut D,
    source: &S,
    most: u32,
) -> Result<Log, LogStop>
    requires { most < 2 ^ 32 - 1 }
    ensures told { (D.state depot.new).told ≡ (D.state depot.old).told }
    ensures files { (D.state depot.new).files ≡ (D.state depot.old).files }
    ensures read { IfOk result (IsLogIn (D.state depot.old).told (D.state depot.old).files (S.source source.now)) }
    ensures few { IfOk result (λ log. log.lines ≤ most) }
    ensures given { IfOk result (λ log. length log.frames ≤ log.lines) }
    ensures dated { IfOk result (λ log. AreDated log.frames) }
    ensures stops { IfErr result (LogStops (D.state depot.old).told (D.state depot.old).files (S.source source.now) most) }
    ensures later { (D.state depot.old).faults ≤ (D.state depot.new).faults }
    ensures fault { FaultsReading (S.source source.now) (D.state depot.old).faults (D.state depot.new).faults (D.state depot.new).blame result }
{
    let mut log = LogSoFar {
        most,
        lines: 0,
        taken: 0,
        piece: ArrayVec::new(),
        frames: ListOf::new(alloc),
    };
    let mut piece = [0u8; PIECE];
    loop {
        let Ok(count) = depot.read(source.file(), log.taken, &mut piece) else {
            return Err(LogStop::Fault);
        };
        if count == 0 {
            return Ok(log.finish(source)?);
        }
        log.take_all(source, &piece[..count])?;
    }
}
