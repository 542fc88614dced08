//! A reader of a log, which gives its frames one after another and holds one piece of it.
ghost use Rattle.std.specs.Prelude.{◌≡◌, ◌≢◌, ◌<◌, ◌≤◌, ◌+◌, ◌*◌, ◌-◌, ◌^◌, [], ◌++◌, List, length, Bool, None, Ok, Err, IfErr, IfOk, MatchOption};
ghost use Rattle.gw_depot.specs.Files.{Files};
ghost use Rattle.candump_log.specs.Log.{HasNoFeed, IsFeedAt, LogStops, Stops};
ghost use Rattle.candump_log.specs.declared.log.LineStop.TheVariants.{Memory, Refused};
ghost use Rattle.candump_line.specs.declared.fault.LineKind.TheVariants.{TooLong};
ghost use Rattle.candump_log.specs.declared.log.LogStop.TheVariants.{Fault, Line};
ghost use Rattle.candump_log.specs.declared.log.Stamped.{Stamped as StampedFrame};

use crate::held::HeldBytes;
use crate::line::line_frame;
use crate::listing::Listing;
use crate::log::{LineStop, LogStop, Stamped};
use crate::source::LogSource;
use candump_line::{LineFault, LineKind};
use gw_depot::Depot;
use memchr::memchr;

/// The byte that ends a line.
const LINE_FEED: u8 = b'\n';

/// The most bytes of a line without its line end.
pub(crate) const MOST_LINE: u32 = 512;

/// The most bytes of a line without its line feed: the most that it may have, and a carriage return.
pub(crate) const MOST_KEPT: usize = 513;

/// How far a log was read.
#[derive(Clone, Copy, Debug)]
pub(crate) enum Stage {
    /// Its end wasn't met yet.
    Open,
    /// It was read to its end.
    Ended,
    /// It wasn't, and isn't read on.
    Stopped(LogStop),
}

/// What stands at the front of the bytes that aren't taken yet.
#[derive(Debug, Drop)]
pub(crate) enum Front {
    /// A whole line, which was taken: the frame that it gives.
    Whole(Option<Stamped>),
    /// The beginning of a line, or nothing.
    Unended,
}

/// A reader of a log: it gives the frames one after another. What was read and isn't taken yet lies in the value itself, at most
/// 66,048 bytes; it takes no memory.
#[derive(Debug, Drop)]
pub struct LogReader<'a> {
    listing: Listing<'a>,
    most: u32,
    lines: u32,
    taken: u64,
    unread: HeldBytes,
    stage: Stage,
    ghost few: { lines ≤ most },
    ghost limit: { most < 2 ^ 32 - 1 },
    ghost held: { length unread ≤ 66048 },
    ghost bounded: { taken ≤ 514 * lines + length unread },
}

/// The place of the first line feed.
pub(crate) fn feed_place(bytes: &[u8]) -> Option<usize>
    ensures { MatchOption result (HasNoFeed bytes.now) (IsFeedAt bytes.now) }
{
    memchr(LINE_FEED, bytes)
}

impl<'a> LogReader<'a> {
    ghost use Rattle.candump_log.specs.Reader.{HasGiven, IsGoingOn, lines_of, most_of, source_of};

    /// A reader of the log, which may have at most so many lines; nothing is read yet.
    pub fn new<S: LogSource>(source: &'a S, most: u32) -> LogReader<'a>
        requires { most < 2 ^ 32 - 1 }
        ensures source { source_of result ≡ S.source source.now }
        ensures most { most_of result ≡ most }
        ensures lines { lines_of result ≡ 0 }
        ensures given { (told : Bool) (files : Files) → HasGiven told files result [] }
        ensures begins { IsGoingOn result }
    {
        LogReader {
            listing: Listing {
                file: source.file(),
                interface: source.interface(),
                fd: source.is_fd(),
            },
            most,
            lines: 0,
            taken: 0,
            unread: HeldBytes::new(),
            stage: Stage::Open,
        }
    }
}

impl LogReader<'_> {
    ghost use Rattle.candump_log.specs.Held.{ReadsMore};
    ghost use Rattle.candump_log.specs.Reading.{FaultsReading};
    ghost use Rattle.candump_log.specs.declared.reader.Stage.TheVariants.{Open};
    ghost use Rattle.gw_depot.specs.Outside.{HasCause};
    ghost use Rattle.gw_depot.specs.declared.outside.CallKind.TheVariants.{Read};
    ghost use Rattle.candump_log.specs.Reader.{FitsAnswer, GivesNext, GivesOn, HasGiven, HasReadCause, IsAtEnd, IsGoingOn, IsSameLog, IsStopped, LeavesUnended, StaysOver, StopsAtEnd, StopsHere, StopsOn, TakesFront, TakesLast, TakesWhole, given_by, lines_of, most_of, source_of};

    /// How many lines were taken.
    pub fn lines(&self) -> u32
        ensures lines { result ≡ lines_of self.now }
        ensures few { result ≤ most_of self.now }
    {
        self.lines
    }

    /// The next line is too long.
    fn too_long(&self) -> LineStop
        ensures { result ≡ Refused (self.now.lines + 1) (record { kind = TooLong; at = 512 }) }
    {
        LineStop::Refused {
            line: self.lines + 1,
            fault: LineFault {
                kind: LineKind::TooLong,
                at: MOST_LINE,
            },
        }
    }

    /// Takes the line at the front, where it is whole.
    fn take_front(&mut self) -> Result<Front, LineStop>
        ensures same { IsSameLog self.old self.new }
        ensures taken { self.new.taken ≡ self.old.taken }
        ensures stage { self.new.stage ≡ self.old.stage }
        ensures front { IfOk result (TakesFront self.old self.new) }
        ensures stops { IfErr result (StopsHere self.old) }
    {
        let unread = self.unread.bytes();
        if unread.is_empty() {
            return Ok(Front::Unended);
        }
        if self.lines >= self.most {
            return Err(LineStop::Limit);
        }
        let Some(end) = feed_place(unread) else {
            if unread.len() > MOST_KEPT {
                return Err(self.too_long());
            }
            return Ok(Front::Unended);
        };
        if end > MOST_KEPT {
            return Err(self.too_long());
        }
        let frame = line_frame(&self.listing, &unread[..end], self.lines)?;
        self.unread.pass(end + 1);
        self.lines += 1;
        Ok(Front::Whole(frame))
    }

    /// Takes the last line, where there is one, at the file's end.
    fn take_last(&mut self) -> Result<Option<Stamped>, LineStop>
        requires { LeavesUnended self.old }
        ensures same { IsSameLog self.old self.new }
        ensures stage { IsAtEnd self.new }
        ensures answer { IfOk result (FitsAnswer self.old self.new) }
        ensures last { IfOk result (TakesLast self.old self.new) }
        ensures stops { IfErr result (StopsAtEnd self.old) }
    {
        self.stage = Stage::Ended;
        let last = self.unread.bytes();
        if last.is_empty() {
            return Ok(None);
        }
        let frame = line_frame(&self.listing, last, self.lines)?;
        let count = last.len();
        self.unread.pass(count);
        self.lines += 1;
        Ok(frame)
    }

    /// Reads a piece more.
    fn read_on<D: Depot>(&mut self, depot: &mut D) -> Result<usize, LogStop>
        requires { LeavesUnended self.old }
        ensures same { IsSameLog self.old self.new }
        ensures lines { self.new.lines ≡ self.old.lines }
        ensures stage { self.new.stage ≡ self.old.stage }
        ensures count { IfOk result (λ count. self.new.taken ≡ self.old.taken + count) }
        ensures told { (D.state depot.new).told ≡ (D.state depot.old).told }
        ensures files { (D.state depot.new).files ≡ (D.state depot.old).files }
        ensures read { IfOk result (λ count. ReadsMore (D.state depot.old).told (D.state depot.old).files (source_of self.old).file self.old.taken count self.old.unread self.new.unread) }
        ensures stop { IfErr result (λ stop. stop ≡ Fault) }
        ensures cause { HasCause Read (source_of self.old).file (D.state depot.old) (D.state depot.new) result }
    {
        let Ok(count) = self.unread.read_on(depot, self.listing.file, self.taken) else {
            return Err(LogStop::Fault);
        };
        self.taken += count as u64;
        Ok(count)
    }

    /// Reads on to the next frame, to the log's end, or to what stops it.
    fn go_on<D: Depot>(&mut self, depot: &mut D) -> Result<Option<Stamped>, LogStop>
        requires { self.old.stage ≡ Open }
        ensures same { IsSameLog self.old self.new }
        ensures told { (D.state depot.new).told ≡ (D.state depot.old).told }
        ensures files { (D.state depot.new).files ≡ (D.state depot.old).files }
        ensures given { IfOk result (GivesOn (D.state depot.old).told (D.state depot.old).files self.old self.new) }
        ensures stops { IfErr result (StopsOn (D.state depot.old).told (D.state depot.old).files self.old) }
        ensures answer { IfOk result (FitsAnswer self.old self.new) }
        ensures goes_on { IfOk result (λ _. IsGoingOn self.new) }
        ensures later { (D.state depot.old).faults ≤ (D.state depot.new).faults }
        ensures fault { FaultsReading (source_of self.old) (D.state depot.old).faults (D.state depot.new).faults (D.state depot.new).blame result }
    {
        loop {
            match self.take_front()? {
                Front::Whole(Some(stamped)) => return Ok(Some(stamped)),
                Front::Whole(None) => {}
                Front::Unended => {
                    if self.read_on(depot)? == 0 {
                        return Ok(self.take_last()?);
                    }
                }
            }
        }
    }

    /// The next frame of the log with its stamp, or None at its end.
    ///
    /// A line ends at its line feed, and a last one may lack it; one carriage return before it is dropped. Else the log
    /// stops at `Fault` where a read failed, and at the first line that isn't taken: `Refused` with its number where it has
    /// a fault, `Limit` where it is one line too many. A reader that answered so, or that was at the end, answers the same
    /// from then on and reads no more. No memory is taken, so `Memory` never comes.
    pub fn next<D: Depot>(&mut self, depot: &mut D) -> Result<Option<Stamped>, LogStop>
        ensures source { source_of self.new ≡ source_of self.old }
        ensures most { most_of self.new ≡ most_of self.old }
        ensures told { (D.state depot.new).told ≡ (D.state depot.old).told }
        ensures files { (D.state depot.new).files ≡ (D.state depot.old).files }
        ensures given { GivesNext (D.state depot.old).told (D.state depot.old).files self.old self.new result }
        ensures answer { IfOk result (FitsAnswer self.old self.new) }
        ensures goes_on { IfOk result (λ _. IsGoingOn self.new) }
        ensures stopped { IfErr result (IsStopped self.new) }
        ensures over { StaysOver self.old self.new (D.state depot.old) (D.state depot.new) result }
        ensures later { (D.state depot.old).faults ≤ (D.state depot.new).faults }
        ensures fault { HasReadCause self.old (D.state depot.old) (D.state depot.new) result }
    {
        match self.stage {
            Stage::Stopped(stop) => Err(stop),
            Stage::Ended => Ok(None),
            Stage::Open => match self.go_on(depot) {
                Ok(found) => Ok(found),
                Err(stop) => {
                    self.stage = Stage::Stopped(stop);
                    Err(stop)
                }
            },
        }
    }
}
