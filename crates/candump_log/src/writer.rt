//! A writer of a log: lines of frames, which are appended to a file in pieces.
ghost use Rattle.std.specs.Prelude.{◌≡◌, ◌≢◌, ◌<◌, ◌≤◌, ◌+◌, ◌-◌, ◌*◌, ◌^◌, [], ◌++◌, List, length, true, All, IsSome, OnErr, OnOk};
ghost use Rattle.candump_line.specs.Line.{IsInterface, entry_text, line_text};
ghost use Rattle.candump_line.specs.Reading.{ReadsBack};
ghost use Rattle.gw_depot.specs.declared.outside.CallKind.TheVariants.{Append};
ghost use Rattle.gw_depot.specs.Files.{IsName};
ghost use Rattle.gw_depot.specs.Outside.{HasCause};

use crate::held::{HeldBytes, ROOM};
use can_frame::Frame;
use candump_line::frame_line;
use gw_base::Micros;
use gw_depot::{Depot, Failed};

/// A writer of a log. The lines that aren't appended yet lie in the value itself, at most 66,048 bytes; it takes no memory.
#[derive(Debug, Drop)]
pub struct LogWriter<'a> {
    file: &'a str,
    interface: &'a [u8],
    held: HeldBytes,
    ghost name: { IsName file.now },
    ghost named: { IsInterface interface.now },
}

impl<'a> LogWriter<'a> {
    ghost use Rattle.candump_log.specs.Writer.{file_of, held_of, interface_of};

    /// A writer to the end of the file, which holds nothing yet, for frames of that interface.
    pub fn new(file: &'a str, interface: &'a [u8]) -> LogWriter<'a>
        requires file { IsName file.now }
        requires name { IsInterface interface.now }
        ensures file { file_of result ≡ file.now }
        ensures interface { interface_of result ≡ interface.now }
        ensures held { held_of result ≡ [] }
    {
        LogWriter {
            file,
            interface,
            held: HeldBytes::new(),
        }
    }
}

impl LogWriter<'_> {
    ghost use Rattle.candump_log.specs.Writer.{IsSameFile, IsThere, KeepsAll, WritesLine, file_of, held_of, interface_of};

    /// Appends what is held. After `Failed` a beginning of it was appended, and the rest is held as before.
    pub fn flush<D: Depot>(&mut self, depot: &mut D) -> Result<(), Failed>
        requires there { IsThere (D.state depot.old) self.old }
        ensures same { IsSameFile self.old self.new }
        ensures there { IsThere (D.state depot.new) self.new }
        ensures told { (D.state depot.new).told ≡ (D.state depot.old).told }
        ensures done { OnOk result (held_of self.new ≡ []) }
        ensures text { KeepsAll (D.state depot.old) (D.state depot.new) self.old self.new }
        ensures cause { HasCause Append (file_of self.old) (D.state depot.old) (D.state depot.new) result }
    {
        loop {
            let piece = self.held.bytes();
            if piece.is_empty() {
                return Ok(());
            }
            let count = depot.append(self.file, piece)?;
            self.held.pass(count);
        }
    }

    /// Appends what is held, where there is no room for so many bytes behind it.
    fn make_room<D: Depot>(&mut self, depot: &mut D, count: usize) -> Result<(), Failed>
        requires few { count ≤ 66048 }
        requires there { IsThere (D.state depot.old) self.old }
        ensures same { IsSameFile self.old self.new }
        ensures there { IsThere (D.state depot.new) self.new }
        ensures told { (D.state depot.new).told ≡ (D.state depot.old).told }
        ensures room { OnOk result (length (held_of self.new) + count ≤ 66048) }
        ensures text { KeepsAll (D.state depot.old) (D.state depot.new) self.old self.new }
        ensures cause { HasCause Append (file_of self.old) (D.state depot.old) (D.state depot.new) result }
    {
        if self.held.bytes().len() + count > ROOM {
            return self.flush(depot);
        }
        Ok(())
    }

    /// Writes the line of a frame, as `write_line` does; before, where there is no room, what is held is appended.
    ///
    /// After `Failed` the line isn't written. A beginning of what was held was appended, and the rest is held as before.
    pub fn write<D: Depot>(
        &mut self,
        depot: &mut D,
        at: Micros,
        frame: &Frame,
    ) -> Result<(), Failed>
        requires date { at.0 < 10 ^ 16 }
        requires there { IsThere (D.state depot.old) self.old }
        ensures same { IsSameFile self.old self.new }
        ensures there { IsThere (D.state depot.new) self.new }
        ensures told { (D.state depot.new).told ≡ (D.state depot.old).told }
        ensures line { OnOk result (WritesLine (D.state depot.old) (D.state depot.new) self.old self.new at.0 frame.now) }
        ensures kept { OnErr result (KeepsAll (D.state depot.old) (D.state depot.new) self.old self.new) }
        ensures reads_back { at.0 < 2 ^ 32 * 10 ^ 6 → ReadsBack at.0 (interface_of self.old) frame.now }
        ensures one_line { All (λ b. 0x20 ≤ b) (entry_text at.0 (interface_of self.old) frame.now) }
        ensures cause { HasCause Append (file_of self.old) (D.state depot.old) (D.state depot.new) result }
    {
        let line = frame_line(at, self.interface, frame);
        self.make_room(depot, line.len())?;
        self.held.add(line.as_slice());
        Ok(())
    }
}
