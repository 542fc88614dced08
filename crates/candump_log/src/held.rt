//! Bytes of a file that are held between two calls of a depot: read and not yet taken, or written and not yet appended.
ghost use Rattle.std.specs.Prelude.{◌≡◌, ◌<◌, ◌≤◌, ◌+◌, ◌-◌, [], ◌++◌, length, take, drop, IfOk, OnErr};
ghost use Rattle.gw_depot.specs.declared.outside.CallKind.TheVariants.{Read};
ghost use Rattle.gw_depot.specs.Files.{IsName};
ghost use Rattle.gw_depot.specs.Outside.{HasCause};
ghost use Rattle.candump_log.specs.Held.{ReadsMore};

use gw_depot::{Depot, Failed};
use std::marker::Model;

/// How many bytes one read or one append may have: 65,536, and as many as may be left of a line.
pub(crate) const ROOM: usize = 66_048;

/// Bytes that are held. They lie in the value itself.
#[derive(Debug, Drop)]
pub(crate) struct HeldBytes {
    bytes: [u8; ROOM],
    start: usize,
    end: usize,
}

impl Model for HeldBytes {
    ghost use Rattle.std.specs.Prelude.{◌≡◌, ◌-◌, ◌≤◌, ℕ, List, length, take, drop};

    ghost Value = { List ℕ };

    ghost view = { λ held. take (held.end - held.start) (drop held.start held.bytes) };

    ghost invariant = { λ held. (held.start ≤ held.end) × (held.end ≤ 66048) };
}

/// Moves the bytes between two places to the front.
fn move_to_front(bytes: &mut [u8], start: usize, end: usize)
    requires within { (start ≤ end) × (end ≤ length bytes.old) }
    ensures moved { take (end - start) bytes.new ≡ take (end - start) (drop start bytes.old) }
    ensures size { length bytes.new ≡ length bytes.old }
{
    if start > 0 {
        bytes.copy_within(start..end, 0);
    }
}

/// Reads the file on from that place into what is behind so many bytes.
fn read_behind<D: Depot>(
    depot: &mut D,
    file: &str,
    at: u64,
    held: usize,
    bytes: &mut [u8],
) -> Result<usize, Failed>
    requires name { IsName file.now }
    requires room { held < length bytes.old }
    ensures told { (D.state depot.new).told ≡ (D.state depot.old).told }
    ensures files { (D.state depot.new).files ≡ (D.state depot.old).files }
    ensures bound { IfOk result (λ count. held + count ≤ length bytes.old) }
    ensures size { length bytes.new ≡ length bytes.old }
    ensures kept { take held bytes.new ≡ take held bytes.old }
    ensures read { IfOk result (λ count. ReadsMore (D.state depot.old).told (D.state depot.old).files file.now at count (take held bytes.old) (take (held + count) bytes.new)) }
    ensures cause { HasCause Read file.now (D.state depot.old) (D.state depot.new) result }
{
    let count = depot.read(file, at, &mut bytes[held..])?;
    Ok(count)
}

impl HeldBytes {
    /// Nothing is held yet.
    pub(crate) fn new() -> HeldBytes
        ensures { result ≡ [] }
    {
        HeldBytes {
            bytes: [0; ROOM],
            start: 0,
            end: 0,
        }
    }

    /// The bytes.
    pub(crate) fn bytes(&self) -> &[u8]
        ensures bytes { result.now ≡ self.now }
        ensures room { length result.now ≤ 66048 }
    {
        &self.bytes[self.start..self.end]
    }

    /// Lets go of so many at the front.
    pub(crate) fn pass(&mut self, count: usize)
        requires { count ≤ length self.old }
        ensures { self.new ≡ drop count self.old }
    {
        self.start += count;
    }

    /// Adds bytes behind them.
    pub(crate) fn add(&mut self, more: &[u8])
        requires { length self.old + length more.now ≤ 66048 }
        ensures { self.new ≡ self.old ++ more.now }
    {
        let held = self.end - self.start;
        move_to_front(&mut self.bytes, self.start, self.end);
        self.bytes[held..held + more.len()].copy_from_slice(more);
        self.start = 0;
        self.end = held + more.len();
    }

    /// Reads the file on from that place, as far as there is room, and adds what came.
    pub(crate) fn read_on<D: Depot>(
        &mut self,
        depot: &mut D,
        file: &str,
        at: u64,
    ) -> Result<usize, Failed>
        requires name { IsName file.now }
        requires room { length self.old < 66048 }
        ensures told { (D.state depot.new).told ≡ (D.state depot.old).told }
        ensures files { (D.state depot.new).files ≡ (D.state depot.old).files }
        ensures bound { length self.new ≤ 66048 }
        ensures kept { OnErr result (self.new ≡ self.old) }
        ensures read { IfOk result (λ count. ReadsMore (D.state depot.old).told (D.state depot.old).files file.now at count self.old self.new) }
        ensures cause { HasCause Read file.now (D.state depot.old) (D.state depot.new) result }
    {
        let held = self.end - self.start;
        move_to_front(&mut self.bytes, self.start, self.end);
        self.start = 0;
        self.end = held;
        let count = read_behind(depot, file, at, held, &mut self.bytes)?;
        self.end = held + count;
        Ok(count)
    }
}
