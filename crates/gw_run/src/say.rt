//! What the program says of a status.
ghost use Rattle.std.specs.Prelude.{◌≡◌, true, if◌then◌else◌};
ghost use Rattle.gw_depot.specs.Fault.{HasCount};
ghost use Rattle.gw_run.specs.Status.{is_done};
ghost use Rattle.gw_run.specs.Say.{SaysAll, AfterTelling, TellsLine};

use crate::status::{FileRole, Said, Status};
use gw_depot::{Failed, Sink};
use std::alloc::Global;

/// Says all the bytes. After a fault some of them were said.
pub(crate) fn say_all<K: Sink>(say: &mut K, bytes: &[u8]) -> Result<(), Failed>
    ensures told { (K.state say.new).told ≡ (K.state say.old).told }
    ensures said { (K.state say.old).told ≡ true → SaysAll (K.state say.old).said (K.state say.new).said bytes.now result }
    ensures cause { HasCount (K.state say.old).faults (K.state say.new).faults result }
{
    let mut done = 0;
    while done < bytes.len() {
        done += say.put(&bytes[done..])?;
    }
    Ok(())
}

/// What becomes of a status that can't be said: an `Ok` becomes the other one.
fn unless_done(status: Status, unsaid: Status) -> Status
    ensures { result ≡ (if is_done status then unsaid else status) }
{
    if status.is_done() { unsaid } else { status }
}

/// Says the status's text, with the name of the bus that it speaks of, and a line feed. An `Ok` that can't be said becomes a fault, or `Memory` where the text
/// finds no memory; every other status stays.
pub(crate) fn tell<K: Sink>(alloc: Global, status: Status, name: &str, say: &mut K) -> Status
    ensures told { (K.state say.new).told ≡ (K.state say.old).told }
    ensures answer { AfterTelling status (K.state say.old).faults (K.state say.new).faults result }
    ensures said { (K.state say.old).told ≡ true → TellsLine name.now status (K.state say.old) (K.state say.new) result }
{
    let said = Said { status, name };
    let Ok(line) = format!(in alloc; "{said}\n") else {
        return unless_done(status, Status::Memory);
    };
    match say_all(say, line.as_bytes()) {
        Ok(()) => status,
        Err(Failed) => unless_done(status, Status::WriteFault(FileRole::Say)),
    }
}
