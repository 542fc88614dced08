//! Whole files over a depot that reads and appends in pieces.
ghost use Rattle.std.specs.Prelude.{◌≡◌, ◌<◌, ◌≤◌, true, IfErr, IfOk, IsSome, MatchBool, Some};
ghost use Rattle.gw_depot.specs.declared.outside.CallKind.TheVariants.{Read, Append};
ghost use Rattle.gw_depot.specs.Outside.{HasCause};
ghost use Rattle.gw_depot.specs.Files.{IsName};
ghost use Rattle.gw_run.specs.Whole.{AppendsAll, FaultsOn, HoldsShort, StopsReading};

use gw_base::Bytes;
use gw_depot::{Depot, Failed};
use std::alloc::Global;

/// How many bytes one read asks for.
const PIECE: usize = 4096;

pub(crate) fn are_same(some: &[u8], other: &[u8]) -> bool
    ensures { MatchBool result (some.now ≡ other.now) (¬ (some.now ≡ other.now)) }
{
    some == other
}

/// Why a file wasn't read whole.
#[derive(Clone, Copy, Debug, PartialEq, Eq)]
pub(crate) enum ReadStop {
    /// A read failed.
    Fault,
    Memory,
    /// The file has more bytes than it may.
    TooLong,
}

/// The file's bytes, of which there may be so many. A file that isn't there is a fault.
pub(crate) fn read_whole<D: Depot>(
    alloc: Global,
    depot: &mut D,
    name: &str,
    most: usize,
) -> Result<Bytes, ReadStop>
    requires { IsName name.now }
    ensures told { (D.state depot.new).told ≡ (D.state depot.old).told }
    ensures files { (D.state depot.new).files ≡ (D.state depot.old).files }
    ensures whole { (D.state depot.old).told ≡ true → IfOk result (HoldsShort (D.state depot.old).files name.now most) }
    ensures stopped { (D.state depot.old).told ≡ true → IfErr result (StopsReading (D.state depot.old).files name.now most) }
    ensures later { (D.state depot.old).faults ≤ (D.state depot.new).faults }
    ensures fault { IfErr result (FaultsOn name.now (D.state depot.old).faults (D.state depot.new).faults (D.state depot.new).blame) }
{
    let mut piece = [0u8; PIECE];
    let mut bytes = Bytes::new(alloc);
    loop {
        let done = bytes.items().len();
        let Ok(count) = depot.read(name, done as u64, &mut piece) else {
            return Err(ReadStop::Fault);
        };
        if count == 0 {
            return Ok(bytes);
        }
        if count > most - done {
            return Err(ReadStop::TooLong);
        }
        let Ok(()) = bytes.append(&piece[..count]) else {
            return Err(ReadStop::Memory);
        };
    }
}

/// Appends all the bytes to a file that is there. After a fault some of them were appended.
pub(crate) fn append_all<D: Depot>(depot: &mut D, name: &str, bytes: &[u8]) -> Result<(), Failed>
    requires name { IsName name.now }
    requires there { (D.state depot.old).told ≡ true → IsSome ((D.state depot.old).files name.now) }
    ensures told { (D.state depot.new).told ≡ (D.state depot.old).told }
    ensures appended { (D.state depot.old).told ≡ true → AppendsAll (D.state depot.old).files (D.state depot.new).files name.now bytes.now result }
    ensures cause { HasCause Append name.now (D.state depot.old) (D.state depot.new) result }
{
    let mut done = 0;
    while done < bytes.len() {
        done += depot.append(name, &bytes[done..])?;
    }
    Ok(())
}
