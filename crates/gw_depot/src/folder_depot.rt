//! The files of the current folder.
ghost use Rattle.std.specs.Prelude.{◌≡◌, None, false};
ghost use Rattle.gw_depot.specs.Fault.{no_faults};

use crate::faults::Faults;
use crate::open_files::OpenFiles;
use crate::outside::{CallKind, Depot, Failed};
use std::alloc::Global;
use std::fs::File;
use std::marker::Model;
use std::rt::Files;

/// The files of the program's current folder. It doesn't tell its contents.
///
/// A file is opened at the first call for its name, and stays open: a log that is replaced by name while it is read is read to
/// its end as it was. A file that isn't there is a fault of a read and of an append. So is, before anything is cut or written:
/// to read what isn't a regular file; to write what is neither that nor a character device; to write a file that is open under
/// another name, that another run has locked, or that the standard output goes to. What is written is brought to its device
/// before an append answers. Contracts see the faults.
#[derive(Drop)]
pub struct FolderDepot<'a, R: Files<File = File>> {
    rt: &'a R,
    files: OpenFiles,
    faults: Faults,
}

impl<'a, R: Files<File = File>> Model for FolderDepot<'a, R> {
    ghost use Rattle.gw_depot.specs.Fault.{Faults};

    ghost Value = { Faults };

    ghost view = { λ a. a.faults };
}

impl<'a, R: Files<File = File>> FolderDepot<'a, R> {
    /// The current folder; nothing is opened yet.
    pub fn new(alloc: Global, rt: &'a R) -> FolderDepot<'a, R>
        ensures { result ≡ no_faults }
    {
        FolderDepot {
            rt,
            files: OpenFiles::new(alloc),
            faults: Faults::new(),
        }
    }
}

impl<R: Files<File = File>> Depot for FolderDepot<'_, R> {
    ghost state = { λ depot. record { told = false; files = λ _. None; faults = depot.count; blame = depot.blame } };

    fn read(&mut self, name: &str, at: u64, into: &mut [u8]) -> Result<usize, Failed> {
        match self.files.read_at(self.rt, name, at, into) {
            Ok(count) => Ok(count),
            Err(_) => Err(self.faults.count(CallKind::Read, name)),
        }
    }

    fn create(&mut self, name: &str) -> Result<(), Failed> {
        match self.files.create(self.rt, name) {
            Ok(_) => Ok(()),
            Err(_) => Err(self.faults.count(CallKind::Create, name)),
        }
    }

    fn append(&mut self, name: &str, piece: &[u8]) -> Result<usize, Failed> {
        match self.files.append(self.rt, name, piece) {
            Ok(count) => Ok(count),
            Err(_) => Err(self.faults.count(CallKind::Append, name)),
        }
    }
}
