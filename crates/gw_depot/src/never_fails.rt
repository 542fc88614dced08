ghost use Rattle.std.specs.Prelude.{◌≡◌, ◌-◌, ◌<◌, ◌≤◌, ℕ, List, [], None, Some, length, take, false, IfOk, OnOk, OnErr, IsOk};
ghost use Rattle.gw_depot.specs.Files.{IsName, ReadsFile, ReadsAll, SetsFile, SameFiles};

use crate::mem_files::MemFiles;
use crate::outside::{Depot, Failed};
use crate::piece::copy_piece;
use gw_base::Memory;
use std::alloc::Global;

/// A depot that never fails, for tests. It reads from what was set, keeps nothing of what is appended, and doesn't
/// tell its contents.
#[derive(Debug, Drop)]
pub struct NeverFails {
    files: MemFiles,
}

impl NeverFails {
    ghost use Rattle.gw_depot.specs.NeverFails.{reads_as};

    /// A depot in which every file reads as empty; it takes no memory.
    pub fn new(alloc: Global) -> NeverFails
        ensures { (name : List ℕ) → reads_as result name ≡ Some [] }
    {
        NeverFails {
            files: MemFiles::new(alloc),
        }
    }

    /// Sets what the file reads as. After `Memory` every file is as before.
    pub fn set(&mut self, name: &str, bytes: &[u8]) -> Result<(), Memory>
        ensures ok { OnOk result (SetsFile (reads_as self.old) (reads_as self.new) name.now bytes.now) }
        ensures err { OnErr result (SameFiles (reads_as self.old) (reads_as self.new)) }
    {
        self.files.set(name, bytes)
    }
}

impl Depot for NeverFails {
    ghost use Rattle.gw_depot.specs.NeverFails.{reads_as};

    ghost state = { λ _. record { told = false; files = λ _. None; faults = 0; blame = None } };

    fn read(&mut self, name: &str, at: u64, into: &mut [u8]) -> Result<usize, Failed>
        requires name { IsName name.now }
        requires into { 0 < length into.old }
        ensures kept { self.new ≡ self.old }
        ensures bound { IfOk result (λ count. count ≤ length into.old) }
        ensures done { IsOk result }
        ensures read { IfOk result (λ count. ReadsFile (reads_as self.old) name.now at count (take count into.new)) }
        ensures count { IfOk result (ReadsAll (reads_as self.old) name.now at (length into.old)) }
    {
        let bytes = self.files.get(name).unwrap_or(&[]);
        let most = into.len();
        Ok(copy_piece(bytes, at, most, into))
    }

    fn create(&mut self, _name: &str) -> Result<(), Failed>
        ensures kept { self.new ≡ self.old }
        ensures done { IsOk result }
    {
        Ok(())
    }

    fn append(&mut self, _name: &str, piece: &[u8]) -> Result<usize, Failed>
        requires { 0 < length piece.now }
        ensures kept { self.new ≡ self.old }
        ensures bound { IfOk result (λ count. (0 < count) × (count ≤ length piece.now)) }
        ensures done { IsOk result }
        ensures whole { IfOk result (λ count. count ≡ length piece.now) }
    {
        Ok(piece.len())
    }
}
