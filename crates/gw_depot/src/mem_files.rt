ghost use Rattle.std.specs.Prelude.{◌≡◌, ◌≤◌, ◌<◌, ℕ, List, None, length, option_copied, IfOk, OnOk, OnErr, IsSome};
ghost use Rattle.gw_depot.specs.Files.{AppendsFile, SetsFile, SameFiles};

use gw_base::Memory;
use std::alloc::Global;
use std::collections::BTreeMap;

/// Files in memory by name.
#[derive(Debug, Drop)]
pub struct MemFiles {
    alloc: Global,
    by_name: BTreeMap<String, Vec<u8>>,
}

#[tactic(auto, unfolding(crate::specs::MemFiles::held))]
impl MemFiles {
    ghost use Rattle.gw_depot.specs.MemFiles.{held};

    /// No file; it takes no memory.
    pub fn new(alloc: Global) -> MemFiles
        ensures { (name : List ℕ) → held result name ≡ None }
    {
        MemFiles {
            alloc,
            by_name: BTreeMap::new(alloc),
        }
    }

    /// What the file holds, or None where it isn't there.
    pub fn get(&self, name: &str) -> Option<&[u8]>
        ensures { option_copied result ≡ held self.now name.now }
    {
        match self.by_name.get(name) {
            Some(bytes) => Some(bytes.as_slice()),
            None => None,
        }
    }

    /// Sets what the file holds, new or not.
    pub fn set(&mut self, name: &str, bytes: &[u8]) -> Result<(), Memory>
        ensures ok { OnOk result (SetsFile (held self.old) (held self.new) name.now bytes.now) }
        ensures err { OnErr result (SameFiles (held self.old) (held self.new)) }
    {
        let name = String::from_str(self.alloc, name)?;
        let bytes = bytes.to_vec(self.alloc)?;
        self.by_name.insert(name, bytes)?;
        Ok(())
    }

    /// Appends the whole piece to the file, which is there, and answers the piece's length.
    pub fn append(&mut self, name: &str, piece: &[u8]) -> Result<usize, Memory>
        requires { IsSome (held self.old name.now) }
        ensures appended { AppendsFile (held self.old) (held self.new) name.now piece.now result }
        ensures whole { IfOk result (λ count. count ≡ length piece.now) }
    {
        let Some(bytes) = self.by_name.get_mut(name) else {
            unreachable!();
        };
        bytes.extend_from_slice(piece)?;
        Ok(piece.len())
    }
}
