ghost use Rattle.std.specs.Prelude.{◌≡◌, ◌-◌, ◌<◌, ◌≤◌, ◌↔◌, ◌⊎◌, ℕ, List, None, Some, length, take, min, option_copied, IfOk, OnOk, OnErr, IsErr, IsSome};
ghost use Rattle.gw_depot.specs.declared.outside.CallKind.TheVariants.{Read, Create, Append};
ghost use Rattle.gw_depot.specs.Fault.{no_faults, with_fault};
ghost use Rattle.gw_depot.specs.Files.{IsName, ReadsFile, CreatesFile, AppendsFile, SetsFile, SameFiles};
ghost use Rattle.gw_depot.specs.Outside.{HasCause};
ghost use Rattle.gw_depot.specs.Plan.{no_plan, FailsNext, after_call, with_failure, with_most};

use crate::faults::Faults;
use crate::mem_files::MemFiles;
use crate::outside::{CallKind, Depot, Failed};
use crate::piece::copy_piece;
use crate::plan::Plan;
use gw_base::Memory;
use std::alloc::Global;

/// A depot in memory, for tests. It tells its contents.
#[derive(Debug, Drop)]
pub struct MemDepot {
    files: MemFiles,
    faults: Faults,
    plan: Plan,
}

impl MemDepot {
    ghost use Rattle.gw_depot.specs.MemDepot.{files_of, faults_of, plan_of};

    /// A depot with no files; it takes no memory.
    pub fn new(alloc: Global) -> MemDepot
        ensures files { (name : List ℕ) → files_of result name ≡ None }
        ensures faults { faults_of result ≡ no_faults }
        ensures plan { plan_of result ≡ no_plan }
    {
        MemDepot {
            files: MemFiles::new(alloc),
            faults: Faults::new(),
            plan: Plan::new(),
        }
    }

    /// Sets what the file holds, new or not. After `Memory` every file is as before.
    pub fn set(&mut self, name: &str, bytes: &[u8]) -> Result<(), Memory>
        ensures ok { OnOk result (SetsFile (files_of self.old) (files_of self.new) name.now bytes.now) }
        ensures err { OnErr result (SameFiles (files_of self.old) (files_of self.new)) }
        ensures faults { faults_of self.new ≡ faults_of self.old }
        ensures plan { plan_of self.new ≡ plan_of self.old }
    {
        self.files.set(name, bytes)
    }

    /// Makes the nth later call of the kind fail, counted from 1, and no other of that kind; with 0 none fails.
    pub fn fail(&mut self, kind: CallKind, nth: u32)
        ensures files { files_of self.new ≡ files_of self.old }
        ensures faults { faults_of self.new ≡ faults_of self.old }
        ensures plan { plan_of self.new ≡ with_failure (plan_of self.old) kind nth }
    {
        self.plan.fail(kind, nth);
    }

    /// Bounds how many bytes one read or append takes.
    pub fn at_most(&mut self, bytes: usize)
        requires { 0 < bytes }
        ensures files { files_of self.new ≡ files_of self.old }
        ensures faults { faults_of self.new ≡ faults_of self.old }
        ensures plan { plan_of self.new ≡ with_most (plan_of self.old) bytes }
    {
        self.plan.bound(bytes);
    }

    /// What the file holds, or None where it isn't there.
    pub fn contents(&self, name: &str) -> Option<&[u8]>
        ensures { option_copied result ≡ files_of self.now name.now }
    {
        self.files.get(name)
    }
}

impl Depot for MemDepot {
    ghost use Rattle.gw_depot.specs.MemDepot.{ReadsAsPlanned, files_of, faults_of, plan_of, state_of};

    ghost state = { λ depot. state_of depot };

    fn read(&mut self, name: &str, at: u64, into: &mut [u8]) -> Result<usize, Failed>
        requires name { IsName name.now }
        requires into { 0 < length into.old }
        ensures files { files_of self.new ≡ files_of self.old }
        ensures bound { IfOk result (λ count. count ≤ length into.old) }
        ensures read { IfOk result (λ count. ReadsFile (files_of self.old) name.now at count (take count into.new)) }
        ensures count { IfOk result (ReadsAsPlanned self.old name.now at (length into.old)) }

        // A call fails where it was set to, or where the file isn't there.
        ensures fails { IsErr result ↔ (FailsNext (plan_of self.old) Read ⊎ (files_of self.old name.now ≡ None)) }
        ensures ok { OnOk result (faults_of self.new ≡ faults_of self.old) }
        ensures err { OnErr result (faults_of self.new ≡ with_fault (faults_of self.old) Read name.now) }
        ensures cause { HasCause Read name.now (state_of self.old) (state_of self.new) result }
        ensures plan { plan_of self.new ≡ after_call (plan_of self.old) Read }
    {
        if self.plan.fails_now(CallKind::Read) {
            return Err(self.faults.count(CallKind::Read, name));
        }
        let Some(bytes) = self.files.get(name) else {
            return Err(self.faults.count(CallKind::Read, name));
        };
        let most = self.plan.takes(into.len());
        Ok(copy_piece(bytes, at, most, into))
    }

    fn create(&mut self, name: &str) -> Result<(), Failed>
        requires name { IsName name.now }
        ensures created { CreatesFile (files_of self.old) (files_of self.new) name.now result }

        // A call fails where it was set to, or where memory is wanting; then every file is as before.
        ensures fails { FailsNext (plan_of self.old) Create → IsErr result }
        ensures ok { OnOk result (faults_of self.new ≡ faults_of self.old) }
        ensures err { OnErr result (faults_of self.new ≡ with_fault (faults_of self.old) Create name.now) }
        ensures cause { HasCause Create name.now (state_of self.old) (state_of self.new) result }
        ensures kept { OnErr result (SameFiles (files_of self.old) (files_of self.new)) }
        ensures plan { plan_of self.new ≡ after_call (plan_of self.old) Create }
    {
        let fails = self.plan.fails_now(CallKind::Create);
        if fails || self.files.set(name, &[]).is_err() {
            return Err(self.faults.count(CallKind::Create, name));
        }
        Ok(())
    }

    fn append(&mut self, name: &str, piece: &[u8]) -> Result<usize, Failed>
        requires name { IsName name.now }
        requires piece { 0 < length piece.now }
        requires there { IsSome (files_of self.old name.now) }
        ensures bound { IfOk result (λ count. (0 < count) × (count ≤ length piece.now)) }
        ensures appended { AppendsFile (files_of self.old) (files_of self.new) name.now piece.now result }
        ensures count { IfOk result (λ count. count ≡ min (plan_of self.old).most (length piece.now)) }

        // A call fails where it was set to, or where memory is wanting.
        ensures fails { FailsNext (plan_of self.old) Append → IsErr result }
        ensures ok { OnOk result (faults_of self.new ≡ faults_of self.old) }
        ensures err { OnErr result (faults_of self.new ≡ with_fault (faults_of self.old) Append name.now) }
        ensures cause { HasCause Append name.now (state_of self.old) (state_of self.new) result }
        ensures plan { plan_of self.new ≡ after_call (plan_of self.old) Append }
    {
        if self.plan.fails_now(CallKind::Append) {
            return Err(self.faults.count(CallKind::Append, name));
        }
        let count = self.plan.takes(piece.len());
        match self.files.append(name, &piece[..count]) {
            Ok(count) => Ok(count),
            Err(_) => Err(self.faults.count(CallKind::Append, name)),
        }
    }
}
