ghost use Rattle.std.specs.Prelude.{◌≡◌, ◌<◌, ◌≤◌, true, length, IfOk, IsSome};
ghost use Rattle.gw_depot.specs.declared.outside.CallKind.TheVariants.{Read, Create, Append};
ghost use Rattle.gw_depot.specs.Fault.{HasCount};
ghost use Rattle.gw_depot.specs.Files.{IsName};
ghost use Rattle.gw_depot.specs.Outside.{DepotState, SinkState, HasCause, Reads, Creates, Appends, Says};

/// A call of the outside that failed: a file that can't be read, made or written, or text that can't be said.
#[derive(Clone, Copy, Debug, PartialEq, Eq)]
pub struct Failed;

/// The three kinds of call that a depot can be blamed for.
#[derive(Clone, Copy, Debug, PartialEq, Eq)]
pub enum CallKind {
    Read,
    Create,
    Append,
}

/// Files by name. A name has 1 to 64 bytes.
///
/// A depot may tell its contents (`told`), and then `files` is what each name holds. `faults` counts its failed
/// calls and never falls; a count stands in a `u64` and stays at its last value. `blame` is the kind and the name
/// of the last failed call, none at first.
pub trait Depot {
    /// Whether contents are told, what each name holds where they are, and how calls have failed.
    ghost state: { Self → DepotState };

    /// Fills a prefix of `into` with the bytes of the file from `at` on, and answers how many. It answers 0
    /// exactly at or past the file's end. A file that isn't there is a fault. No file is changed.
    fn read(&mut self, name: &str, at: u64, into: &mut [u8]) -> Result<usize, Failed>
        requires name { IsName name.now }
        requires into { 0 < length into.old }
        ensures told { (state self.new).told ≡ (state self.old).told }
        ensures files { (state self.new).files ≡ (state self.old).files }
        ensures bound { IfOk result (λ count. count ≤ length into.old) }
        ensures read { Reads (state self.old) name.now at into.new result }
        ensures cause { HasCause Read name.now (state self.old) (state self.new) result };

    /// Makes the file empty, new or not. After a fault it is as before, or empty. Other files stay, after a fault
    /// too.
    fn create(&mut self, name: &str) -> Result<(), Failed>
        requires name { IsName name.now }
        ensures told { (state self.new).told ≡ (state self.old).told }
        ensures created { Creates (state self.old) (state self.new) name.now result }
        ensures cause { HasCause Create name.now (state self.old) (state self.new) result };

    /// Appends a prefix of the piece, at least one byte, and answers its length. After a fault nothing was
    /// appended. Other files stay, after a fault too.
    fn append(&mut self, name: &str, piece: &[u8]) -> Result<usize, Failed>
        requires name { IsName name.now }
        requires piece { 0 < length piece.now }
        requires there { (state self.old).told ≡ true → IsSome ((state self.old).files name.now) }
        ensures told { (state self.new).told ≡ (state self.old).told }
        ensures bound { IfOk result (λ count. (0 < count) × (count ≤ length piece.now)) }
        ensures appended { Appends (state self.old) (state self.new) name.now piece.now result }
        ensures cause { HasCause Append name.now (state self.old) (state self.new) result };
}

/// A place for what the program says, as its standard output.
///
/// A sink may tell what was said (`told`), and then `said` is all of it. `faults` counts its failed calls, as a
/// depot's does.
pub trait Sink {
    /// Whether what was said is told, the bytes said so far where it is, and how often a call has failed.
    ghost state: { Self → SinkState };

    /// Says a prefix of the piece, at least one byte, and answers its length. After a fault nothing was said.
    fn put(&mut self, piece: &[u8]) -> Result<usize, Failed>
        requires { 0 < length piece.now }
        ensures told { (state self.new).told ≡ (state self.old).told }
        ensures bound { IfOk result (λ count. (0 < count) × (count ≤ length piece.now)) }
        ensures said { Says (state self.old) (state self.new) piece.now result }
        ensures cause { HasCount (state self.old).faults (state self.new).faults result };
}
