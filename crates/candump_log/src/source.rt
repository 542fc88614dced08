//! Where a log is read from, and which frames its bus has.
/// A log of one interface, as it is to be read.
pub trait LogSource {
    ghost use Rattle.std.specs.Prelude.{◌≡◌};
    ghost use Rattle.candump_line.specs.Line.{IsInterface};
    ghost use Rattle.candump_log.specs.Source.{Source};
    ghost use Rattle.gw_depot.specs.Files.{IsName};

    ghost source: { Self → Source };

    /// The name of the file that holds the log.
    fn file(&self) -> &str
        ensures file { result.now ≡ (source self.now).file }
        ensures name { IsName result.now };

    /// The name of the interface whose frames the log lists.
    fn interface(&self) -> &[u8]
        ensures interface { result.now ≡ (source self.now).interface }
        ensures name { IsInterface result.now };

    /// Whether the bus has CAN FD; without it FD frames are passed over.
    fn is_fd(&self) -> bool
        ensures { result ≡ (source self.now).fd };
}
