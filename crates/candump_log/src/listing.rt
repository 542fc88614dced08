//! Where a log is read from, and which frames are listed from it, as a reader keeps it.
ghost use Rattle.gw_depot.specs.Files.{IsName};

/// A log of one interface, as it is to be read.
#[derive(Clone, Copy, Debug)]
pub(crate) struct Listing<'a> {
    /// The name of the file that holds the log.
    pub(crate) file: &'a str,
    /// The name of the interface whose frames the log lists.
    pub(crate) interface: &'a [u8],
    /// Whether the bus has CAN FD; without it FD frames are passed over.
    pub(crate) fd: bool,
    ghost name: { IsName file.now },
}
