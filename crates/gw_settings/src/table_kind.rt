ghost use Rattle.std.specs.Prelude.{◌≡◌};
ghost use Rattle.gw_settings.specs.Names.{array_key};

use crate::Key;

/// A kind of table: the top table, or the entries of one of its arrays of tables.
#[derive(Clone, Copy, Debug, PartialEq, Eq)]
pub enum TableKind {
    /// The top table.
    Top,
    /// The buses.
    Bus,
    /// The channels.
    Channel,
    /// The paths.
    Path,
    /// The interface paths.
    Interface,
    /// The cancellations.
    Cancel,
}

impl TableKind {
    /// The key of the top table that holds the tables of this kind; `Other` for the top table itself.
    pub fn key(self) -> Key
        ensures { result ≡ array_key self }
    {
        match self {
            TableKind::Top => Key::Other,
            TableKind::Bus => Key::Bus,
            TableKind::Channel => Key::Channel,
            TableKind::Path => Key::Path,
            TableKind::Interface => Key::Interface,
            TableKind::Cancel => Key::Cancel,
        }
    }
}
