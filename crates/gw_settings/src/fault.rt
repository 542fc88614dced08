use crate::{Key, TableKind};
use gw_base::Memory;
use std::fmt;
use thiserror::Error;

/// What is wrong at a place of the configuration.
#[derive(Clone, Copy, Debug, PartialEq, Eq)]
pub enum FaultKind {
    /// The text isn't TOML, or no UTF-8.
    NotToml,
    /// A required key isn't there.
    Missing,
    /// A value is of another TOML kind than the key's, or an element of another kind than its array's.
    WrongKind,
    /// A value of the right kind is outside its range, length, characters or list.
    OutOfRange,
    /// The table has a key that isn't known.
    UnknownKey,
    /// A name or a file is used twice.
    Repeated,
}

/// A fault of the configuration, and its place.
#[derive(Clone, Copy, Debug, PartialEq, Eq)]
pub struct ConfigFault {
    /// What is wrong.
    pub kind: FaultKind,
    /// The kind of the table; `Top` for `NotToml`.
    pub table: TableKind,
    /// The table's number in its array, from 0; 0 for the top table.
    pub index: u32,
    /// The key; `Other` for `NotToml` and `UnknownKey`.
    pub key: Key,
}

/// The cause in words, as `wrong kind`.
impl fmt::Display for FaultKind {
    ghost use Rattle.std.specs.Prelude.{Some};
    ghost use Rattle.gw_settings.specs.Said.{cause_text};

    ghost output = { λ kind. Some (cause_text kind) };

    fn fmt<W: fmt::Write>(&self, f: &mut fmt::Formatter<W>) -> fmt::Result {
        match self {
            FaultKind::NotToml => write!(f, "not toml"),
            FaultKind::Missing => write!(f, "missing"),
            FaultKind::WrongKind => write!(f, "wrong kind"),
            FaultKind::OutOfRange => write!(f, "out of range"),
            FaultKind::UnknownKey => write!(f, "unknown key"),
            FaultKind::Repeated => write!(f, "repeated"),
        }
    }
}

/// The path and the cause: `linger: wrong kind`, `bus[1].name: repeated`, `bus[0].?: unknown key`, `text: not toml`.
impl fmt::Display for ConfigFault {
    ghost use Rattle.std.specs.Prelude.{Some};
    ghost use Rattle.gw_settings.specs.Said.{fault_text};

    ghost output = { λ fault. Some (fault_text fault) };

    fn fmt<W: fmt::Write>(&self, f: &mut fmt::Formatter<W>) -> fmt::Result {
        let ConfigFault {
            kind,
            table,
            index,
            key,
        } = self;
        match (kind, table) {
            (FaultKind::NotToml, _) => write!(f, "text: {kind}"),
            (_, TableKind::Top) => write!(f, "{key}: {kind}"),
            _ => {
                let entries = table.key();
                write!(f, "{entries}[{index}].{key}: {kind}")
            }
        }
    }
}

/// Why a configuration wasn't read.
#[derive(Clone, Copy, Debug, PartialEq, Eq, Error)]
pub enum ConfigError {
    /// The text has this fault.
    #[error("the configuration has a fault")]
    Fault(ConfigFault),
    /// Memory ran out, which says nothing of the text.
    #[error("out of memory")]
    Memory,
}

impl From<ConfigFault> for ConfigError {
    ghost use Rattle.std.specs.Prelude.{◌≡◌};
    ghost use Rattle.gw_settings.specs.declared.fault.ConfigError.TheVariants.{Fault};

    ghost from_gives = { λ fault made. made ≡ Fault fault };

    fn from(fault: ConfigFault) -> ConfigError {
        ConfigError::Fault(fault)
    }
}

impl From<Memory> for ConfigError {
    ghost use Rattle.std.specs.Prelude.{◌≡◌};
    ghost use Rattle.gw_settings.specs.declared.fault.ConfigError.TheVariants as error;

    ghost from_gives = { λ _ made. made ≡ error.Memory };

    fn from(_: Memory) -> ConfigError {
        ConfigError::Memory
    }
}
