//! The search for the first conflict: kind by kind, and each kind entry by entry.
ghost use Rattle.std.specs.Prelude.{◌≡◌};
ghost use Rattle.route_check.specs.Search.{second_count, IsAny, IsFirstAmong, IsOfEntry, IsOfKind, IsOfTable, IsOfTables};

use crate::holds::has_conflict;
use crate::names::{entry_count, name_count};
use crate::{Conflict, ConflictKind, Place};
use gw_config::Config;

/// The first conflict.
pub(crate) fn first_conflict(config: &Config) -> Option<Conflict>
    ensures { IsFirstAmong config.now IsAny result }
{
    for kind in ConflictKind::ALL {
        if let Some(conflict) = first_of_kind(config, kind) {
            return Some(conflict);
        }
    }
    None
}

/// The first conflict of a kind.
fn first_of_kind(config: &Config, kind: ConflictKind) -> Option<Conflict>
    ensures { IsFirstAmong config.now (IsOfKind kind) result }
{
    for place in Place::ALL {
        if let Some(conflict) = first_of_table(config, kind, place) {
            return Some(conflict);
        }
    }
    None
}

/// The first conflict of a kind at the entries of a table.
fn first_of_table(config: &Config, kind: ConflictKind, place: Place) -> Option<Conflict>
    ensures { IsFirstAmong config.now (IsOfTable kind place) result }
{
    for first in 0..entry_count(config, place) {
        if let Some(conflict) = first_of_entry(config, kind, place, first) {
            return Some(conflict);
        }
    }
    None
}

/// The first conflict of a kind at an entry.
fn first_of_entry(config: &Config, kind: ConflictKind, place: Place, first: u32) -> Option<Conflict>
    ensures { IsFirstAmong config.now (IsOfEntry kind place first) result }
{
    for other in Place::ALL {
        if let Some(conflict) = first_of_tables(config, kind, place, first, other) {
            return Some(conflict);
        }
    }
    None
}

/// The first conflict of a kind between an entry and those of a table.
fn first_of_tables(
    config: &Config,
    kind: ConflictKind,
    place: Place,
    first: u32,
    other: Place,
) -> Option<Conflict>
    ensures { IsFirstAmong config.now (IsOfTables kind place first other) result }
{
    for second in 0..second_count(config, kind, place, first, other) {
        let conflict = Conflict {
            kind,
            place,
            first,
            other,
            second,
        };
        if has_conflict(config, conflict) {
            return Some(conflict);
        }
    }
    None
}

/// How many numbers the other place may have: those of a table's entries, or of the entry's names.
fn second_count(config: &Config, kind: ConflictKind, place: Place, first: u32, other: Place) -> u32
    ensures { result ≡ second_count kind config.now place first other }
{
    if let ConflictKind::UnknownName = kind {
        return name_count(config, place, first);
    }
    entry_count(config, other)
}
