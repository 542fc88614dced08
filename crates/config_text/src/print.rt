//! The text of a configuration, as `toml` prints the table of all its keys.
ghost use Rattle.std.specs.Prelude.{◌≡◌, ◌≤◌, OnOk, IfOk};
ghost use Rattle.gw_config.specs.Document.{Spells};
ghost use Rattle.gw_config.specs.Lawful.{AreLawful, IsLawful};
ghost use Rattle.gw_settings.specs.Tree.{IsText};
ghost use Rattle.toml.specs.Data.{members_depth, table};
ghost use Rattle.toml.specs.View.{table_view};
ghost use Rattle.config_text.specs.Printed.{config_table};

use crate::tables::tables;
use crate::values::{groups, number, put, word};
use crate::words::Word;
use gw_base::{Bytes, Memory};
use gw_config::Config;
use gw_settings::Key;
use std::alloc::Global;
use toml::Table;

/// The table of all keys of the configuration.
fn config_table(alloc: Global, config: &Config) -> Result<Table, Memory>
    ensures printed { IfOk result (λ members. table (table_view members) ≡ config_table config.now) }
    ensures lawful { OnOk result (IsLawful config.now) }
    ensures each { OnOk result (AreLawful config.now) }
{
    let mut members = Table::new(alloc);
    put(alloc, &mut members, Key::Period, number(config.period))?;
    put(alloc, &mut members, Key::Window, number(config.window))?;
    put(alloc, &mut members, Key::Linger, number(config.linger))?;
    put(
        alloc,
        &mut members,
        Key::Mode,
        word(alloc, config.mode.word())?,
    )?;
    put(
        alloc,
        &mut members,
        Key::Groups,
        groups(alloc, config.groups.items())?,
    )?;
    put(
        alloc,
        &mut members,
        Key::Bus,
        tables(alloc, config.bus.items())?,
    )?;
    put(
        alloc,
        &mut members,
        Key::Channel,
        tables(alloc, config.channel.items())?,
    )?;
    put(
        alloc,
        &mut members,
        Key::Path,
        tables(alloc, config.path.items())?,
    )?;
    put(
        alloc,
        &mut members,
        Key::Interface,
        tables(alloc, config.interface.items())?,
    )?;
    put(
        alloc,
        &mut members,
        Key::Cancel,
        tables(alloc, config.cancel.items())?,
    )?;
    Ok(members)
}

/// The document of a table that isn't deep.
fn document(alloc: Global, members: &Table) -> Result<Bytes, Memory>
    requires { members_depth (table_view members.now) ≤ 80 }
    ensures { IfOk result (λ text. IsText text (table (table_view members.now))) }
{
    let Ok(text) = toml::table_to_string(alloc, members) else {
        return Err(Memory);
    };
    let mut bytes = Bytes::new(alloc);
    bytes.append(text.as_str().as_bytes())?;
    Ok(bytes)
}

/// A text that spells the configuration: reading it gives an equal one. `Memory` is the only error.
pub fn print_config(alloc: Global, config: &Config) -> Result<Bytes, Memory>
    ensures { IfOk result (λ text. Spells text config.now) }
{
    let members = config_table(alloc, config)?;
    document(alloc, &members)
}
