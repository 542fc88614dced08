//! The names that entries say, and which of them are there.
ghost use Rattle.std.specs.Prelude.{◌≡◌, ◌+◌, length, option_copied, slice_get};
ghost use Rattle.gw_config.specs.Repeated.{is_used};
ghost use Rattle.route_check.specs.Names.{bus_of_interface, channel_of_path, entry_count, is_named, name_count};

use crate::Place;
use gw_base::Bytes;
use gw_config::{BusKeys, CancelKeys, ChannelKeys, Config, InterfaceKeys, PathKeys};

/// Whether one of the buses has this name.
fn is_bus(buses: &[BusKeys], name: &Bytes) -> bool
    ensures { result ≡ is_used (λ entry. entry.name) buses.now name.now }
{
    buses.iter().any(|entry| entry.name.items() == name.items())
}

/// Whether one of the channels has this name.
fn is_channel(channels: &[ChannelKeys], name: &Bytes) -> bool
    ensures { result ≡ is_used (λ entry. entry.name) channels.now name.now }
{
    channels
        .iter()
        .any(|entry| entry.name.items() == name.items())
}

/// Whether one of the paths has this name.
fn is_path(paths: &[PathKeys], name: &Bytes) -> bool
    ensures { result ≡ is_used (λ entry. entry.name) paths.now name.now }
{
    paths.iter().any(|entry| entry.name.items() == name.items())
}

/// Whether one of the interface paths has this name.
fn is_interface(interfaces: &[InterfaceKeys], name: &Bytes) -> bool
    ensures { result ≡ is_used (λ entry. entry.name) interfaces.now name.now }
{
    interfaces
        .iter()
        .any(|entry| entry.name.items() == name.items())
}

/// Whether an entry of the table has this name; a cancellation has none.
pub(crate) fn is_named(config: &Config, place: Place, name: &Bytes) -> bool
    ensures { result ≡ is_named config.now place name.now }
{
    match place {
        Place::Bus => is_bus(config.bus.items(), name),
        Place::Channel => is_channel(config.channel.items(), name),
        Place::Path => is_path(config.path.items(), name),
        Place::Interface => is_interface(config.interface.items(), name),
        Place::Cancel => false,
    }
}

/// The bus of this number.
pub(crate) fn bus_at(config: &Config, number: u32) -> Option<&BusKeys>
    ensures { option_copied result ≡ slice_get config.now.bus number }
{
    config.bus.items().get(number as usize)
}

/// The channel of this number.
pub(crate) fn channel_at(config: &Config, number: u32) -> Option<&ChannelKeys>
    ensures { option_copied result ≡ slice_get config.now.channel number }
{
    config.channel.items().get(number as usize)
}

/// The path of this number.
pub(crate) fn path_at(config: &Config, number: u32) -> Option<&PathKeys>
    ensures { option_copied result ≡ slice_get config.now.path number }
{
    config.path.items().get(number as usize)
}

/// The interface path of this number.
pub(crate) fn interface_at(config: &Config, number: u32) -> Option<&InterfaceKeys>
    ensures { option_copied result ≡ slice_get config.now.interface number }
{
    config.interface.items().get(number as usize)
}

/// The cancellation of this number.
pub(crate) fn cancel_at(config: &Config, number: u32) -> Option<&CancelKeys>
    ensures { option_copied result ≡ slice_get config.now.cancel number }
{
    config.cancel.items().get(number as usize)
}

/// How many entries the table has.
pub(crate) fn entry_count(config: &Config, place: Place) -> u32
    ensures { result ≡ entry_count config.now place }
{
    match place {
        Place::Bus => config.bus.items().len() as u32,
        Place::Channel => config.channel.items().len() as u32,
        Place::Path => config.path.items().len() as u32,
        Place::Interface => config.interface.items().len() as u32,
        Place::Cancel => config.cancel.items().len() as u32,
    }
}

/// The most names that the entry of this number says.
pub(crate) fn name_count(config: &Config, place: Place, number: u32) -> u32
    ensures { result ≡ name_count config.now place number }
{
    match place {
        Place::Path => path_at(config, number).map_or(0, names_of_path),
        Place::Bus | Place::Channel | Place::Interface | Place::Cancel => 2,
    }
}

/// How many names the path says.
fn names_of_path(path: &PathKeys) -> u32
    ensures { result ≡ length path.now.to + 1 }
{
    path.to.items().len() as u32 + 1
}

/// The channel that the path names under this number: 0 is its source, its destinations count from 1.
pub(crate) fn channel_of_path(number: u32, path: &PathKeys) -> Option<&Bytes>
    ensures { option_copied result ≡ channel_of_path number path.now }
{
    if number == 0 {
        return Some(&path.from);
    }
    path.to.items().get(number as usize - 1)
}

/// The bus that the interface path names under this number: 0 is where it comes from, 1 where it goes to.
pub(crate) fn bus_of_interface(number: u32, interface: &InterfaceKeys) -> Option<&Bytes>
    ensures { option_copied result ≡ bus_of_interface number interface.now }
{
    match number {
        0 => Some(&interface.from_bus),
        1 => Some(&interface.to_bus),
        _ => None,
    }
}
