//! Names and files that are used twice.
ghost use Rattle.std.specs.Prelude.{◌≡◌, ◌<◌, ◌^◌, Some, None, [], length, if◌then◌else◌};
ghost use Rattle.gw_config.specs.Repeated.{first_repeat, is_used};

use crate::config::{BusKeys, ChannelKeys, InterfaceKeys, PathKeys};
use crate::rows::fault;
use gw_settings::{ConfigFault, FaultKind, Key, TableKind};

/// An entry with a name.
trait Named {
    ghost use Rattle.std.specs.Prelude.{◌≡◌, List, ℕ};

    ghost name_of: { Self → List ℕ };

    /// The name.
    fn name(&self) -> &[u8]
        ensures { result.now ≡ name_of self.now };
}

/// An entry with texts that no other of its kind may have.
pub(crate) trait Distinct: Sized {
    ghost use Rattle.std.specs.Prelude.{◌≡◌, List, Option};
    ghost use Rattle.gw_settings.specs.declared.key.Key.{Key};

    ghost repeats: { List Self → List Self → Self → Option Key };

    /// The key whose text an earlier entry uses, or for an output any bus's input.
    fn repeated_key(&self, earlier: &[Self], all: &[Self]) -> Option<Key>
        ensures { result ≡ repeats all.now earlier.now self.now };
}

/// Whether one of the entries has this name.
fn is_name_used<E: Named>(entries: &[E], name: &[u8]) -> bool
    ensures { result ≡ is_used E.name_of entries.now name.now }
{
    entries.iter().any(|other| other.name() == name)
}

/// `Name`, where one of the entries has this name.
fn repeated_name<E: Named>(entries: &[E], name: &[u8]) -> Option<Key>
    ensures { result ≡ (if is_used E.name_of entries.now name.now then Some Key.Name else None) }
{
    if is_name_used(entries, name) {
        return Some(Key::Name);
    }
    None
}

impl Named for BusKeys {
    ghost name_of = { λ entry. entry.name };

    fn name(&self) -> &[u8] {
        self.name.items()
    }
}

impl Distinct for BusKeys {
    ghost use Rattle.gw_config.specs.Repeated.{bus_repeats};

    ghost repeats = { bus_repeats };

    fn repeated_key(&self, earlier: &[BusKeys], all: &[BusKeys]) -> Option<Key> {
        if is_name_used(earlier, self.name()) {
            return Some(Key::Name);
        }
        if is_output(earlier, self.output()) || is_input(all, self.output()) {
            return Some(Key::Out);
        }
        None
    }
}

impl BusKeys {
    /// The file of its input.
    fn input(&self) -> &[u8]
        ensures { result.now ≡ self.now.log }
    {
        self.log.items()
    }

    /// The file of its output.
    fn output(&self) -> &[u8]
        ensures { result.now ≡ self.now.out }
    {
        self.out.items()
    }
}

/// Whether the file is the output of one of the buses.
fn is_output(buses: &[BusKeys], file: &[u8]) -> bool
    ensures { result ≡ is_used (λ bus. bus.out) buses.now file.now }
{
    buses.iter().any(|bus| bus.output() == file)
}

/// Whether the file is the input of one of the buses.
fn is_input(buses: &[BusKeys], file: &[u8]) -> bool
    ensures { result ≡ is_used (λ bus. bus.log) buses.now file.now }
{
    buses.iter().any(|bus| bus.input() == file)
}

impl Named for ChannelKeys {
    ghost name_of = { λ entry. entry.name };

    fn name(&self) -> &[u8] {
        self.name.items()
    }
}

impl Distinct for ChannelKeys {
    ghost use Rattle.gw_config.specs.Repeated.{name_repeats};

    ghost repeats = { λ _. name_repeats (λ entry. entry.name) };

    fn repeated_key(&self, earlier: &[ChannelKeys], _all: &[ChannelKeys]) -> Option<Key> {
        repeated_name(earlier, self.name())
    }
}

impl Named for PathKeys {
    ghost name_of = { λ entry. entry.name };

    fn name(&self) -> &[u8] {
        self.name.items()
    }
}

impl Distinct for PathKeys {
    ghost use Rattle.gw_config.specs.Repeated.{name_repeats};

    ghost repeats = { λ _. name_repeats (λ entry. entry.name) };

    fn repeated_key(&self, earlier: &[PathKeys], _all: &[PathKeys]) -> Option<Key> {
        repeated_name(earlier, self.name())
    }
}

impl Named for InterfaceKeys {
    ghost name_of = { λ entry. entry.name };

    fn name(&self) -> &[u8] {
        self.name.items()
    }
}

impl Distinct for InterfaceKeys {
    ghost use Rattle.gw_config.specs.Repeated.{name_repeats};

    ghost repeats = { λ _. name_repeats (λ entry. entry.name) };

    fn repeated_key(&self, earlier: &[InterfaceKeys], _all: &[InterfaceKeys]) -> Option<Key> {
        repeated_name(earlier, self.name())
    }
}

/// The first entry that repeats a text, in order.
pub(crate) fn first_repeat<E: Distinct>(table: TableKind, entries: &[E]) -> Option<ConfigFault>
    requires { length entries.now < 2 ^ 32 }
    ensures { result ≡ first_repeat (E.repeats entries.now) table 0 [] entries.now }
{
    for (index, entry) in entries.iter().enumerate() {
        if let Some(key) = entry.repeated_key(&entries[..index], entries) {
            return Some(fault(FaultKind::Repeated, table, index as u32, key));
        }
    }
    None
}
