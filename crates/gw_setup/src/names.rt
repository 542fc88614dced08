//! Look-ups of names: the bus of a channel, the path from a channel, and the path that leads to one.
ghost use Rattle.std.specs.Prelude.{◌≡◌, ℕ, MatchOption};
ghost use Rattle.std.specs.List.{position};
ghost use Rattle.std.specs.Str.{bytes_eq};
ghost use Rattle.gw_setup.specs.Found.{LeadsTo, NoneLeadTo};

use gw_base::Bytes;
use gw_config::{BusKeys, PathKeys};

/// A destination of a path: the path's place, and the destination's among those of the path.
#[derive(Clone, Copy, Debug, PartialEq, Eq)]
pub(crate) struct DestPlace {
    pub(crate) path: usize,
    pub(crate) dest: usize,
}

/// The place of the bus with this name.
pub(crate) fn bus_named(buses: &[BusKeys], name: &[u8]) -> Option<usize>
    ensures { result ≡ position (λ bus. bytes_eq bus.name name.now) buses.now }
{
    buses.iter().position(|bus| bus.name.items() == name)
}

/// The place of the path that comes from the channel with this name.
pub(crate) fn path_from(paths: &[PathKeys], name: &[u8]) -> Option<usize>
    ensures { result ≡ position (λ path. bytes_eq path.from name.now) paths.now }
{
    paths.iter().position(|path| path.from.items() == name)
}

/// The place of this name among the names.
fn place_of(names: &[Bytes], name: &[u8]) -> Option<usize>
    ensures { result ≡ position (λ other. bytes_eq other name.now) names.now }
{
    names.iter().position(|other| other.items() == name)
}

/// The first destination of a path that has this name.
pub(crate) fn destination_named(paths: &[PathKeys], name: &[u8]) -> Option<DestPlace>
    ensures { MatchOption result (NoneLeadTo paths.now name.now) (LeadsTo paths.now name.now) }
{
    for (path, keys) in paths.iter().enumerate() {
        if let Some(dest) = place_of(keys.to.items(), name) {
            return Some(DestPlace { path, dest });
        }
    }
    None
}
