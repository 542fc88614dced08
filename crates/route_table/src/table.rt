//! The table of a run's channels and interface paths.
ghost use Rattle.std.specs.Prelude.{◌≡◌, true, List, filter, find, option_map, option_to_list, slice_get};
ghost use Rattle.route_table.specs.Match.{frame_fits, same_id};

use crate::by_bus::ByBus;
use crate::entry::{ChanEntry, IfEntry};
use can_frame::CanId;
use gw_base::{BusNo, ChanNo, Memory, PathNo};
use std::alloc::Global;

/// Which channel and which interface paths a frame belongs to.
///
/// Contracts speak of the lists that it was built from: `IsTableOf channels paths table`.
#[derive(Debug, Drop)]
pub struct Table {
    channels: ByBus<ChanEntry>,
    paths: ByBus<IfEntry>,
}

impl Table {
    ghost use Rattle.std.specs.Prelude.{IfOk};
    ghost use Rattle.route_table.specs.declared.entry.ChanEntry.{ChanEntry};
    ghost use Rattle.route_table.specs.declared.entry.IfEntry.{IfEntry};
    ghost use Rattle.route_table.specs.Match.{are_apart, channels_of, paths_of};
    ghost use Rattle.route_table.specs.Table.{IsTableOf};

    /// The table of these channels and interface paths; it copies them. `Memory` where memory is wanting.
    ///
    /// No frame may belong to two channels: no two entries have one bus, one identifier and overlapping addresses, which
    /// all are but two that are there and differ.
    pub fn build(alloc: Global, entries: &[ChanEntry], ifs: &[IfEntry]) -> Result<Table, Memory>
        requires { are_apart entries.now ≡ true }
        ensures { IfOk result (IsTableOf entries.now ifs.now) }
    {
        Ok(Table {
            channels: ByBus::build(alloc, entries)?,
            paths: ByBus::build(alloc, ifs)?,
        })
    }

    /// The channel that a frame of this bus with this identifier belongs to; `first` is the frame's first byte, which
    /// an empty frame doesn't have. `None` where it belongs to no channel.
    pub fn channel_of(&self, bus: BusNo, id: CanId, first: Option<u8>) -> Option<ChanNo>
        ensures { (channels : List ChanEntry) (paths : List IfEntry) → IsTableOf channels paths self.now →
            option_to_list result ≡ channels_of channels bus id first }
    {
        channel_among(self.channels.on(bus), id, first)
    }

    /// Of the interface paths that take a frame of this bus with this identifier the one numbered `at`, from 0 in list
    /// order. `None` where there are no more.
    pub fn if_path_of(&self, bus: BusNo, id: CanId, at: usize) -> Option<PathNo>
        ensures { (channels : List ChanEntry) (paths : List IfEntry) → IsTableOf channels paths self.now →
            result ≡ slice_get (paths_of paths bus id) at }
    {
        let entry = entry_at(self.paths.on(bus), id, at)?;
        Some(entry.path)
    }
}

/// Of one bus's entries the channel of the first that a frame with this identifier and first byte fits.
fn channel_among(entries: &[ChanEntry], id: CanId, first: Option<u8>) -> Option<ChanNo>
    ensures { result ≡ option_map (λ entry. entry.chan) (find (frame_fits id first) entries.now) }
{
    let entry = entries.iter().find(|entry| entry.fits(id, first))?;
    Some(entry.chan)
}

/// Of one bus's entries that a frame with this identifier fits the one numbered `at`, from 0.
fn entry_at(entries: &[IfEntry], id: CanId, at: usize) -> Option<&IfEntry>
    ensures { option_map (λ entry. entry.now) result ≡ slice_get (filter (λ entry. same_id entry.id id) entries.now) at }
{
    entries.iter().filter(|entry| entry.fits(id)).nth(at)
}
