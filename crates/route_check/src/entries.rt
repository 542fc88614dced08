//! What two entries have in conflict.
ghost use Rattle.std.specs.Prelude.{◌≡◌, ◌&&◌, nat_lt};
ghost use Rattle.std.specs.List.{list_all, list_any};
ghost use Rattle.std.specs.Str.{bytes_eq};
ghost use Rattle.route_check.specs.Names.{is_among};
ghost use Rattle.route_check.specs.Entries.{addresses_overlap, buffers_of, frame_cells, is_misplaced, is_source_bus, is_too_long_for, lacks_buffer, least_cells, is_unfit_for, overlaps_channel, repeats, leads_back, leads_back_to, same_id, sends_functionally, share_address, share_channel, share_target};

use can_frame::CanId;
use gw_base::Bytes;
use gw_config::{BusKeys, CancelKeys, CellsList, ChannelKeys, InterfaceKeys, PathKeys, Role};

/// The most bytes of a classic frame.
const CLASSIC_LENGTH: u8 = 8;

/// The most cells that a classic frame carries.
const CLASSIC_FRAME_CELLS: u64 = 1;

/// The most cells that a CAN FD frame carries.
const FD_FRAME_CELLS: u64 = 9;

/// Whether two texts are one.
fn same_text(one: &Bytes, other: &Bytes) -> bool
    ensures { result ≡ bytes_eq one.now other.now }
{
    one.items() == other.items()
}

/// Whether the name is one of these.
fn is_among(names: &[Bytes], name: &Bytes) -> bool
    ensures { result ≡ is_among names.now name.now }
{
    names.iter().any(|other| same_text(other, name))
}

/// Whether two identifiers are one.
fn same_id(one: CanId, other: CanId) -> bool
    ensures { result ≡ same_id one other }
{
    one == other
}

/// Whether frames may be of both addresses; without an address byte they may be of every one.
fn addresses_overlap(one: Option<u8>, other: Option<u8>) -> bool
    ensures { result ≡ addresses_overlap one other }
{
    match (one, other) {
        (Some(one), Some(other)) => one == other,
        (Some(_), None) | (None, _) => true,
    }
}

/// Whether a frame may be for both channels, or come from both.
pub(crate) fn share_address(one: &ChannelKeys, other: &ChannelKeys) -> bool
    ensures { result ≡ share_address one.now other.now }
{
    same_text(&one.bus, &other.bus)
        && (same_id(one.rx, other.rx) && addresses_overlap(one.rx_address, other.rx_address)
            || same_id(one.tx, other.tx) && addresses_overlap(one.tx_address, other.tx_address))
}

/// Whether both paths have one source, or a destination in common.
pub(crate) fn share_channel(one: &PathKeys, other: &PathKeys) -> bool
    ensures { result ≡ share_channel one.now other.now }
{
    same_text(&one.from, &other.from) || share_name(one.to.items(), other.to.items())
}

/// Whether a name stands in both lists.
fn share_name(one: &[Bytes], other: &[Bytes]) -> bool
    ensures { result ≡ list_any (is_among other.now) one.now }
{
    one.iter().any(|name| is_among(other, name))
}

/// Whether a name stands twice in the list.
pub(crate) fn repeats(names: &[Bytes]) -> bool
    ensures { result ≡ repeats names.now }
{
    let Some((name, others)) = names.split_first() else {
        return false;
    };
    is_among(others, name) || repeats(others)
}

/// Whether the path leads to its source, which is this channel.
pub(crate) fn leads_back_to(path: &PathKeys, channel: &ChannelKeys) -> bool
    ensures { result ≡ leads_back_to path.now channel.now }
{
    same_text(&channel.name, &path.from) && is_among(path.to.items(), &path.from)
}

/// Whether the interface path leads to where it comes from.
pub(crate) fn leads_back(interface: &InterfaceKeys) -> bool
    ensures { result ≡ leads_back interface.now }
{
    same_text(&interface.from_bus, &interface.to_bus) && same_id(interface.from_id, interface.to_id)
}

/// Whether the channel has frames that are too long for this bus, which is its own.
pub(crate) fn is_too_long_for(channel: &ChannelKeys, bus: &BusKeys) -> bool
    ensures { result ≡ is_too_long_for channel.now bus.now }
{
    channel.dl > CLASSIC_LENGTH && same_text(&channel.bus, &bus.name) && !bus.fd
}

/// Whether the path leads to this channel, and it is functional.
pub(crate) fn sends_functionally(path: &PathKeys, channel: &ChannelKeys) -> bool
    ensures { result ≡ sends_functionally path.now channel.now }
{
    channel.functional && is_among(path.to.items(), &channel.name)
}

/// Whether the interface path takes what the channel receives, or gives what it sends.
pub(crate) fn overlaps_channel(interface: &InterfaceKeys, channel: &ChannelKeys) -> bool
    ensures { result ≡ overlaps_channel interface.now channel.now }
{
    same_text(&interface.from_bus, &channel.bus) && same_id(interface.from_id, channel.rx)
        || same_text(&interface.to_bus, &channel.bus) && same_id(interface.to_id, channel.tx)
}

/// Whether both interface paths give the same frames to one bus.
pub(crate) fn share_target(one: &InterfaceKeys, other: &InterfaceKeys) -> bool
    ensures { result ≡ share_target one.now other.now }
{
    same_text(&one.to_bus, &other.to_bus) && same_id(one.to_id, other.to_id)
}

/// Whether the bus is that of the path's source.
fn is_source_bus(channels: &[ChannelKeys], path: &PathKeys, bus: &BusKeys) -> bool
    ensures { result ≡ is_source_bus channels.now path.now bus.now }
{
    channels
        .iter()
        .any(|channel| is_channel_of(channel, &path.from, &bus.name))
}

/// Whether the channel has this name and this bus.
fn is_channel_of(channel: &ChannelKeys, name: &Bytes, bus: &Bytes) -> bool
    ensures { result ≡ (bytes_eq channel.now.name name.now && bytes_eq channel.now.bus bus.now) }
{
    same_text(&channel.name, name) && same_text(&channel.bus, bus)
}

/// The most cells that a frame carries.
fn frame_cells(fd: bool) -> u64
    ensures { result ≡ frame_cells fd }
{
    if fd {
        FD_FRAME_CELLS
    } else {
        CLASSIC_FRAME_CELLS
    }
}

/// The cells that a buffer must have for units of the path from a bus.
fn least_cells(path: &PathKeys, fd: bool) -> u64
    ensures { result ≡ least_cells path.now fd }
{
    let frame = frame_cells(fd);
    if path.store {
        return frame;
    }
    frame.max(u64::from(path.threshold) + frame - 1)
}

/// The buffers of the group of this number; none where that group isn't there.
fn buffers_of(groups: &[CellsList], number: u8) -> &[u32]
    ensures { result.now ≡ buffers_of groups.now number }
{
    match groups.get(usize::from(number)) {
        Some(group) => group.items(),
        None => &[],
    }
}

/// Whether every buffer of its group is too small for units of the path from this bus, which is its source's. So they
/// are where the group isn't there.
pub(crate) fn lacks_buffer(
    groups: &[CellsList],
    channels: &[ChannelKeys],
    path: &PathKeys,
    bus: &BusKeys,
) -> bool
    ensures { result ≡ lacks_buffer groups.now channels.now path.now bus.now }
{
    let least = least_cells(path, bus.fd);
    let buffers = buffers_of(groups, path.group);
    is_source_bus(channels, path, bus) && are_below(buffers, least)
}

/// Whether every buffer has fewer cells than these.
fn are_below(buffers: &[u32], least: u64) -> bool
    ensures { result ≡ list_all (λ cells. nat_lt cells least) buffers.now }
{
    buffers.iter().all(|cells| u64::from(*cells) < least)
}

/// Whether the side that a cancellation ends and its destination don't fit together, or not the path's destinations.
fn is_misplaced(role: Role, to: &Option<Bytes>, destinations: &[Bytes]) -> bool
    ensures { result ≡ is_misplaced role to.now destinations.now }
{
    match (role, to) {
        (Role::Receive, to) => to.is_some(),
        (Role::Send, None) => true,
        (Role::Send, Some(name)) => !is_among(destinations, name),
    }
}

/// Whether the cancellation is one of this path, and doesn't fit it.
pub(crate) fn is_unfit_for(cancel: &CancelKeys, path: &PathKeys) -> bool
    ensures { result ≡ is_unfit_for cancel.now path.now }
{
    same_text(&path.name, &cancel.path) && is_misplaced(cancel.role, &cancel.to, path.to.items())
}
