//! Whether a configuration has a conflict.
ghost use Rattle.std.specs.Prelude.{◌≡◌, option_copied};
ghost use Rattle.route_check.specs.Conflicts.{has_bad_cancel, has_conflict, has_functional_send, has_if_overlap, has_mixed_length, has_no_buffer, has_same_address, has_self_route, has_shared_sender, has_unknown_name, is_missing};

use crate::entries::*;
use crate::names::*;
use crate::{Conflict, ConflictKind, Place};
use gw_base::Bytes;
use gw_config::Config;

/// Whether the configuration has this conflict.
pub(crate) fn has_conflict(config: &Config, conflict: Conflict) -> bool
    ensures { result ≡ has_conflict conflict.kind config.now conflict.place conflict.first conflict.other conflict.second }
{
    match conflict.kind {
        ConflictKind::UnknownName => has_unknown_name(config, conflict),
        ConflictKind::SameAddress => has_same_address(config, conflict),
        ConflictKind::SharedSender => has_shared_sender(config, conflict),
        ConflictKind::SelfRoute => has_self_route(config, conflict),
        ConflictKind::MixedLength => has_mixed_length(config, conflict),
        ConflictKind::FunctionalSend => has_functional_send(config, conflict),
        ConflictKind::IfOverlap => has_if_overlap(config, conflict),
        ConflictKind::NoBuffer => has_no_buffer(config, conflict),
        ConflictKind::BadCancel => has_bad_cancel(config, conflict),
    }
}

/// Whether a name that isn't there is said, as the one of this table.
fn is_missing(config: &Config, place: Place, said: Option<&Bytes>) -> bool
    ensures { result ≡ is_missing config.now place (option_copied said.entry) }
{
    said.is_some_and(|name| !is_named(config, place, name))
}

/// Whether an entry says a name that isn't there.
fn has_unknown_name(config: &Config, at: Conflict) -> bool
    ensures { result ≡ has_unknown_name config.now at.place at.first at.other at.second }
{
    match (at.place, at.other) {
        (Place::Channel, Place::Bus) => {
            let said = channel_at(config, at.first).map(|channel| &channel.bus);
            at.second == 0 && is_missing(config, Place::Bus, said)
        }
        (Place::Path, Place::Channel) => {
            let said = path_at(config, at.first).and_then(|path| channel_of_path(at.second, path));
            is_missing(config, Place::Channel, said)
        }
        (Place::Interface, Place::Bus) => {
            let said = interface_at(config, at.first).and_then(|interface| bus_of_interface(
                at.second, interface,
            ));
            is_missing(config, Place::Bus, said)
        }
        (Place::Cancel, Place::Channel) => {
            let said = cancel_at(config, at.first).and_then(|cancel| cancel.to.as_ref());
            at.second == 1 && is_missing(config, Place::Channel, said)
        }
        (Place::Cancel, Place::Path) => {
            let said = cancel_at(config, at.first).map(|cancel| &cancel.path);
            at.second == 0 && is_missing(config, Place::Path, said)
        }
        _ => false,
    }
}

/// Whether two channels can't be told apart.
fn has_same_address(config: &Config, at: Conflict) -> bool
    ensures { result ≡ has_same_address config.now at.place at.first at.other at.second }
{
    match (at.place, at.other) {
        (Place::Channel, Place::Channel) => {
            match (channel_at(config, at.first), channel_at(config, at.second)) {
                (Some(one), Some(other)) => at.first < at.second && share_address(one, other),
                _ => false,
            }
        }
        _ => false,
    }
}

/// Whether two paths share a source or a destination, or a path has a destination twice.
fn has_shared_sender(config: &Config, at: Conflict) -> bool
    ensures { result ≡ has_shared_sender config.now at.place at.first at.other at.second }
{
    match (at.place, at.other) {
        (Place::Path, Place::Path) => {
            match (path_at(config, at.first), path_at(config, at.second)) {
                (Some(one), Some(other)) => {
                    at.first < at.second && share_channel(one, other)
                        || at.first == at.second && repeats(one.to.items())
                }
                _ => false,
            }
        }
        _ => false,
    }
}

/// Whether a path leads to its source, or an interface path to where it comes from.
fn has_self_route(config: &Config, at: Conflict) -> bool
    ensures { result ≡ has_self_route config.now at.place at.first at.other at.second }
{
    match (at.place, at.other) {
        (Place::Path, Place::Channel) => {
            match (path_at(config, at.first), channel_at(config, at.second)) {
                (Some(path), Some(channel)) => leads_back_to(path, channel),
                _ => false,
            }
        }
        (Place::Interface, Place::Interface) => {
            at.first == at.second && interface_at(config, at.first).is_some_and(leads_back)
        }
        _ => false,
    }
}

/// Whether a channel has frames that are too long for its bus.
fn has_mixed_length(config: &Config, at: Conflict) -> bool
    ensures { result ≡ has_mixed_length config.now at.place at.first at.other at.second }
{
    match (at.place, at.other) {
        (Place::Channel, Place::Bus) => {
            match (channel_at(config, at.first), bus_at(config, at.second)) {
                (Some(channel), Some(bus)) => is_too_long_for(channel, bus),
                _ => false,
            }
        }
        _ => false,
    }
}

/// Whether a path leads to a functional channel.
fn has_functional_send(config: &Config, at: Conflict) -> bool
    ensures { result ≡ has_functional_send config.now at.place at.first at.other at.second }
{
    match (at.place, at.other) {
        (Place::Path, Place::Channel) => {
            match (path_at(config, at.first), channel_at(config, at.second)) {
                (Some(path), Some(channel)) => sends_functionally(path, channel),
                _ => false,
            }
        }
        _ => false,
    }
}

/// Whether an interface path meets a channel's frames, or another interface path's.
fn has_if_overlap(config: &Config, at: Conflict) -> bool
    ensures { result ≡ has_if_overlap config.now at.place at.first at.other at.second }
{
    match (at.place, at.other) {
        (Place::Interface, Place::Channel) => {
            match (
                interface_at(config, at.first),
                channel_at(config, at.second),
            ) {
                (Some(interface), Some(channel)) => overlaps_channel(interface, channel),
                _ => false,
            }
        }
        (Place::Interface, Place::Interface) => {
            match (
                interface_at(config, at.first),
                interface_at(config, at.second),
            ) {
                (Some(one), Some(other)) => at.first < at.second && share_target(one, other),
                _ => false,
            }
        }
        _ => false,
    }
}

/// Whether no buffer of its group is large enough for a path.
fn has_no_buffer(config: &Config, at: Conflict) -> bool
    ensures { result ≡ has_no_buffer config.now at.place at.first at.other at.second }
{
    match (at.place, at.other) {
        (Place::Path, Place::Bus) => {
            match (path_at(config, at.first), bus_at(config, at.second)) {
                (Some(path), Some(bus)) => {
                    lacks_buffer(config.groups.items(), config.channel.items(), path, bus)
                }
                _ => false,
            }
        }
        _ => false,
    }
}

/// Whether a cancellation doesn't fit its path.
fn has_bad_cancel(config: &Config, at: Conflict) -> bool
    ensures { result ≡ has_bad_cancel config.now at.place at.first at.other at.second }
{
    match (at.place, at.other) {
        (Place::Cancel, Place::Path) => {
            match (cancel_at(config, at.first), path_at(config, at.second)) {
                (Some(cancel), Some(path)) => is_unfit_for(cancel, path),
                _ => false,
            }
        }
        _ => false,
    }
}
