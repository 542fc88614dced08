//! The senders of the destinations of a run's paths.
ghost use Rattle.std.specs.Prelude.{◌≡◌, ◌<◌, IfOk, MatchOption, length};
ghost use Rattle.gw_config.specs.Lawful.{IsLawfulPath};
ghost use Rattle.route_check.specs.Conflicts.{IsAccepted};
ghost use Rattle.gw_setup.specs.Found.{IsDestinationAt, IsNoDestination};
ghost use Rattle.gw_setup.specs.Machines.{tx_set_of};
ghost use Rattle.gw_setup.specs.Placed.{AreDestinations};

use crate::address::{Address, comes_to};
use crate::channels::{Standing, standing_at};
use crate::lists::push_some;
use crate::names::destination_named;
use crate::shapes::shape_of;
use gw_base::{BusNo, ChanNo, DestNo, GroupNo, Memory, PathNo};
use gw_config::{Config, PathKeys};
use std::alloc::Global;
use tp_sender::TxSet;

/// A destination of a path: its sender, its channel, the flow controls that come to it, and its bus.
#[derive(Clone, Copy, Debug, PartialEq, Eq)]
pub struct Destination {
    pub set: TxSet,
    pub chan: ChanNo,
    pub comes: Address,
    pub bus: BusNo,
}

/// How the sender of this destination of the path of this number is configured, which is this channel on its bus.
fn tx_set_of(
    period: u32,
    number: PathNo,
    dest: DestNo,
    path: &PathKeys,
    standing: &Standing<'_>,
) -> TxSet
    ensures is { result ≡ tx_set_of period number dest path.now standing.now.bus.now standing.now.channel.now }
    ensures lawful { IsLawfulPath path.now }
{
    let channel = standing.channel;
    TxSet {
        path: number,
        group: GroupNo(path.group),
        dest,
        shape: shape_of(standing.bus, channel),
        threshold: path.threshold,
        store: path.store,
        n_as: channel.n_as,
        n_bs: channel.n_bs,
        n_cs: channel.n_cs,
        period,
    }
}

/// The sender of the path that leads to the channel of this number; None where there is none.
fn destination_at(config: &Config, number: usize) -> Option<Destination>
    requires accepted { IsAccepted config.now }
    requires within { number < length config.now.channel }
    ensures { MatchOption result (IsNoDestination config.now number) (IsDestinationAt config.now number) }
{
    let standing = standing_at(config, number);
    let channel = standing.channel;
    let Some(found) = destination_named(config.path.items(), channel.name.items()) else {
        return None;
    };
    let path = &config.path.items()[found.path];
    Some(Destination {
        set: tx_set_of(
            config.period,
            PathNo(found.path as u8),
            DestNo(found.dest as u8),
            path,
            &standing,
        ),
        chan: standing.chan,
        comes: comes_to(channel),
        bus: standing.on,
    })
}

/// The senders of all destinations, by the numbers of their channels.
pub(crate) fn destinations_of(alloc: Global, config: &Config) -> Result<Vec<Destination>, Memory>
    requires { IsAccepted config.now }
    ensures { IfOk result (λ destinations. AreDestinations config.now destinations.items) }
{
    let mut destinations = Vec::new(alloc);
    for number in 0..config.channel.items().len() {
        push_some(&mut destinations, destination_at(config, number))?;
    }
    Ok(destinations)
}
