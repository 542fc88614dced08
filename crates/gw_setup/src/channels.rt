//! The channels of a run: where each stands, and as the table of frames has it.
ghost use Rattle.std.specs.Prelude.{◌≡◌, ◌<◌, IfOk, length};
ghost use Rattle.gw_config.specs.Lawful.{IsLawfulChannel};
ghost use Rattle.route_check.specs.Conflicts.{IsAccepted};
ghost use Rattle.gw_setup.specs.Placed.{AreAll, IsChannelAt, StandsOn};

use crate::names::bus_named;
use gw_base::{BusNo, ChanNo, Memory};
use gw_config::{BusKeys, ChannelKeys, Config};
use route_table::ChanEntry;
use std::alloc::Global;

/// A channel, and the bus that it stands on.
#[derive(Drop)]
pub(crate) struct Standing<'a> {
    pub(crate) chan: ChanNo,
    pub(crate) channel: &'a ChannelKeys,
    pub(crate) bus: &'a BusKeys,
    /// The bus's number.
    pub(crate) on: BusNo,
}

/// The channel of this number and its bus.
pub(crate) fn standing_at(config: &Config, number: usize) -> Standing<'_>
    requires accepted { IsAccepted config.now }
    requires within { number < length config.now.channel }
    ensures stands { StandsOn config.now number result.on result.channel.now result.bus.now }
    ensures chan { result.chan.0 ≡ number }
    ensures lawful { IsLawfulChannel result.channel.now }
{
    let channel = &config.channel.items()[number];
    let Some(on) = bus_named(config.bus.items(), channel.bus.items()) else {
        unreachable!();
    };
    Standing {
        chan: ChanNo(number as u8),
        channel,
        bus: &config.bus.items()[on],
        on: BusNo(on as u8),
    }
}

/// The channel of this number, as the table of frames has it.
fn channel_at(config: &Config, number: usize) -> ChanEntry
    requires accepted { IsAccepted config.now }
    requires within { number < length config.now.channel }
    ensures { IsChannelAt config.now number result }
{
    let standing = standing_at(config, number);
    let channel = standing.channel;
    ChanEntry {
        chan: standing.chan,
        bus: standing.on,
        id: channel.rx,
        address: channel.rx_address,
    }
}

/// The channels, in the order of the configuration.
pub(crate) fn channels_of(alloc: Global, config: &Config) -> Result<Vec<ChanEntry>, Memory>
    requires { IsAccepted config.now }
    ensures { IfOk result (λ channels. AreAll config.now.channel (IsChannelAt config.now) channels.items) }
{
    let mut channels = Vec::new(alloc);
    for number in 0..config.channel.items().len() {
        channels.push(channel_at(config, number))?;
    }
    Ok(channels)
}
