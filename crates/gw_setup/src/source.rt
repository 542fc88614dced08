//! The receivers of a run's paths.
ghost use Rattle.std.specs.Prelude.{◌≡◌, ◌<◌, IfOk, MatchOption, length};
ghost use Rattle.gw_config.specs.Lawful.{IsLawfulPath};
ghost use Rattle.route_check.specs.Conflicts.{IsAccepted};
ghost use Rattle.gw_setup.specs.Found.{IsNoSource, IsSourceAt};
ghost use Rattle.gw_setup.specs.Machines.{rx_set_of};
ghost use Rattle.gw_setup.specs.Placed.{AreSources};

use crate::address::{Address, address_bytes, comes_to};
use crate::channels::standing_at;
use crate::lists::push_some;
use crate::names::path_from;
use crate::shapes::shape_of;
use gw_base::{BusNo, ChanNo, GroupNo, Memory, PathNo};
use gw_config::{ChannelKeys, Config, PathKeys};
use std::alloc::Global;
use tp_receiver::RxSet;
use tp_unit::Shape;

/// The source of a path: its receiver, the frames that come to its channel, its flow controls, and its bus.
#[derive(Clone, Copy, Debug, PartialEq, Eq)]
pub struct Source {
    pub set: RxSet,
    pub comes: Address,
    /// How its flow controls become frames.
    pub shape: Shape,
    pub bus: BusNo,
}

/// How the receiver of the path of this number is configured, whose source is this channel.
fn rx_set_of(number: PathNo, chan: ChanNo, path: &PathKeys, channel: &ChannelKeys) -> RxSet
    ensures is { result ≡ rx_set_of number chan path.now channel.now }
    ensures lawful { IsLawfulPath path.now }
{
    RxSet {
        chan,
        path: number,
        group: GroupNo(path.group),
        readers: path.to.items().len() as u8,
        a: address_bytes(channel.rx_address),
        functional: channel.functional,
        bs: channel.bs,
        st: channel.stmin,
        wft_max: channel.wft_max,
        n_ar: channel.n_ar,
        n_br: channel.n_br,
        n_cr: channel.n_cr,
        threshold: path.threshold,
        store: path.store,
    }
}

/// The receiver of the path that comes from the channel of this number; None where there is none.
fn source_at(config: &Config, number: usize) -> Option<Source>
    requires accepted { IsAccepted config.now }
    requires within { number < length config.now.channel }
    ensures { MatchOption result (IsNoSource config.now number) (IsSourceAt config.now number) }
{
    let standing = standing_at(config, number);
    let channel = standing.channel;
    let Some(place) = path_from(config.path.items(), channel.name.items()) else {
        return None;
    };
    let path = &config.path.items()[place];
    Some(Source {
        set: rx_set_of(PathNo(place as u8), standing.chan, path, channel),
        comes: comes_to(channel),
        shape: shape_of(standing.bus, channel),
        bus: standing.on,
    })
}

/// The receivers of all paths, by the numbers of their channels.
pub(crate) fn sources_of(alloc: Global, config: &Config) -> Result<Vec<Source>, Memory>
    requires { IsAccepted config.now }
    ensures { IfOk result (λ sources. AreSources config.now sources.items) }
{
    let mut sources = Vec::new(alloc);
    for number in 0..config.channel.items().len() {
        push_some(&mut sources, source_at(config, number))?;
    }
    Ok(sources)
}
