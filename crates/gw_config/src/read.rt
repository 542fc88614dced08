//! The reading of a configuration: each row in its order, up to the first fault.
ghost use Rattle.std.specs.Prelude.{◌≡◌, ◌<◌, ◌^◌, IfOk, IfErr, length};
ghost use Rattle.gw_settings.specs.Settings.{tree};
ghost use Rattle.gw_settings.specs.Tree.{entry_of};
ghost use Rattle.gw_config.specs.Document.{HasFault, IfFault, Spells};
ghost use Rattle.gw_config.specs.Outcome.{Gives};
ghost use Rattle.gw_config.specs.Entries.{address_in, channel_keys, config_in, counts_in, entries_in, shape_in, timers_in, top_in, top_keys, AddressFits, CountsFit, HasCounts, ShapeFits, TimersFit, TopFits};
ghost use Rattle.gw_config.specs.Repeated.{repeated_among};

use crate::config::{
    BusKeys, BusList, CancelKeys, CancelList, ChannelKeys, ChannelList, Config, GroupList,
    InterfaceKeys, InterfaceList, PathKeys, PathList,
};
use crate::keys::*;
use crate::lists::{self, Entry};
use crate::repeated::first_repeat;
use crate::words::{Addressing, Mode};
use crate::{groups, rows};
use can_frame::CanId;
use gw_base::Tick;
use gw_settings::{ConfigError, ConfigFault, Key, Settings, TableKind};
use std::alloc::Global;

impl Entry for BusKeys {
    ghost use Rattle.gw_config.specs.Entries.{bus_at};

    ghost said = { bus_at };

    fn read(alloc: Global, settings: &Settings, index: u32) -> Result<BusKeys, ConfigError> {
        let name = rows::text(alloc, settings, index, BUS_NAME)?;
        let log = rows::text(alloc, settings, index, BUS_LOG)?;
        let out = rows::text(alloc, settings, index, BUS_OUT)?;
        let fd = rows::flag(settings, index, BUS_FD)?;
        let brs = rows::flag(settings, index, BUS_BRS)?;
        let budget = rows::byte(settings, index, BUS_BUDGET)?;
        settings.known_only(TableKind::Bus, index, &BUS_KEYS)?;
        Ok(BusKeys {
            name,
            log,
            out,
            fd,
            brs,
            budget,
        })
    }
}

impl Entry for InterfaceKeys {
    ghost use Rattle.gw_config.specs.Entries.{interface_at};

    ghost said = { interface_at };

    fn read(alloc: Global, settings: &Settings, index: u32) -> Result<InterfaceKeys, ConfigError> {
        let name = rows::text(alloc, settings, index, INTERFACE_NAME)?;
        let from_bus = rows::text(alloc, settings, index, INTERFACE_FROM_BUS)?;
        let from_id = rows::word(settings, index, INTERFACE_FROM_ID)?;
        let to_bus = rows::text(alloc, settings, index, INTERFACE_TO_BUS)?;
        let to_id = rows::word(settings, index, INTERFACE_TO_ID)?;
        let queue = rows::word(settings, index, INTERFACE_QUEUE)?;
        let depth = rows::number(settings, index, INTERFACE_DEPTH)?;
        settings.known_only(TableKind::Interface, index, &INTERFACE_KEYS)?;
        Ok(InterfaceKeys {
            name,
            from_bus,
            from_id,
            to_bus,
            to_id,
            queue,
            depth,
        })
    }
}

impl Entry for PathKeys {
    ghost use Rattle.gw_config.specs.Entries.{path_at};

    ghost said = { path_at };

    fn read(alloc: Global, settings: &Settings, index: u32) -> Result<PathKeys, ConfigError> {
        let name = rows::text(alloc, settings, index, PATH_NAME)?;
        let from = rows::text(alloc, settings, index, PATH_FROM)?;
        let to = lists::texts(alloc, settings, index, PATH_TO, PATH_DESTINATION)?;
        let threshold = rows::number(settings, index, PATH_THRESHOLD)?;
        let store = rows::flag(settings, index, PATH_STORE)?;
        let group = rows::byte(settings, index, PATH_GROUP)?;
        settings.known_only(TableKind::Path, index, &PATH_KEYS)?;
        Ok(PathKeys {
            name,
            from,
            to,
            threshold,
            store,
            group,
        })
    }
}

impl Entry for CancelKeys {
    ghost use Rattle.gw_config.specs.Entries.{cancel_at};

    ghost said = { cancel_at };

    fn read(alloc: Global, settings: &Settings, index: u32) -> Result<CancelKeys, ConfigError> {
        let path = rows::text(alloc, settings, index, CANCEL_PATH)?;
        let tick = rows::number(settings, index, CANCEL_TICK)?;
        let role = rows::word(settings, index, CANCEL_ROLE)?;
        let to = rows::optional_text(alloc, settings, index, CANCEL_TO)?;
        settings.known_only(TableKind::Cancel, index, &CANCEL_KEYS)?;
        Ok(CancelKeys {
            path,
            tick: Tick(u64::from(tick)),
            role,
            to,
        })
    }
}

/// The addresses of a channel.
#[derive(Clone, Copy, Debug)]
struct Address {
    rx: CanId,
    tx: CanId,
    addressing: Addressing,
    rx_address: Option<u8>,
    tx_address: Option<u8>,
}

fn read_address(settings: &Settings, index: u32) -> Result<Address, ConfigFault>
    ensures value { result ≡ address_in index (entry_of (tree settings.now) TableKind.Channel index) }
    ensures fits { IfOk result AddressFits }
{
    let rx = rows::word(settings, index, CHANNEL_RX)?;
    let tx = rows::word(settings, index, CHANNEL_TX)?;
    let addressing = rows::word(settings, index, CHANNEL_ADDRESSING)?;
    let rx_address = rows::address(settings, index, CHANNEL_RX_ADDRESS, addressing)?;
    let tx_address = rows::address(settings, index, CHANNEL_TX_ADDRESS, addressing)?;
    Ok(Address {
        rx,
        tx,
        addressing,
        rx_address,
        tx_address,
    })
}

/// The form of a channel's frames and its flow control.
#[derive(Clone, Copy, Debug)]
struct Shape {
    functional: bool,
    pad: bool,
    dl: u8,
    fill: u8,
    bs: u8,
    stmin: u8,
    wft_max: u8,
}

fn read_shape(settings: &Settings, index: u32) -> Result<Shape, ConfigFault>
    ensures value { result ≡ shape_in index (entry_of (tree settings.now) TableKind.Channel index) }
    ensures fits { IfOk result ShapeFits }
{
    let functional = rows::flag(settings, index, CHANNEL_FUNCTIONAL)?;
    let pad = rows::flag(settings, index, CHANNEL_PAD)?;
    let dl = rows::length(settings, index, CHANNEL_DL)?;
    let fill = rows::byte(settings, index, CHANNEL_FILL)?;
    let bs = rows::byte(settings, index, CHANNEL_BS)?;
    let stmin = rows::byte(settings, index, CHANNEL_STMIN)?;
    let wft_max = rows::byte(settings, index, CHANNEL_WFT_MAX)?;
    Ok(Shape {
        functional,
        pad,
        dl,
        fill,
        bs,
        stmin,
        wft_max,
    })
}

/// The timers of a channel, in ticks.
#[derive(Clone, Copy, Debug)]
struct Timers {
    n_as: u32,
    n_ar: u32,
    n_bs: u32,
    n_br: u32,
    n_cs: u32,
    n_cr: u32,
}

fn read_timers(settings: &Settings, index: u32) -> Result<Timers, ConfigFault>
    ensures value { result ≡ timers_in index (entry_of (tree settings.now) TableKind.Channel index) }
    ensures fits { IfOk result TimersFit }
{
    let n_as = rows::number(settings, index, CHANNEL_N_AS)?;
    let n_ar = rows::number(settings, index, CHANNEL_N_AR)?;
    let n_bs = rows::number(settings, index, CHANNEL_N_BS)?;
    let n_br = rows::number(settings, index, CHANNEL_N_BR)?;
    let n_cs = rows::number(settings, index, CHANNEL_N_CS)?;
    let n_cr = rows::number(settings, index, CHANNEL_N_CR)?;
    Ok(Timers {
        n_as,
        n_ar,
        n_bs,
        n_br,
        n_cs,
        n_cr,
    })
}

/// The keys of a channel of this addressing.
fn channel_keys(addressing: Addressing) -> &'static [Key]
    ensures { result.now ≡ channel_keys addressing }
{
    if addressing == Addressing::Normal {
        &PLAIN_CHANNEL_KEYS
    } else {
        &ADDRESSED_CHANNEL_KEYS
    }
}

impl Entry for ChannelKeys {
    ghost use Rattle.gw_config.specs.Entries.{channel_at};

    ghost said = { channel_at };

    fn read(alloc: Global, settings: &Settings, index: u32) -> Result<ChannelKeys, ConfigError> {
        let name = rows::text(alloc, settings, index, CHANNEL_NAME)?;
        let bus = rows::text(alloc, settings, index, CHANNEL_BUS)?;
        let address = read_address(settings, index)?;
        let shape = read_shape(settings, index)?;
        let timers = read_timers(settings, index)?;
        settings.known_only(TableKind::Channel, index, channel_keys(address.addressing))?;
        Ok(ChannelKeys {
            name,
            bus,
            rx: address.rx,
            tx: address.tx,
            addressing: address.addressing,
            rx_address: address.rx_address,
            tx_address: address.tx_address,
            functional: shape.functional,
            pad: shape.pad,
            dl: shape.dl,
            fill: shape.fill,
            bs: shape.bs,
            stmin: shape.stmin,
            wft_max: shape.wft_max,
            n_as: timers.n_as,
            n_ar: timers.n_ar,
            n_bs: timers.n_bs,
            n_br: timers.n_br,
            n_cs: timers.n_cs,
            n_cr: timers.n_cr,
        })
    }
}

/// The keys of the top table that are no tables of their own.
#[derive(Debug, Drop)]
struct Top {
    period: u32,
    window: u32,
    linger: u32,
    mode: Mode,
    groups: GroupList,
    is_grouped: bool,
}

fn read_top(alloc: Global, settings: &Settings) -> Result<Top, ConfigError>
    ensures value { Gives (top_in (tree settings.now)) result }
    ensures fits { IfOk result TopFits }
{
    let period = rows::number(settings, 0, PERIOD)?;
    let window = rows::number(settings, 0, WINDOW)?;
    let linger = rows::number(settings, 0, LINGER)?;
    let mode = rows::word(settings, 0, MODE)?;
    let count = settings.groups()?;
    let groups = groups::read_groups(alloc, settings, count)?;
    Ok(Top {
        period,
        window,
        linger,
        mode,
        groups,
        is_grouped: count.is_some(),
    })
}

/// The keys of a top table with `groups`, or without.
fn top_keys(is_grouped: bool) -> &'static [Key]
    ensures { result.now ≡ top_keys is_grouped }
{
    if is_grouped {
        &GROUPED_TOP_KEYS
    } else {
        &TOP_KEYS
    }
}

/// How many tables there are of each kind.
#[derive(Clone, Copy, Debug)]
struct Counts {
    bus: u32,
    channel: u32,
    path: u32,
    interface: u32,
    cancel: u32,
}

fn read_counts(settings: &Settings) -> Result<Counts, ConfigFault>
    ensures value { result ≡ counts_in (tree settings.now) }
    ensures fits { IfOk result CountsFit }
{
    let bus = rows::count(settings, BUSES)?;
    let channel = rows::count(settings, CHANNELS)?;
    let path = rows::count(settings, PATHS)?;
    let interface = rows::count(settings, INTERFACES)?;
    let cancel = rows::count(settings, CANCELS)?;
    Ok(Counts {
        bus,
        channel,
        path,
        interface,
        cancel,
    })
}

/// The entries of each kind.
#[derive(Debug, Drop)]
struct Entries {
    bus: BusList,
    channel: ChannelList,
    path: PathList,
    interface: InterfaceList,
    cancel: CancelList,
}

fn read_entries(alloc: Global, settings: &Settings, counts: Counts) -> Result<Entries, ConfigError>
    ensures value { Gives (entries_in (tree settings.now) counts) result }
    ensures as_many { IfOk result (HasCounts counts) }
{
    let bus = lists::entries(alloc, settings, counts.bus)?;
    let channel = lists::entries(alloc, settings, counts.channel)?;
    let path = lists::entries(alloc, settings, counts.path)?;
    let interface = lists::entries(alloc, settings, counts.interface)?;
    let cancel = lists::entries(alloc, settings, counts.cancel)?;
    Ok(Entries {
        bus,
        channel,
        path,
        interface,
        cancel,
    })
}

/// The first name or output that is used twice.
fn repeated(entries: &Entries) -> Option<ConfigFault>
    requires bus { length entries.now.bus < 2 ^ 32 }
    requires channel { length entries.now.channel < 2 ^ 32 }
    requires path { length entries.now.path < 2 ^ 32 }
    requires interface { length entries.now.interface < 2 ^ 32 }
    ensures { result ≡ repeated_among entries.now.bus entries.now.channel entries.now.path entries.now.interface }
{
    if let Some(fault) = first_repeat(TableKind::Bus, entries.bus.items()) {
        return Some(fault);
    }
    if let Some(fault) = first_repeat(TableKind::Channel, entries.channel.items()) {
        return Some(fault);
    }
    if let Some(fault) = first_repeat(TableKind::Path, entries.path.items()) {
        return Some(fault);
    }
    first_repeat(TableKind::Interface, entries.interface.items())
}

/// The configuration that the settings say.
fn read_settings(alloc: Global, settings: &Settings) -> Result<Config, ConfigError>
    ensures { Gives (config_in (tree settings.now)) result }
{
    let top = read_top(alloc, settings)?;
    let counts = read_counts(settings)?;
    settings.known_only(TableKind::Top, 0, top_keys(top.is_grouped))?;
    let entries = read_entries(alloc, settings, counts)?;
    if let Some(fault) = repeated(&entries) {
        return Err(ConfigError::Fault(fault));
    }
    Ok(Config {
        period: top.period,
        window: top.window,
        linger: top.linger,
        mode: top.mode,
        groups: top.groups,
        bus: entries.bus,
        channel: entries.channel,
        path: entries.path,
        interface: entries.interface,
        cancel: entries.cancel,
    })
}

/// The configuration that the text spells.
///
/// Else the text's first fault: `NotToml`; then of the top table's keys, in the order of the key table, `Missing`,
/// `WrongKind` or `OutOfRange` of the first that isn't right; then `UnknownKey` of the top table, which comes of
/// `buffers` too where `groups` stands; then so each entry of the buses, channels, paths, interface paths and
/// cancellations, in order; then `Repeated` in that same order. `Memory` says nothing of the text.
pub fn read_config(alloc: Global, text: &[u8]) -> Result<Config, ConfigError>
    ensures ok { IfOk result (Spells text.now) }
    ensures fault { IfErr result (IfFault (HasFault text.now)) }
{
    let settings = Settings::parse(alloc, text)?;
    read_settings(alloc, &settings)
}
