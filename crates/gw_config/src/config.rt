//! The configuration and its entries; each type keeps the rules of its rows.
use crate::words::{Addressing, Mode, QueueKind, Role};
use can_frame::CanId;
use gw_base::{Bytes, ListOf, Tick};
use std::marker::Model;

/// The cells of each buffer of a group.
pub type CellsList = ListOf<u32>;

/// The groups of buffers, in order.
pub type GroupList = ListOf<CellsList>;

/// Names, in order.
pub type NameList = ListOf<Bytes>;

/// The buses, in order.
pub type BusList = ListOf<BusKeys>;

/// The channels, in order.
pub type ChannelList = ListOf<ChannelKeys>;

/// The paths, in order.
pub type PathList = ListOf<PathKeys>;

/// The interface paths, in order.
pub type InterfaceList = ListOf<InterfaceKeys>;

/// The cancellations, in order.
pub type CancelList = ListOf<CancelKeys>;

/// A configuration that has been read: each number and text is in its range, and no name or output is used twice.
#[derive(Debug, Drop)]
pub struct Config {
    /// The duration of a tick, in microseconds.
    pub period: u32,
    /// The ticks of a window.
    pub window: u32,
    /// The ticks that a run goes on after the last input frame.
    pub linger: u32,
    /// How the workers run.
    pub mode: Mode,
    /// The cells of each buffer, group by group.
    pub groups: GroupList,
    /// The buses.
    pub bus: BusList,
    /// The channels.
    pub channel: ChannelList,
    /// The paths.
    pub path: PathList,
    /// The interface paths.
    pub interface: InterfaceList,
    /// The cancellations.
    pub cancel: CancelList,
}

impl Model for Config {
    ghost use Rattle.gw_config.specs.Config.{Configuration};
    ghost use Rattle.gw_config.specs.Lawful.{IsLawful};

    ghost Value = { Configuration };

    ghost view = { λ c. record { period = c.period; window = c.window; linger = c.linger; mode = c.mode; groups = c.groups; bus = c.bus; channel = c.channel; path = c.path; interface = c.interface; cancel = c.cancel } };

    ghost invariant = { λ c. IsLawful (record { period = c.period; window = c.window; linger = c.linger; mode = c.mode; groups = c.groups; bus = c.bus; channel = c.channel; path = c.path; interface = c.interface; cancel = c.cancel }) };
}

/// A bus.
#[derive(Debug, Drop)]
pub struct BusKeys {
    /// Its name, as its interface is called in the logs.
    pub name: Bytes,
    /// The file of its input.
    pub log: Bytes,
    /// The file of its output.
    pub out: Bytes,
    /// Whether it takes CAN FD frames.
    pub fd: bool,
    /// Whether its CAN FD frames switch to the higher bit rate.
    pub brs: bool,
    /// The most frames that it takes in a tick.
    pub budget: u8,
}

impl Model for BusKeys {
    ghost use Rattle.gw_config.specs.Config.{BusEntry};
    ghost use Rattle.gw_config.specs.Lawful.{IsLawfulBus};

    ghost Value = { BusEntry };

    ghost view = { λ b. record { name = b.name; log = b.log; out = b.out; fd = b.fd; brs = b.brs; budget = b.budget } };

    ghost invariant = { λ b. IsLawfulBus (record { name = b.name; log = b.log; out = b.out; fd = b.fd; brs = b.brs; budget = b.budget }) };
}

/// A channel.
#[derive(Debug, Drop)]
pub struct ChannelKeys {
    /// Its name.
    pub name: Bytes,
    /// The name of its bus.
    pub bus: Bytes,
    /// The identifier of the frames that it receives.
    pub rx: CanId,
    /// The identifier of the frames that it sends.
    pub tx: CanId,
    /// How its frames are addressed beside their identifier.
    pub addressing: Addressing,
    /// The address byte of the frames that it receives.
    pub rx_address: Option<u8>,
    /// The address byte of the frames that it sends.
    pub tx_address: Option<u8>,
    /// Whether it is addressed functionally.
    pub functional: bool,
    /// Whether its frames are filled up to 8 bytes.
    pub pad: bool,
    /// The most bytes of a frame that it sends.
    pub dl: u8,
    /// The byte that its frames are filled with.
    pub fill: u8,
    /// The block size that it grants, in frames; 0 is no limit.
    pub bs: u8,
    /// The separation time that it asks for, as a flow control carries it.
    pub stmin: u8,
    /// The most flow controls in a row that ask to wait.
    pub wft_max: u8,
    /// The time N_As for its own frame to be sent, in ticks.
    pub n_as: u32,
    /// The time N_Ar for its own flow control to be sent, in ticks.
    pub n_ar: u32,
    /// The time N_Bs for the next flow control, in ticks.
    pub n_bs: u32,
    /// The time N_Br until its own next flow control, in ticks.
    pub n_br: u32,
    /// The time N_Cs for the bytes of its own next frame, in ticks.
    pub n_cs: u32,
    /// The time N_Cr for the next consecutive frame, in ticks.
    pub n_cr: u32,
}

impl Model for ChannelKeys {
    ghost use Rattle.gw_config.specs.Config.{ChannelEntry};
    ghost use Rattle.gw_config.specs.Lawful.{IsLawfulChannel};

    ghost Value = { ChannelEntry };

    ghost view = { λ c. record { name = c.name; bus = c.bus; rx = c.rx; tx = c.tx; addressing = c.addressing; rx_address = c.rx_address; tx_address = c.tx_address; functional = c.functional; pad = c.pad; dl = c.dl; fill = c.fill; bs = c.bs; stmin = c.stmin; wft_max = c.wft_max; n_as = c.n_as; n_ar = c.n_ar; n_bs = c.n_bs; n_br = c.n_br; n_cs = c.n_cs; n_cr = c.n_cr } };

    ghost invariant = { λ c. IsLawfulChannel (record { name = c.name; bus = c.bus; rx = c.rx; tx = c.tx; addressing = c.addressing; rx_address = c.rx_address; tx_address = c.tx_address; functional = c.functional; pad = c.pad; dl = c.dl; fill = c.fill; bs = c.bs; stmin = c.stmin; wft_max = c.wft_max; n_as = c.n_as; n_ar = c.n_ar; n_bs = c.n_bs; n_br = c.n_br; n_cs = c.n_cs; n_cr = c.n_cr }) };
}

/// A path from a source channel to destination channels.
#[derive(Debug, Drop)]
pub struct PathKeys {
    /// Its name.
    pub name: Bytes,
    /// The name of its source channel.
    pub from: Bytes,
    /// The names of its destination channels.
    pub to: NameList,
    /// The cells that are received before forwarding begins.
    pub threshold: u32,
    /// Whether a unit is received whole before forwarding begins.
    pub store: bool,
    /// The number of the group whose buffers its units are stored in, from 0.
    pub group: u8,
}

impl Model for PathKeys {
    ghost use Rattle.gw_config.specs.Config.{PathEntry};
    ghost use Rattle.gw_config.specs.Lawful.{IsLawfulPath};

    ghost Value = { PathEntry };

    ghost view = { λ p. record { name = p.name; from = p.from; to = p.to; threshold = p.threshold; store = p.store; group = p.group } };

    ghost invariant = { λ p. IsLawfulPath (record { name = p.name; from = p.from; to = p.to; threshold = p.threshold; store = p.store; group = p.group }) };
}

/// An interface path from one bus to another.
#[derive(Debug, Drop)]
pub struct InterfaceKeys {
    /// Its name.
    pub name: Bytes,
    /// The name of the bus that it leads from.
    pub from_bus: Bytes,
    /// The identifier of the frames that it takes.
    pub from_id: CanId,
    /// The name of the bus that it leads to.
    pub to_bus: Bytes,
    /// The identifier of the frames that it gives.
    pub to_id: CanId,
    /// What its queue keeps.
    pub queue: QueueKind,
    /// The most units in its queue; a queue of the last unit holds one.
    pub depth: u32,
}

impl Model for InterfaceKeys {
    ghost use Rattle.gw_config.specs.Config.{InterfaceEntry};
    ghost use Rattle.gw_config.specs.Lawful.{IsLawfulInterface};

    ghost Value = { InterfaceEntry };

    ghost view = { λ i. record { name = i.name; from_bus = i.from_bus; from_id = i.from_id; to_bus = i.to_bus; to_id = i.to_id; queue = i.queue; depth = i.depth } };

    ghost invariant = { λ i. IsLawfulInterface (record { name = i.name; from_bus = i.from_bus; from_id = i.from_id; to_bus = i.to_bus; to_id = i.to_id; queue = i.queue; depth = i.depth }) };
}

/// A cancellation of what a path carries at a tick.
#[derive(Debug, Drop)]
pub struct CancelKeys {
    /// The name of the path.
    pub path: Bytes,
    /// The tick.
    pub tick: Tick,
    /// The side that it ends.
    pub role: Role,
    /// The name of the destination channel whose sending it ends, if it ends one.
    pub to: Option<Bytes>,
}

impl Model for CancelKeys {
    ghost use Rattle.gw_config.specs.Config.{CancelEntry};
    ghost use Rattle.gw_config.specs.Lawful.{IsLawfulCancel};

    ghost Value = { CancelEntry };

    ghost view = { λ c. record { path = c.path; tick = c.tick; role = c.role; to = c.to } };

    ghost invariant = { λ c. IsLawfulCancel (record { path = c.path; tick = c.tick; role = c.role; to = c.to }) };
}
