//! What a run takes from its configuration: the two buses, the two channels, the path, the buffer, and the times.
ghost use Rattle.std.specs.Prelude.{◌≡◌, List, ℕ, true};
ghost use Rattle.std.specs.List.{list_all};
ghost use Rattle.gw_config.specs.Lawful.{IsLawfulChannel};
ghost use Rattle.gw_config.specs.Texts.{is_name_byte};
ghost use Rattle.gw_run.specs.Setup.{bus_of, comes_to, shape_of};

use crate::address::Address;
use crate::machines::Machines;
use candump_log::LogSource;
use gw_base::{BusNo, ChanNo, DestNo, GroupNo, PathNo};
use gw_config::{BusKeys, ChannelKeys, PathKeys};
use std::marker::Model;
use std::str;
use tp_receiver::RxSet;
use tp_sender::TxSet;
use tp_unit::Shape;

/// The most bytes of a classic frame.
const CLASSIC_BYTES: u8 = 8;

/// The number of the source channel's bus.
pub(crate) const SOURCE: BusNo = BusNo(0);

/// The number of the destination's bus.
pub(crate) const DESTINATION: BusNo = BusNo(1);

/// A bus of a run.
#[derive(Debug, Drop)]
pub(crate) struct Bus<'a> {
    interface: &'a str,
    log: &'a str,
    out: &'a str,
    fd: bool,
    brs: bool,
    budget: u8,
}

impl<'a> Model for Bus<'a> {
    ghost use Rattle.gw_run.specs.Setup.{Bus as BusOfRun, IsBus};

    ghost Value = { BusOfRun };

    ghost view = { λ bus. record { interface = bus.interface.now; log = bus.log.now; out = bus.out.now; fd = bus.fd; brs = bus.brs; budget = bus.budget } };

    ghost invariant = { λ bus. IsBus (record { interface = bus.interface.now; log = bus.log.now; out = bus.out.now; fd = bus.fd; brs = bus.brs; budget = bus.budget }) };
}

impl Bus<'_> {
    ghost use Rattle.std.specs.Prelude.{◌≡◌};
    ghost use Rattle.candump_line.specs.Line.{IsInterface};
    ghost use Rattle.gw_depot.specs.Files.{IsName};

    /// The bus's name, as its interface is called in its log.
    pub(crate) fn name(&self) -> &str
        ensures { result.now ≡ self.now.interface }
    {
        self.interface
    }

    /// The same, as bytes.
    pub(crate) fn interface(&self) -> &[u8]
        ensures interface { result.now ≡ self.now.interface }
        ensures name { IsInterface result.now }
    {
        self.interface.as_bytes()
    }

    /// The file that the bus's sent frames are written to.
    pub(crate) fn out(&self) -> &str
        ensures out { result.now ≡ self.now.out }
        ensures name { IsName result.now }
    {
        self.out
    }
}

impl LogSource for Bus<'_> {
    ghost use Rattle.gw_run.specs.Log.{source_of};

    ghost source = { source_of };

    fn file(&self) -> &str {
        self.log
    }

    fn interface(&self) -> &[u8] {
        self.interface.as_bytes()
    }

    fn is_fd(&self) -> bool {
        self.fd
    }
}

/// A name as text: it has letters, digits, `_`, `-` and `.` alone.
fn text_of(name: &[u8]) -> &str
    requires { list_all is_name_byte name.now ≡ true }
    ensures { result.now ≡ name.now }
{
    let Ok(text) = str::from_utf8(name) else {
        unreachable!();
    };
    text
}

/// The bus that these keys configure.
pub(crate) fn bus_of(keys: &BusKeys) -> Bus<'_>
    ensures { result ≡ bus_of keys.now }
{
    Bus {
        interface: text_of(keys.name.items()),
        log: text_of(keys.log.items()),
        out: text_of(keys.out.items()),
        fd: keys.fd,
        brs: keys.brs,
        budget: keys.budget,
    }
}

/// What a configuration that is built leaves free.
#[derive(Debug, Drop)]
pub(crate) struct Setup<'a> {
    pub(crate) source: Bus<'a>,
    pub(crate) destination: Bus<'a>,
    pub(crate) receiver: &'a ChannelKeys,
    pub(crate) sender: &'a ChannelKeys,
    pub(crate) path: &'a PathKeys,
    pub(crate) cells: u32,
    pub(crate) period: u32,
    pub(crate) linger: u32,
}

impl<'a> Model for Setup<'a> {
    ghost use Rattle.gw_run.specs.Setup.{Setup as SetupOfRun, HasLawfulNumbers};

    ghost Value = { SetupOfRun };

    ghost view = { λ setup. record { source = setup.source; destination = setup.destination; receiver = setup.receiver.now; sender = setup.sender.now; path = setup.path.now; cells = setup.cells; period = setup.period; linger = setup.linger } };

    ghost invariant = { λ setup. HasLawfulNumbers (record { source = setup.source; destination = setup.destination; receiver = setup.receiver.now; sender = setup.sender.now; path = setup.path.now; cells = setup.cells; period = setup.period; linger = setup.linger }) };
}

/// Which frames come to a channel.
fn address_of(channel: &ChannelKeys) -> Address
    ensures address { result ≡ comes_to channel.now }
    ensures lawful { IsLawfulChannel channel.now }
{
    Address {
        id: channel.rx,
        byte: channel.rx_address,
    }
}

/// The shape of a channel's frames on its bus: FD frames where they may be longer than classic ones.
fn shape_of(bus: &Bus<'_>, channel: &ChannelKeys) -> Shape
    ensures { result ≡ shape_of bus.now channel.now }
{
    Shape {
        id: channel.tx,
        fd: channel.dl > CLASSIC_BYTES,
        brs: bus.brs,
        address: channel.tx_address,
        dl: channel.dl,
        pad: channel.pad,
        fill: channel.fill,
    }
}

impl Setup<'_> {
    ghost use Rattle.std.specs.Prelude.{◌≡◌, ◌≢◌, ◌≤◌, ◌<◌};
    ghost use Rattle.gw_run.specs.Setup.{AreMachinesOf, FitsBus};

    /// The source channel's bus.
    pub(crate) fn source(&self) -> &Bus<'_>
        ensures bus { result.now ≡ self.now.source }
        ensures apart { self.now.source.out ≢ self.now.destination.out }
    {
        &self.source
    }

    /// The destination's bus.
    pub(crate) fn destination(&self) -> &Bus<'_>
        ensures { result.now ≡ self.now.destination }
    {
        &self.destination
    }

    /// A tick in microseconds.
    pub(crate) fn period(&self) -> u32
        ensures period { result ≡ self.now.period }
        ensures some { 0 < result }
        ensures most { result ≤ 1_000_000 }
    {
        self.period
    }

    /// The ticks that the run goes on after the last input frame.
    pub(crate) fn linger(&self) -> u32
        ensures linger { result ≡ self.now.linger }
        ensures most { result ≤ 1_000_000 }
    {
        self.linger
    }

    /// How the receiver and the sender are configured.
    pub(crate) fn machines(&self) -> Machines
        ensures are { AreMachinesOf self.now result }
        ensures source { FitsBus self.now.source self.now.receiver }
        ensures destination { FitsBus self.now.destination self.now.sender }
    {
        let receiver = self.receiver;
        let sender = self.sender;
        let path = self.path;
        let source = address_of(receiver);
        Machines {
            rx: RxSet {
                chan: ChanNo(0),
                path: PathNo(0),
                group: GroupNo(0),
                readers: 1,
                a: source.size(),
                functional: receiver.functional,
                bs: receiver.bs,
                st: receiver.stmin,
                wft_max: receiver.wft_max,
                n_ar: receiver.n_ar,
                n_br: receiver.n_br,
                n_cr: receiver.n_cr,
                threshold: path.threshold,
                store: path.store,
            },
            shape: shape_of(&self.source, receiver),
            tx: TxSet {
                path: PathNo(0),
                group: GroupNo(0),
                dest: DestNo(0),
                shape: shape_of(&self.destination, sender),
                threshold: path.threshold,
                store: path.store,
                n_as: sender.n_as,
                n_bs: sender.n_bs,
                n_cs: sender.n_cs,
                period: self.period,
            },
            source,
            destination: address_of(sender),
            source_budget: self.source.budget,
            destination_budget: self.destination.budget,
            cells: self.cells,
        }
    }
}
