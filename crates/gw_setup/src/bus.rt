//! A bus of a run.
ghost use Rattle.std.specs.Prelude.{◌≡◌, ◌<◌, IfOk, true, length};
ghost use Rattle.std.specs.List.{list_all};
ghost use Rattle.gw_config.specs.Texts.{is_name_byte};
ghost use Rattle.gw_config.specs.Lawful.{IsLawfulBus};
ghost use Rattle.gw_setup.specs.Machines.{bus_of};
ghost use Rattle.gw_setup.specs.Placed.{AreAll, IsBusAt};

use candump_log::LogSource;
use gw_base::Memory;
use gw_config::{BusKeys, Config};
use std::alloc::Global;
use std::marker::Model;
use std::str;

/// A bus of a run: its log, its output, and what is sent on it.
#[derive(Debug, Drop)]
pub struct Bus<'a> {
    interface: &'a str,
    log: &'a str,
    out: &'a str,
    fd: bool,
    brs: bool,
    budget: u8,
}

impl<'a> Model for Bus<'a> {
    ghost use Rattle.gw_setup.specs.Lawful.{IsBus};
    ghost use Rattle.gw_setup.specs.Setup.{Bus as BusOfRun};

    ghost Value = { BusOfRun };

    ghost view = { λ bus. record { interface = bus.interface.now; log = bus.log.now; out = bus.out.now; fd = bus.fd; brs = bus.brs; budget = bus.budget } };

    ghost invariant = { λ bus. IsBus (record { interface = bus.interface.now; log = bus.log.now; out = bus.out.now; fd = bus.fd; brs = bus.brs; budget = bus.budget }) };
}

impl Bus<'_> {
    ghost use Rattle.std.specs.Prelude.{◌≡◌, ◌≤◌};
    ghost use Rattle.candump_line.specs.Line.{IsInterface};
    ghost use Rattle.gw_depot.specs.Files.{IsName};

    /// The bus's name, as its interface is called in its log.
    pub fn name(&self) -> &str
        ensures { result.now ≡ self.now.interface }
    {
        self.interface
    }

    /// The same, as bytes.
    pub fn interface(&self) -> &[u8]
        ensures interface { result.now ≡ self.now.interface }
        ensures name { IsInterface result.now }
    {
        self.interface.as_bytes()
    }

    /// The file that the bus's sent frames are written to.
    pub fn out(&self) -> &str
        ensures out { result.now ≡ self.now.out }
        ensures name { IsName result.now }
    {
        self.out
    }

    /// Whether its FD frames switch to the higher bit rate.
    pub fn brs(&self) -> bool
        ensures { result ≡ self.now.brs }
    {
        self.brs
    }

    /// The most frames that it sends in a tick.
    pub fn budget(&self) -> u8
        ensures budget { result ≡ self.now.budget }
        ensures some { 1 ≤ result }
    {
        self.budget
    }
}

impl LogSource for Bus<'_> {
    ghost use Rattle.gw_setup.specs.Setup.{log_of};

    ghost source = { log_of };

    fn file(&self) -> &str {
        self.log
    }

    fn interface(&self) -> &[u8] {
        self.interface.as_bytes()
    }

    fn is_fd(&self) -> bool {
        self.fd
    }
}

/// A name as text: it has letters, digits, `_`, `-` and `.` alone.
fn text_of(name: &[u8]) -> &str
    requires { list_all is_name_byte name.now ≡ true }
    ensures { result.now ≡ name.now }
{
    let Ok(text) = str::from_utf8(name) else {
        unreachable!();
    };
    text
}

/// The bus that these keys configure.
fn bus_of(keys: &BusKeys) -> Bus<'_>
    ensures is { result ≡ bus_of keys.now }
    ensures lawful { IsLawfulBus keys.now }
{
    Bus {
        interface: text_of(keys.name.items()),
        log: text_of(keys.log.items()),
        out: text_of(keys.out.items()),
        fd: keys.fd,
        brs: keys.brs,
        budget: keys.budget,
    }
}

/// The bus of this number.
fn bus_at(config: &Config, number: usize) -> Bus<'_>
    requires { number < length config.now.bus }
    ensures { IsBusAt config.now number result }
{
    bus_of(&config.bus.items()[number])
}

/// The buses, in the order of the configuration.
pub(crate) fn buses_of(alloc: Global, config: &Config) -> Result<Vec<Bus<'_>>, Memory>
    ensures { IfOk result (λ buses. AreAll config.now.bus (IsBusAt config.now) buses.items) }
{
    let mut buses = Vec::new(alloc);
    for number in 0..config.bus.items().len() {
        let Ok(()) = buses.push(bus_at(config, number)) else {
            return Err(Memory);
        };
    }
    Ok(buses)
}
