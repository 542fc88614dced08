//! What a run takes from its configuration.
use crate::bus::Bus;
use crate::destination::Destination;
use crate::source::Source;
use route_table::ChanEntry;
use std::marker::Model;

/// What a run takes from its configuration: how its machines are configured, and its times.
///
/// A bus, a channel, a path, a destination and a group of buffers have the number of their place in the configuration,
/// a destination that among its path's.
#[derive(Debug, Drop)]
pub struct Setup<'a> {
    pub(crate) buses: Vec<Bus<'a>>,
    pub(crate) channels: Vec<ChanEntry>,
    pub(crate) sources: Vec<Source>,
    pub(crate) destinations: Vec<Destination>,
    pub(crate) cells: Vec<u32>,
    pub(crate) counts: Vec<u8>,
    pub(crate) period: u32,
    pub(crate) window: u32,
    pub(crate) linger: u32,
}

impl<'a> Model for Setup<'a> {
    ghost use Rattle.gw_setup.specs.Lawful.{IsLawfulSetup};
    ghost use Rattle.gw_setup.specs.Setup.{Setup as SetupOfRun};

    ghost Value = { SetupOfRun };

    ghost view = { λ setup. record { buses = setup.buses.items; channels = setup.channels.items; sources = setup.sources.items; destinations = setup.destinations.items; cells = setup.cells.items; counts = setup.counts.items; period = setup.period; window = setup.window; linger = setup.linger } };

    ghost invariant = { λ setup. IsLawfulSetup (record { buses = setup.buses.items; channels = setup.channels.items; sources = setup.sources.items; destinations = setup.destinations.items; cells = setup.cells.items; counts = setup.counts.items; period = setup.period; window = setup.window; linger = setup.linger }) };
}

impl Setup<'_> {
    ghost use Rattle.std.specs.Prelude.{◌≡◌, ◌<◌, ◌≤◌, ℕ, All, AllPairs, length, sum, true};
    ghost use Rattle.gw_law.specs.Plan.{IsLawfulPlan};
    ghost use Rattle.route_table.specs.Match.{are_apart};
    ghost use Rattle.gw_setup.specs.Lawful.{AreLawfulBuses, AreLawfulChannels, IsLawfulDestination, IsLawfulSource};
    ghost use Rattle.gw_setup.specs.Plan.{plan_of};

    /// The buses, by their numbers.
    pub fn buses(&self) -> &[Bus<'_>]
        ensures buses { result.now ≡ self.now.buses }
        ensures lawful { AreLawfulBuses result.now }
    {
        self.buses.as_slice()
    }

    /// The channels and which frames come to them, by their numbers, as a table of frames is built from them.
    pub fn channels(&self) -> &[ChanEntry]
        ensures channels { result.now ≡ self.now.channels }
        ensures lawful { AreLawfulChannels result.now }
    {
        self.channels.as_slice()
    }

    /// The receivers of the paths, one for each, by the numbers of their channels.
    pub fn sources(&self) -> &[Source]
        ensures sources { result.now ≡ self.now.sources }
        ensures lawful { All (IsLawfulSource self.now) result.now }
        ensures in_order { AllPairs (λ one other. one.set.chan.0 < other.set.chan.0) result.now }
    {
        self.sources.as_slice()
    }

    /// The senders of the paths' destinations, one for each, by the numbers of their channels.
    pub fn destinations(&self) -> &[Destination]
        ensures destinations { result.now ≡ self.now.destinations }
        ensures lawful { All (IsLawfulDestination self.now) result.now }
        ensures in_order { AllPairs (λ one other. one.chan.0 < other.chan.0) result.now }
    {
        self.destinations.as_slice()
    }

    /// The cells of each buffer, group after group.
    pub fn cells(&self) -> &[u32]
        ensures cells { result.now ≡ self.now.cells }
        ensures sizes { All (λ size. (1 ≤ size) × (size ≤ 8192)) result.now }
    {
        self.cells.as_slice()
    }

    /// How many buffers each group has, by the groups' numbers.
    pub fn counts(&self) -> &[u8]
        ensures counts { result.now ≡ self.now.counts }
        ensures groups { (1 ≤ length result.now) × (length result.now ≤ 4) }
        ensures all { sum result.now ≡ length self.now.cells }
        ensures buffers { All (λ count. (1 ≤ count) × (count ≤ 32)) result.now }
    {
        self.counts.as_slice()
    }

    /// A tick in microseconds.
    pub fn period(&self) -> u32
        ensures period { result ≡ self.now.period }
        ensures some { 1 ≤ result }
        ensures most { result ≤ 1_000_000 }
    {
        self.period
    }

    /// The ticks of a window.
    pub fn window(&self) -> u32
        ensures window { result ≡ self.now.window }
        ensures some { 1 ≤ result }
        ensures most { result ≤ 1000 }
    {
        self.window
    }

    /// The ticks that the run goes on after the last input frame.
    pub fn linger(&self) -> u32
        ensures linger { result ≡ self.now.linger }
        ensures most { result ≤ 1_000_000 }
    {
        self.linger
    }

    /// Says that the plan of a run of this setup is lawful, up to any last tick; it does nothing.
    pub fn plan_is_lawful(&self)
        ensures { (last : ℕ) → IsLawfulPlan (plan_of self.now last) }
    {
        let _period = self.period;
    }
}
