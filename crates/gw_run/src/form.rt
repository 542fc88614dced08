//! The one form of configuration that is run: one group of one buffer, two buses with a channel on each, and a path from the one to the other.
ghost use Rattle.std.specs.Prelude.{◌≡◌, ◌≢◌, [], ◌∷◌, ℕ, MatchBool, MatchOption};
ghost use Rattle.route_check.specs.Conflicts.{IsAccepted};
ghost use Rattle.gw_run.specs.Setup.{IsBaseBus, IsBasePath, IsBuiltConfig, HasBaseTop};
ghost use Rattle.gw_run.specs.Setup.{Setup as SetupOfRun};

use crate::files::are_same;
use crate::setup::{Setup, bus_of};
use gw_config::{BusKeys, ChannelKeys, Config, Mode, PathKeys};

/// The least budget of a bus: a flow control and a data frame of its one channel.
const LEAST_BUDGET: u8 = 2;

/// Whether the bus has a place in each tick for all that its channel may send.
fn is_base_bus(bus: &BusKeys) -> bool
    ensures { MatchBool result (IsBaseBus bus.now) (¬ IsBaseBus bus.now) }
{
    bus.budget >= LEAST_BUDGET
}

/// Whether the channel is on the bus with that name.
fn is_on(bus: &[u8], channel: &ChannelKeys) -> bool
    ensures { MatchBool result (channel.now.bus ≡ bus.now) (channel.now.bus ≢ bus.now) }
{
    are_same(channel.bus.items(), bus)
}

/// Whether the path leads from the one channel to the other alone, with the buffers of the first group.
fn is_base_path(from: &[u8], to: &[u8], path: &PathKeys) -> bool
    ensures { MatchBool result (IsBasePath from.now to.now path.now) (¬ IsBasePath from.now to.now path.now) }
{
    if path.group != 0 {
        return false;
    }
    let [destination] = path.to.items() else {
        return false;
    };
    if !are_same(path.from.items(), from) {
        return false;
    }
    are_same(destination.items(), to)
}

/// Whether the window is one tick, the workers run one after another, and nothing is cancelled or sent on interface paths.
fn has_base_top(config: &Config) -> bool
    ensures { MatchBool result (HasBaseTop config.now) (¬ HasBaseTop config.now) }
{
    if config.window != 1 {
        return false;
    }
    if !matches!(config.mode, Mode::Serial) {
        return false;
    }
    if !config.interface.items().is_empty() {
        return false;
    }
    config.cancel.items().is_empty()
}

/// The cells of the one buffer of the one group; None exactly where there are several.
fn one_buffer(config: &Config) -> Option<u32>
    ensures { MatchOption result ((cells : ℕ) → config.now.groups ≢ (cells ∷ []) ∷ []) (λ cells. config.now.groups ≡ (cells ∷ []) ∷ []) }
{
    let [group] = config.groups.items() else {
        return None;
    };
    let [cells] = group.items() else {
        return None;
    };
    Some(*cells)
}

/// What a run takes from the configuration, where it is built; None exactly where it isn't.
pub(crate) fn built(config: &Config) -> Option<Setup<'_>>
    requires { IsAccepted config.now }
    ensures { MatchOption result ((setup : SetupOfRun) → ¬ IsBuiltConfig config.now setup) (IsBuiltConfig config.now) }
{
    if !has_base_top(config) {
        return None;
    }
    let Some(cells) = one_buffer(config) else {
        return None;
    };
    let [source, destination] = config.bus.items() else {
        return None;
    };
    let [receiver, sender] = config.channel.items() else {
        return None;
    };
    let [path] = config.path.items() else {
        return None;
    };
    if !is_base_bus(source) {
        return None;
    }
    if !is_base_bus(destination) {
        return None;
    }
    if !is_on(source.name.items(), receiver) {
        return None;
    }
    if !is_on(destination.name.items(), sender) {
        return None;
    }
    if !is_base_path(receiver.name.items(), sender.name.items(), path) {
        return None;
    }
    Some(Setup {
        source: bus_of(source),
        destination: bus_of(destination),
        receiver,
        sender,
        path,
        cells,
        period: config.period,
        linger: config.linger,
    })
}
