//! A setup from a configuration.
ghost use Rattle.std.specs.Prelude.{◌≡◌, IfOk, IfSome, MatchBool, MatchOption};
ghost use Rattle.route_check.specs.Conflicts.{IsAccepted};
ghost use Rattle.gw_setup.specs.Built.{IsBuilt};
ghost use Rattle.gw_setup.specs.Placed.{IsSetupOf};

use crate::bus::buses_of;
use crate::channels::channels_of;
use crate::destination::destinations_of;
use crate::groups::{cells_of, counts_of};
use crate::setup::Setup;
use crate::source::sources_of;
use gw_base::Memory;
use gw_config::{Config, Mode};
use std::alloc::Global;

/// Whether the workers run one after another, and nothing is cancelled or sent on interface paths.
fn is_built(config: &Config) -> bool
    ensures { MatchBool result (IsBuilt config.now) (¬ IsBuilt config.now) }
{
    if !matches!(config.mode, Mode::Serial) {
        return false;
    }
    if !config.interface.items().is_empty() {
        return false;
    }
    config.cancel.items().is_empty()
}

/// What a run of this configuration is set up with.
///
/// None comes exactly where the configuration isn't built yet: where its workers run in threads, and where it has
/// interface paths or cancellations. `Memory` comes where memory is wanting, and then alone.
pub fn setup_of(alloc: Global, config: &Config) -> Result<Option<Setup<'_>>, Memory>
    requires { IsAccepted config.now }
    ensures built { IfOk result (λ setup. MatchOption setup (¬ IsBuilt config.now) (λ _. IsBuilt config.now)) }
    ensures setup { IfOk result (λ setup. IfSome setup (IsSetupOf config.now)) }
{
    if !is_built(config) {
        return Ok(None);
    }
    let Ok(buses) = buses_of(alloc, config) else {
        return Err(Memory);
    };
    let Ok(channels) = channels_of(alloc, config) else {
        return Err(Memory);
    };
    let Ok(sources) = sources_of(alloc, config) else {
        return Err(Memory);
    };
    let Ok(destinations) = destinations_of(alloc, config) else {
        return Err(Memory);
    };
    let Ok(cells) = cells_of(alloc, config) else {
        return Err(Memory);
    };
    let Ok(counts) = counts_of(alloc, config) else {
        return Err(Memory);
    };
    Ok(Some(Setup {
        buses,
        channels,
        sources,
        destinations,
        cells,
        counts,
        period: config.period,
        window: config.window,
        linger: config.linger,
    }))
}
