//! A configuration that is accepted, or its first conflict.
ghost use Rattle.std.specs.Prelude.{◌≡◌, IfErr, IfOk};
ghost use Rattle.route_check.specs.Conflicts.{IsAccepted, IsFirstConflict};

use crate::Conflict;
use crate::search::first_conflict;
use gw_config::Config;
use std::marker::Model;

/// A configuration without a conflict.
#[derive(Debug, Drop)]
pub struct Checked {
    config: Config,
}

impl Model for Checked {
    ghost use Rattle.gw_config.specs.Config.{Configuration};
    ghost use Rattle.route_check.specs.Conflicts.{IsAccepted};

    ghost Value = { Configuration };

    ghost view = { λ checked. checked.config };

    ghost invariant = { λ checked. IsAccepted checked.config };
}

impl Checked {
    /// The configuration.
    pub fn config(&self) -> &Config
        ensures same { result.now ≡ self.now }
        ensures accepted { IsAccepted self.now }
    {
        &self.config
    }
}

/// A configuration with its first conflict.
#[derive(Debug, Drop)]
pub struct Refused {
    /// The configuration, as it was handed in.
    pub config: Config,
    /// Its first conflict: by kind, then by the first place and its number, then by the other place and its number.
    pub conflict: Conflict,
}

/// Accepts the configuration where none of its entries contradict each other. It takes no memory.
///
/// `Err` comes exactly where there is a conflict, and gives the first one. The conflicts are this project's own.
pub fn check(config: Config) -> Result<Checked, Refused>
    ensures accepted { IfOk result (λ checked. (checked ≡ config) × IsAccepted config) }
    ensures refused { IfErr result (λ refused. (refused.config ≡ config) × IsFirstConflict config refused.conflict) }
{
    if let Some(conflict) = first_conflict(&config) {
        return Err(Refused { config, conflict });
    }
    Ok(Checked { config })
}
