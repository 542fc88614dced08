//! The configuration of a command: read, and checked against itself and the command's files.
ghost use Rattle.std.specs.Prelude.{◌≡◌, ◌≢◌, ◌<◌, ◌≤◌, ◌^◌, ℕ, length, map, None, option_map, true, IfErr, IfOk};
ghost use Rattle.std.specs.Str.{bytes_eq};
ghost use Rattle.gw_config.specs.Config.{Configuration};
ghost use Rattle.gw_depot.specs.Files.{IsName};
ghost use Rattle.gw_run.specs.Config.{FaultsOnConfig, ReadsConfig, StopsConfig, files_repeat, first_named, is_named, key_named, stop_status};

use crate::files::{ReadStop, read_whole};
use crate::status::{ConfigCause, FileRole, Status, Which};
use gw_config::{BusKeys, Config, read_config};
use gw_depot::Depot;
use gw_settings::{ConfigError, ConfigFault, FaultKind, Key, TableKind};
use route_check::{Checked, check};
use std::alloc::Global;

/// The most bytes of a configuration.
const MOST_CONFIG_BYTES: usize = 65_536;

/// The files that a command names: its configuration and, where it has one, its report.
#[derive(Clone, Copy)]
pub(crate) struct NamedFiles<'a> {
    pub(crate) config: &'a str,
    pub(crate) report: Option<&'a str>,
}

/// Why a configuration isn't used.
#[derive(Clone, Copy, Debug, PartialEq, Eq)]
pub(crate) enum ConfigStop {
    /// A read failed.
    Fault,
    Memory,
    /// The file has more bytes than a configuration may have.
    TooLong,
    /// It has a fault or a conflict.
    Refused(ConfigCause),
}

impl ConfigStop {
    /// What is answered.
    pub(crate) fn status(self) -> Status
        ensures { result ≡ stop_status self }
    {
        match self {
            ConfigStop::Fault => Status::ReadFault(FileRole::Config),
            ConfigStop::Memory => Status::Memory,
            ConfigStop::TooLong => Status::Limit {
                which: Which::ConfigBytes,
                value: MOST_CONFIG_BYTES as u64 + 1,
            },
            ConfigStop::Refused(cause) => Status::ConfigRefused(cause),
        }
    }
}

/// Whether this is the report's name.
fn is_report(name: &[u8], files: &NamedFiles<'_>) -> bool
    ensures { result ≡ is_named (option_map (λ r. r.now) files.now.report) name.now }
{
    match files.report {
        None => false,
        Some(report) => name == report.as_bytes(),
    }
}

/// The key of a bus whose file is one that the command writes, or would write over what the command reads.
fn named_key(bus: &BusKeys, files: &NamedFiles<'_>) -> Option<Key>
    ensures { result ≡ key_named files.now.config.now (option_map (λ r. r.now) files.now.report) bus.now }
{
    if is_report(bus.log.items(), files) {
        return Some(Key::Log);
    }
    if bus.out.items() == files.config.as_bytes() {
        return Some(Key::Out);
    }
    if is_report(bus.out.items(), files) {
        return Some(Key::Out);
    }
    None
}

/// The first bus with such a file.
fn first_named(buses: &[BusKeys], files: &NamedFiles<'_>) -> Option<ConfigFault>
    requires { length buses.now < 2 ^ 32 }
    ensures { result ≡ first_named files.now.config.now (option_map (λ r. r.now) files.now.report) 0 buses.now }
{
    for (index, bus) in buses.iter().enumerate() {
        if let Some(key) = named_key(bus, files) {
            return Some(ConfigFault {
                kind: FaultKind::Repeated,
                table: TableKind::Bus,
                index: index as u32,
                key,
            });
        }
    }
    None
}

/// The buses of a configuration, of which there are few.
fn buses_of(config: &Config) -> &[BusKeys]
    ensures buses { result.now ≡ config.now.bus }
    ensures few { length result.now < 2 ^ 32 }
{
    config.bus.items()
}

/// Reads the configuration and checks it. No file is changed.
pub(crate) fn read_checked<D: Depot>(
    alloc: Global,
    files: &NamedFiles<'_>,
    depot: &mut D,
) -> Result<Checked, ConfigStop>
    requires { IsName files.now.config.now }
    ensures told { (D.state depot.new).told ≡ (D.state depot.old).told }
    ensures files { (D.state depot.new).files ≡ (D.state depot.old).files }
    ensures read { (D.state depot.old).told ≡ true → IfOk result (ReadsConfig (D.state depot.old).files files.now.config.now (option_map (λ r. r.now) files.now.report)) }
    ensures apart { IfOk result (λ checked. files_repeat files.now.config.now (option_map (λ r. r.now) files.now.report) checked ≡ None) }
    ensures stopped { (D.state depot.old).told ≡ true → IfErr result (StopsConfig (D.state depot.old).files files.now.config.now (option_map (λ r. r.now) files.now.report)) }
    ensures later { (D.state depot.old).faults ≤ (D.state depot.new).faults }
    ensures fault { IfErr result (FaultsOnConfig files.now.config.now (D.state depot.old).faults (D.state depot.new).faults (D.state depot.new).blame) }
{
    let text = match read_whole(alloc, depot, files.config, MOST_CONFIG_BYTES) {
        Ok(text) => text,
        Err(ReadStop::Fault) => return Err(ConfigStop::Fault),
        Err(ReadStop::Memory) => return Err(ConfigStop::Memory),
        Err(ReadStop::TooLong) => return Err(ConfigStop::TooLong),
    };
    let config = match read_config(alloc, text.items()) {
        Ok(config) => config,
        Err(ConfigError::Fault(fault)) => return Err(ConfigStop::Refused(ConfigCause::Fault(
            fault,
        ))),
        Err(ConfigError::Memory) => return Err(ConfigStop::Memory),
    };
    if let Some(fault) = first_named(buses_of(&config), files) {
        return Err(ConfigStop::Refused(ConfigCause::Fault(fault)));
    }
    match check(config) {
        Ok(checked) => Ok(checked),
        Err(refused) => Err(ConfigStop::Refused(ConfigCause::Conflict(refused.conflict))),
    }
}
