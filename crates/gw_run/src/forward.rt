//! A run of a configuration that is built: logs are read, results are planned, and then written.
ghost use Rattle.std.specs.Prelude.{◌≡◌, ◌≢◌, ℕ, List, true, Some};
ghost use Rattle.gw_depot.specs.Files.{IsName};
ghost use Rattle.gw_run.specs.Causes.{IsCause, IsFault, IsSetup, LeavesFiles, log_status};
ghost use Rattle.gw_run.specs.Forwarded.{Forwards, IfDone, IsConfigured};
ghost use Rattle.gw_run.specs.Results.{bus_numbered};
ghost use Rattle.gw_run.specs.Decided.{IsNameIn, IsToldOf};

use crate::config::{NamedFiles, read_checked};
use crate::form::built;
use crate::plan::plan_results;
use crate::results::write_results;
use crate::say::tell;
use crate::setup::{DESTINATION, SOURCE, Setup};
use crate::status::{FileRole, Form, Status, Which};
use crate::words::RunFiles;
use candump_log::{LineStop, LogStop, read_log};
use gw_base::BusNo;
use gw_depot::{Depot, Sink};
use std::alloc::Global;

/// The most lines of all logs together.
const MOST_LINES: u32 = 1_000_000;

/// What is answered where a bus's log wasn't read to its end.
fn refused_log(bus: BusNo, stop: LogStop) -> Status
    ensures { result ≡ log_status bus stop }
{
    match stop {
        LogStop::Fault => Status::ReadFault(FileRole::Log(bus)),
        LogStop::Line(LineStop::Memory) => Status::Memory,
        LogStop::Line(LineStop::Refused { line, fault }) => Status::LogRefused { bus, line, fault },
        LogStop::Line(LineStop::Limit) => Status::Limit {
            which: Which::Lines,
            value: u64::from(MOST_LINES) + 1,
        },
    }
}

/// Runs what the configuration leaves free, over its two logs.
fn carry_out<D: Depot>(alloc: Global, setup: &Setup<'_>, report: &str, depot: &mut D) -> Status
    requires name { IsName report.now }
    requires source { report.now ≢ setup.now.source.out }
    requires destination { report.now ≢ setup.now.destination.out }
    ensures done { (config : List ℕ) → (D.state depot.old).told ≡ true → IsConfigured (D.state depot.old).files config report.now setup.now → IfDone result (Forwards (D.state depot.old).files (D.state depot.new).files config report.now) }
    ensures shaped { result ≢ Status.Usage }
    ensures cause { (config : List ℕ) → (D.state depot.old).told ≡ true → IsConfigured (D.state depot.old).files config report.now setup.now → IsCause (D.state depot.old).files config report.now result }
    ensures files { (config : List ℕ) → (D.state depot.old).told ≡ true → IsConfigured (D.state depot.old).files config report.now setup.now → LeavesFiles result (D.state depot.old).files (D.state depot.new).files config report.now }
    ensures fault { (config : List ℕ) → IsSetup (D.state depot.old).told (D.state depot.old).files config report.now setup.now → IsFault (D.state depot.old).told (D.state depot.old).files config report.now (D.state depot.old).faults (D.state depot.new).faults (D.state depot.new).blame result }
{
    let source = match read_log(alloc, depot, setup.source(), MOST_LINES) {
        Ok(source) => source,
        Err(stop) => return refused_log(SOURCE, stop),
    };
    let rest = MOST_LINES - source.lines;
    let destination = match read_log(alloc, depot, setup.destination(), rest) {
        Ok(destination) => destination,
        Err(stop) => return refused_log(DESTINATION, stop),
    };
    let plan = match plan_results(
        alloc,
        setup,
        source.frames.items(),
        destination.frames.items(),
    ) {
        Ok(plan) => plan,
        Err(status) => return status,
    };
    if let Err(role) = write_results(
        depot,
        setup,
        plan.source_output.items(),
        plan.output.items(),
        report,
        plan.report.items(),
    ) {
        return Status::WriteFault(role);
    }
    Status::Ok(plan.summary)
}

/// The name of the bus that a status speaks of.
fn name_in<'a>(setup: &'a Setup<'_>, status: Status) -> &'a str
    ensures { IsNameIn setup.now status result.now }
{
    match status {
        Status::LogRefused {
            bus,
            line: _,
            fault: _,
        } => name_of(setup, bus),
        _ => "",
    }
}

/// The name of the bus with that number.
fn name_of<'a>(setup: &'a Setup<'_>, bus: BusNo) -> &'a str
    ensures { result.now ≡ (bus_numbered setup.now bus.0).interface }
{
    if bus.0 == 0 {
        setup.source().name()
    } else {
        setup.destination().name()
    }
}

/// Runs the configuration over its logs, and says how that ended.
pub(crate) fn forward<D: Depot, K: Sink>(
    alloc: Global,
    files: &RunFiles<'_>,
    depot: &mut D,
    say: &mut K,
) -> Status
    requires { IsName files.now.config.now × IsName files.now.report.now }
    ensures told { (K.state say.new).told ≡ (K.state say.old).told }
    ensures answer { IsToldOf (D.state depot.old) (D.state depot.new) files.now.config.now files.now.report.now (K.state say.old) (K.state say.new) result }
{
    let named = NamedFiles {
        config: files.config,
        report: Some(files.report),
    };
    let checked = match read_checked(alloc, &named, depot) {
        Ok(checked) => checked,
        Err(stop) => return tell(alloc, stop.status(), "", say),
    };
    let Some(setup) = built(checked.config()) else {
        return tell(alloc, Status::Unbuilt(Form::Configuration), "", say);
    };
    let status = carry_out(alloc, &setup, files.report, depot);
    tell(alloc, status, name_in(&setup, status), say)
}
