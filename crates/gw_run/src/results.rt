//! What a run leaves behind: the outputs and the report.
ghost use Rattle.std.specs.Prelude.{◌≡◌, ◌≢◌, ◌≤◌, true, List, ℕ, OnOk, OnErr, IfErr};
ghost use Rattle.gw_depot.specs.Files.{IsName};
ghost use Rattle.gw_run.specs.Results.{HasBegun, HasOutputs, HasResults, OutputsBegun, WriteFailed};

use crate::files::append_all;
use crate::setup::{DESTINATION, SOURCE, Setup};
use crate::status::FileRole;
use gw_depot::Depot;

/// Creates both outputs, and writes them.
fn write_outputs<D: Depot>(
    depot: &mut D,
    setup: &Setup<'_>,
    controls: &[u8],
    frames: &[u8],
) -> Result<(), FileRole>
    ensures told { (D.state depot.new).told ≡ (D.state depot.old).told }
    ensures made { (D.state depot.old).told ≡ true → OnOk result (HasOutputs (D.state depot.old).files (D.state depot.new).files setup.now controls.now frames.now) }
    ensures begun { (D.state depot.old).told ≡ true → OnErr result (OutputsBegun (D.state depot.old).files (D.state depot.new).files setup.now controls.now frames.now) }
    ensures file { IfErr result (λ role. role ≢ FileRole.Say) }
    ensures later { (D.state depot.old).faults ≤ (D.state depot.new).faults }
    ensures cause { IfErr result (λ role. (report : List ℕ) → WriteFailed setup.now report (D.state depot.old).faults (D.state depot.new).faults (D.state depot.new).blame role) }
{
    let source = setup.source().out();
    let destination = setup.destination().out();
    let Ok(()) = depot.create(source) else {
        return Err(FileRole::Out(SOURCE));
    };
    let Ok(()) = depot.create(destination) else {
        return Err(FileRole::Out(DESTINATION));
    };
    let Ok(()) = append_all(depot, source, controls) else {
        return Err(FileRole::Out(SOURCE));
    };
    let Ok(()) = append_all(depot, destination, frames) else {
        return Err(FileRole::Out(DESTINATION));
    };
    Ok(())
}

/// Creates both outputs and writes them, and then the report.
pub(crate) fn write_results<D: Depot>(
    depot: &mut D,
    setup: &Setup<'_>,
    controls: &[u8],
    frames: &[u8],
    report: &str,
    text: &[u8],
) -> Result<(), FileRole>
    requires name { IsName report.now }
    requires source { report.now ≢ setup.now.source.out }
    requires destination { report.now ≢ setup.now.destination.out }
    ensures told { (D.state depot.new).told ≡ (D.state depot.old).told }
    ensures results { (D.state depot.old).told ≡ true → OnOk result (HasResults (D.state depot.old).files (D.state depot.new).files setup.now controls.now frames.now report.now text.now) }
    ensures file { IfErr result (λ role. role ≢ FileRole.Say) }
    ensures begun { (D.state depot.old).told ≡ true → OnErr result (HasBegun (D.state depot.old).files (D.state depot.new).files setup.now controls.now frames.now report.now text.now) }
    ensures later { (D.state depot.old).faults ≤ (D.state depot.new).faults }
    ensures cause { IfErr result (WriteFailed setup.now report.now (D.state depot.old).faults (D.state depot.new).faults (D.state depot.new).blame) }
{
    if let Err(role) = write_outputs(depot, setup, controls, frames) {
        return Err(role);
    }
    let Ok(()) = depot.create(report) else {
        return Err(FileRole::Report);
    };
    let Ok(()) = append_all(depot, report, text) else {
        return Err(FileRole::Report);
    };
    Ok(())
}
