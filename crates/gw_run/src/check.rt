//! The check of a configuration alone.
ghost use Rattle.std.specs.Prelude.{◌≡◌, ◌≢◌, ℕ, true};
ghost use Rattle.gw_depot.specs.Files.{IsName};
ghost use Rattle.gw_run.specs.Checked.{IsCheckCause, IsCheckFault};

use crate::config::{NamedFiles, read_checked};
use crate::status::Status;
use gw_depot::Depot;
use std::alloc::Global;

/// Reads the configuration and checks it. No file is changed.
pub(crate) fn check<D: Depot>(alloc: Global, config: &str, depot: &mut D) -> Status
    requires { IsName config.now }
    ensures shaped { result ≢ Status.Usage }
    ensures files { (D.state depot.new).files ≡ (D.state depot.old).files }
    ensures cause { (D.state depot.old).told ≡ true → IsCheckCause (D.state depot.old).files config.now result }
    ensures fault { (said said' : ℕ) → IsCheckFault config.now (D.state depot.old).faults (D.state depot.new).faults (D.state depot.new).blame said said' result }
{
    let files = NamedFiles {
        config,
        report: None,
    };
    match read_checked(alloc, &files, depot) {
        Ok(_) => Status::Accepted,
        Err(stop) => stop.status(),
    }
}
