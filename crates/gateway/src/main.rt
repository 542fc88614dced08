//! The program: a command over the files of the current folder, said on the standard output.
#![tactic(auto)]

use gw_depot::{FolderDepot, OutSink};
use gw_run::{OpenGate, Status, run};
use std::alloc::AllocError;
use std::env;
use std::io::ErrorKind;
use std::process::ExitCode;

/// Does the command that the words after the program's name ask for, and exits with its status's code.
fn main(rt: HostRuntime) -> ExitCode {
    let words = match env::args(&rt) {
        Ok(args) => args.skip(1).collect::<Vec<String>>(rt.alloc()),
        // A word that isn't UTF-8 has a place in no command.
        Err(error) if error.kind() == ErrorKind::InvalidData => Ok(Vec::new(rt.alloc())),
        Err(_) => Err(AllocError),
    };
    let Ok(words) = words else {
        return ExitCode::from(Status::Memory.code());
    };
    let mut depot = FolderDepot::new(rt.alloc(), &rt);
    let mut say = OutSink::new(&rt);
    let status = run(
        &rt,
        rt.alloc(),
        words.as_slice(),
        &mut depot,
        &mut say,
        &OpenGate,
    );
    ExitCode::from(status.code())
}
