//! How a command ended: its status, the number that the program exits with, and what is said of it.
ghost use Rattle.std.specs.Prelude.{◌≡◌};

use candump_line::LineFault;
use gw_base::BusNo;
use gw_settings::ConfigFault;
use route_check::Conflict;
use std::fmt;

/// What is said where the words have no shape.
const USAGE: &str =
    "usage: gateway run CONFIG REPORT; gateway check CONFIG; gateway make SEED SIZE";

/// The numbers of a run that was done to its end.
#[derive(Clone, Copy, Debug, PartialEq, Eq)]
pub struct Summary {
    /// How many sessions were received.
    pub sessions: u64,
    /// How many of them were received whole.
    pub whole: u64,
    /// How many destinations they had.
    pub dests: u64,
    /// How many of these were sent whole.
    pub sent: u64,
    /// How often a buffer of the pool was taken or freed.
    pub moves: u64,
}

/// What isn't built yet.
#[derive(Clone, Copy, Debug, PartialEq, Eq)]
pub enum Form {
    /// The configuration is accepted, but isn't of the one form that is run.
    Configuration,
}

/// What a file is to the command.
#[derive(Clone, Copy, Debug, PartialEq, Eq)]
pub enum FileRole {
    /// The configuration.
    Config,
    /// The file that a bus's frames are read from.
    Log(BusNo),
    /// The file that a bus's sent frames are written to.
    Out(BusNo),
    /// The report.
    Report,
    /// What the program says.
    Say,
}

/// Why a configuration is refused.
#[derive(Clone, Copy, Debug, PartialEq, Eq)]
pub enum ConfigCause {
    /// The first fault of its text.
    Fault(ConfigFault),
    /// The first conflict between its entries.
    Conflict(Conflict),
}

/// A count that has a limit.
#[derive(Clone, Copy, Debug, PartialEq, Eq)]
pub enum Which {
    /// The bytes of the configuration.
    ConfigBytes,
    /// The lines of all logs together.
    Lines,
    /// The ticks of the run.
    Ticks,
}

/// How a command ended.
#[derive(Clone, Copy, Debug, PartialEq, Eq)]
pub enum Status {
    /// The run was done to its end.
    Ok(Summary),
    /// The check was done, and the configuration has no fault and no conflict.
    Accepted,
    /// The words have no shape of a command.
    Usage,
    /// The configuration has a fault or a conflict.
    ConfigRefused(ConfigCause),
    /// The line of the bus's log, counted from 1, has a fault.
    LogRefused {
        bus: BusNo,
        line: u32,
        fault: LineFault,
    },
    /// What the command needs isn't built yet.
    Unbuilt(Form),
    /// A read of the file failed.
    ReadFault(FileRole),
    /// The file couldn't be made or written, or the text couldn't be said.
    WriteFault(FileRole),
    /// Want of memory.
    Memory,
    /// The count passes its limit.
    Limit {
        which: Which,
        value: u64,
    },
}

impl Status {
    ghost use Rattle.gw_run.specs.Status.{code_of, is_done};

    /// The number that the program exits with.
    pub fn code(&self) -> u8
        ensures { result ≡ code_of self.now }
    {
        match self {
            Status::Ok(_) | Status::Accepted => 0,
            Status::Usage => 1,
            Status::ConfigRefused(_) => 2,
            Status::LogRefused { .. } => 3,
            Status::ReadFault(_) => 4,
            Status::WriteFault(_) => 5,
            Status::Memory => 6,
            Status::Limit { .. } => 7,
            Status::Unbuilt(_) => 9,
        }
    }

    /// Whether the command was done to its end.
    pub(crate) fn is_done(&self) -> bool
        ensures { result ≡ is_done self.now }
    {
        matches!(self, Status::Ok(_) | Status::Accepted)
    }
}

impl fmt::Display for Summary {
    ghost use Rattle.std.specs.Prelude.{Some};
    ghost use Rattle.gw_run.specs.Status.{summary_text};

    ghost output = { λ summary. Some (summary_text summary) };

    fn fmt<W: fmt::Write>(&self, f: &mut fmt::Formatter<W>) -> fmt::Result {
        let Summary {
            sessions,
            whole,
            dests,
            sent,
            moves,
        } = self;
        write!(f, "{sessions} {whole} {dests} {sent} {moves}")
    }
}

impl fmt::Display for FileRole {
    ghost use Rattle.std.specs.Prelude.{Some};
    ghost use Rattle.gw_run.specs.Status.{role_text};

    ghost output = { λ role. Some (role_text role) };

    fn fmt<W: fmt::Write>(&self, f: &mut fmt::Formatter<W>) -> fmt::Result {
        match self {
            FileRole::Config => write!(f, "config"),
            FileRole::Log(BusNo(bus)) => write!(f, "log {bus}"),
            FileRole::Out(BusNo(bus)) => write!(f, "out {bus}"),
            FileRole::Report => write!(f, "report"),
            FileRole::Say => write!(f, "say"),
        }
    }
}

impl fmt::Display for Which {
    ghost use Rattle.std.specs.Prelude.{Some};
    ghost use Rattle.gw_run.specs.Status.{which_text};

    ghost output = { λ which. Some (which_text which) };

    fn fmt<W: fmt::Write>(&self, f: &mut fmt::Formatter<W>) -> fmt::Result {
        match self {
            Which::ConfigBytes => write!(f, "config-bytes"),
            Which::Lines => write!(f, "lines"),
            Which::Ticks => write!(f, "ticks"),
        }
    }
}

/// A status that is said, with the name of the bus that it speaks of.
#[derive(Clone, Copy)]
pub(crate) struct Said<'a> {
    pub(crate) status: Status,
    pub(crate) name: &'a str,
}

/// The text that is said of the status, without its line feed.
impl fmt::Display for Said<'_> {
    ghost use Rattle.std.specs.Prelude.{Some};
    ghost use Rattle.gw_run.specs.Status.{status_text};

    ghost output = { λ said. Some (status_text said.name.now said.status) };

    fn fmt<W: fmt::Write>(&self, f: &mut fmt::Formatter<W>) -> fmt::Result {
        let name = self.name;
        match self.status {
            Status::Ok(summary) => write!(f, "done {summary}"),
            Status::Accepted => write!(f, "accepted"),
            Status::Usage => write!(f, "{USAGE}"),
            Status::ConfigRefused(ConfigCause::Fault(fault)) => write!(f, "config {fault}"),
            Status::ConfigRefused(ConfigCause::Conflict(conflict)) => {
                write!(f, "config: {conflict}")
            }
            Status::LogRefused {
                bus: _,
                line,
                fault,
            } => {
                let LineFault { kind, at } = fault;
                write!(f, "log {name} line {line} byte {at}: {kind}")
            }
            Status::Unbuilt(Form::Configuration) => write!(f, "unbuilt configuration"),
            Status::ReadFault(role) => write!(f, "read {role}"),
            Status::WriteFault(role) => write!(f, "write {role}"),
            Status::Memory => write!(f, "memory"),
            Status::Limit { which, value } => write!(f, "limit {which} {value}"),
        }
    }
}
