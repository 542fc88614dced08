//! The top call: words in, files read and written, a status out.
ghost use Rattle.std.specs.Prelude.{◌≡◌, ◌↔◌, List, ℕ, map};
ghost use Rattle.std.specs.String.{string_bytes};
ghost use Rattle.gw_run.specs.Answered.{Answers, SaysAnswer};
ghost use Rattle.gw_run.specs.Checked.{AnswersCheck};
ghost use Rattle.gw_run.specs.Words.{AreShapeless, IsCheck, IsRun};

use crate::check::check;
use crate::forward::forward;
use crate::gate::Gate;
use crate::say::tell;
use crate::status::Status;
use crate::words::{Command, read_words};
use gw_depot::{Depot, Sink};
use std::alloc::Global;
use std::thread::Threads;

/// Does the command that the words ask for, says one line of how it ended, and answers the status.
///
/// `run CONFIG REPORT` forwards the messages in the logs that the configuration names, writes an output for each
/// bus and then the report. A configuration is built where it has one buffer, two buses with a channel on each, and a path from
/// the first one's channel to the second's; any other is answered by `Unbuilt`.
/// A log is lines of candump's format; the first one with a fault is told as `LogRefused`, before any output is created.
/// `check CONFIG` reads a configuration and checks it, also one whose runs aren't built. It answers `Accepted`, or
/// `ConfigRefused` with the first fault of the text or else the first conflict. No file is created or changed.
/// The outside is asked through `depot` and `say`; `rt` and `gate` are for workers in threads, which aren't built yet.
pub fn run<R: Threads + Sync, D: Depot, K: Sink, G: Gate + Sync>(
    rt: &R,
    alloc: Global,
    words: &[String],
    depot: &mut D,
    say: &mut K,
    gate: &G,
) -> Status
    ensures usage { (result ≡ Status.Usage) ↔ AreShapeless (map string_bytes words.now) }
    ensures idle { result ≡ Status.Usage → depot.new ≡ depot.old }
    ensures said { SaysAnswer (map string_bytes words.now) (D.state depot.old) (K.state say.old) (K.state say.new) result }
    ensures answers { (config report : List ℕ) → IsRun (map string_bytes words.now) config report →
        Answers (D.state depot.old) (D.state depot.new) config report (K.state say.old) (K.state say.new) result }
    ensures checks { (config : List ℕ) → IsCheck (map string_bytes words.now) config →
        AnswersCheck (D.state depot.old) (D.state depot.new) config (K.state say.old) (K.state say.new) result }
{
    match read_words(words) {
        None => tell(alloc, Status::Usage, "", say),
        Some(Command::Run(files)) => forward(alloc, &files, depot, say),
        Some(Command::Check(config)) => tell(alloc, check(alloc, config, depot), "", say),
    }
}
