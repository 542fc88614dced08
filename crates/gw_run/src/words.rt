//! The words of a command, read by hand.
ghost use Rattle.std.specs.Prelude.{◌≡◌, List, ℕ, map, MatchBool, MatchOption, IfSome};
ghost use Rattle.std.specs.String.{string_bytes};
ghost use Rattle.gw_depot.specs.Files.{IsName};
ghost use Rattle.gw_run.specs.Words.{AreShapeless, HasNames, IsCheck, IsCommand, IsFileName, IsRun, is_name_byte};

use crate::files::are_same;

/// The most bytes of a file's name.
const MOST_NAME_BYTES: usize = 64;

/// The files of a run: the names of its configuration and of its report.
#[derive(Clone, Copy)]
pub(crate) struct RunFiles<'a> {
    pub(crate) config: &'a str,
    pub(crate) report: &'a str,
}

/// A command, with the names of its files.
#[derive(Clone, Copy)]
pub(crate) enum Command<'a> {
    /// A run.
    Run(RunFiles<'a>),
    /// The check of a configuration.
    Check(&'a str),
}

fn is_name_byte(byte: u8) -> bool
    ensures { result ≡ is_name_byte byte }
{
    byte.is_ascii_alphanumeric() || matches!(byte, b'_' | b'-' | b'.')
}

fn is_file_name(name: &str) -> bool
    ensures { MatchBool result (IsFileName name.now) (¬ IsFileName name.now) }
{
    if name.is_empty() || name.len() > MOST_NAME_BYTES {
        return false;
    }
    if are_same(name.as_bytes(), b".") || are_same(name.as_bytes(), b"..") {
        return false;
    }
    name.as_bytes().iter().all(|byte| is_name_byte(*byte))
}

/// The files of the run that the words ask for, None exactly where they ask for none.
fn run_files(words: &[String]) -> Option<RunFiles<'_>>
    ensures exact { MatchOption result ((config report : List ℕ) → ¬ IsRun (map string_bytes words.now) config report) (λ files. IsRun (map string_bytes words.now) files.config.now files.report.now) }
    ensures names { IfSome result (λ files. IsName files.config.now × IsName files.report.now) }
{
    let [command, config, report] = words else {
        return None;
    };
    if !are_same(command.as_bytes(), b"run") {
        return None;
    }
    let config = config.as_str();
    let report = report.as_str();
    if !is_file_name(config)
        || !is_file_name(report)
        || are_same(config.as_bytes(), report.as_bytes())
    {
        return None;
    }
    Some(RunFiles { config, report })
}

/// The configuration that the words ask to check, None exactly where they ask for no check.
fn checked_config(words: &[String]) -> Option<&str>
    ensures exact { MatchOption result ((config : List ℕ) → ¬ IsCheck (map string_bytes words.now) config) (λ config. IsCheck (map string_bytes words.now) config.now) }
    ensures name { IfSome result (λ config. IsName config.now) }
{
    let [command, config] = words else {
        return None;
    };
    if !are_same(command.as_bytes(), b"check") {
        return None;
    }
    let config = config.as_str();
    if !is_file_name(config) {
        return None;
    }
    Some(config)
}

/// The command that the words ask for, None exactly where they have no shape.
pub(crate) fn read_words(words: &[String]) -> Option<Command<'_>>
    ensures exact { MatchOption result (AreShapeless (map string_bytes words.now)) (IsCommand (map string_bytes words.now)) }
    ensures names { IfSome result HasNames }
{
    if let Some(files) = run_files(words) {
        return Some(Command::Run(files));
    }
    let config = checked_config(words)?;
    Some(Command::Check(config))
}
