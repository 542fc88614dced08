//! What a run is going to leave behind, by the frames of both logs.
ghost use Rattle.std.specs.Prelude.{◌≡◌, ◌≤◌, ◌+◌, ◌<◌, length, filter, All, IfOk, IfErr};
ghost use Rattle.gw_run.specs.Causes.{StopsPlan};
ghost use Rattle.candump_log.specs.Dated.{AreDated};
ghost use Rattle.gw_run.specs.Forwarded.{Counts, is_sent, is_whole};
ghost use Rattle.gw_run.specs.Plan.{IsPlan, Prints};

use crate::output::output_text;
use crate::play::play;
use crate::played::Played;
use crate::setup::Setup;
use crate::start::{greatest_tick, start_of};
use crate::status::{Status, Summary, Which};
use candump_log::Stamped;
use gw_base::{Bytes, Memory, Tick};
use hub_core::{DestRecord, DestResult, SessionRecord, SessionResult};
use session_report::{Report, print_report};
use std::alloc::Global;
use tick_clock::Clock;

/// The most ticks of a run: the last input frame's, and those that it goes on, and one.
const MOST_TICKS: u64 = 10_000_000;

/// What a run is going to leave behind, and what is said of it.
#[derive(Debug, Drop)]
pub(crate) struct Plan {
    /// The output of the source's bus, and of the destination's.
    pub(crate) source_output: Bytes,
    pub(crate) output: Bytes,
    pub(crate) report: Bytes,
    pub(crate) summary: Summary,
}

/// Whether the session was received whole.
fn is_whole(told: &SessionRecord) -> bool
    ensures { result ≡ is_whole told.now.result }
{
    matches!(told.result, SessionResult::Whole)
}

/// Whether the destination was sent whole.
fn is_sent(told: &DestRecord) -> bool
    ensures { result ≡ is_sent told.now.result }
{
    matches!(told.result, DestResult::Sent)
}

/// How many of the sessions were received whole.
fn count_whole(sessions: &[SessionRecord]) -> u64
    ensures { result ≡ length (filter (λ told. is_whole told.result) sessions.now) }
{
    sessions.iter().filter(|told| is_whole(told)).count() as u64
}

/// How many of the destinations were sent whole.
fn count_sent(dests: &[DestRecord]) -> u64
    ensures { result ≡ length (filter (λ told. is_sent told.result) dests.now) }
{
    dests.iter().filter(|told| is_sent(told)).count() as u64
}

/// The numbers of a report's records.
fn summary_of(report: &Report) -> Summary
    ensures { Counts report.now result }
{
    Summary {
        sessions: report.sessions.items().len() as u64,
        whole: count_whole(report.sessions.items()),
        dests: report.dests.items().len() as u64,
        sent: count_sent(report.dests.items()),
        moves: report.moves.items().len() as u64,
    }
}

/// The texts of what a run has sent and tells.
fn print_all(
    alloc: Global,
    clock: &Clock,
    setup: &Setup<'_>,
    played: &Played,
) -> Result<Plan, Memory>
    requires period { clock.now.period ≡ setup.now.period }
    requires date { clock.now.start.0 < 4_294_967_296_000_000 }
    requires controls { All (λ sent. sent.tick ≤ 10_000_000) played.now.controls }
    requires frames { All (λ sent. sent.tick ≤ 10_000_000) played.now.frames }
    ensures { IfOk result (Prints clock.now.start.0 setup.now played.now) }
{
    let _period = setup.period();
    let source_output = output_text(
        alloc,
        clock,
        setup.source().interface(),
        played.controls.items(),
    )?;
    let output = output_text(
        alloc,
        clock,
        setup.destination().interface(),
        played.frames.items(),
    )?;
    let report = print_report(alloc, &played.report)?;
    Ok(Plan {
        source_output,
        output,
        report,
        summary: summary_of(&played.report),
    })
}

/// Plans the results of a run over both logs' frames: `Limit` where it would have too many ticks.
pub(crate) fn plan_results(
    alloc: Global,
    setup: &Setup<'_>,
    source: &[Stamped],
    destination: &[Stamped],
) -> Result<Plan, Status>
    requires few { length source.now + length destination.now ≤ 1_000_000 }
    requires source { AreDated source.now }
    requires destination { AreDated destination.now }
    ensures planned { IfOk result (IsPlan setup.now source.now destination.now) }
    ensures refused { IfErr result (StopsPlan setup.now source.now destination.now) }
{
    let clock = Clock {
        start: start_of(source, destination),
        period: setup.period(),
    };
    let last = greatest_tick(&clock, source)
        .0
        .max(greatest_tick(&clock, destination).0)
        + u64::from(setup.linger());
    if last + 1 > MOST_TICKS {
        return Err(Status::Limit {
            which: Which::Ticks,
            value: last + 1,
        });
    }
    let machines = setup.machines();
    let Ok(played) = play(alloc, &machines, &clock, Tick(last), source, destination) else {
        return Err(Status::Memory);
    };
    let Ok(plan) = print_all(alloc, &clock, setup, &played) else {
        return Err(Status::Memory);
    };
    Ok(plan)
}
