//! The worker of a bus before its first tick.
ghost use Rattle.std.specs.Prelude.{ℕ, IfOk};
ghost use Rattle.bus_worker.specs.Start.{IsBusPlan, IsChannelPlan, IsDestination, IsNewChannel, IsNewDestination, IsNewSource, IsSource, StartsWith};

use crate::channel::{Channel, Receiving, Sending};
use crate::plan::{ChannelPlan, SourcePlan};
use crate::worker::Worker;
use gw_base::{ListOf, Memory};
use std::alloc::Global;
use tp_sender::TxSet;
use tx_mailbox::Boxes;

/// A source to which no frame came yet, where there is one.
fn receiving_of(alloc: Global, plan: Option<SourcePlan>) -> Option<Receiving>
    requires { (address : ℕ) × IsSource address plan }
    ensures { IsNewSource plan result }
{
    let source = plan?;
    Some(Receiving::new(alloc, source.set, source.shape))
}

/// A destination to which nothing was sent yet, where there is one.
fn sending_of(alloc: Global, plan: Option<TxSet>) -> Option<Sending>
    requires { IsDestination plan }
    ensures { IsNewDestination plan result }
{
    let set = plan?;
    Some(Sending::new(alloc, set))
}

/// A channel of which no machine did anything yet.
fn channel_of(alloc: Global, plan: &ChannelPlan) -> Channel
    requires { IsChannelPlan plan.now }
    ensures { IsNewChannel plan.now result }
{
    Channel {
        receiving: receiving_of(alloc, plan.source),
        sending: sending_of(alloc, plan.destination),
    }
}

impl Worker {
    /// The worker of a bus with these channels, in this order, which sends at most `budget` frames in a tick. Nothing
    /// came and nothing left yet.
    pub fn new(alloc: Global, budget: u8, plans: &[ChannelPlan]) -> Result<Worker, Memory>
        requires plans { IsBusPlan plans.now }
        ensures { IfOk result (StartsWith budget plans.now) }
    {
        let mut channels = Vec::new(alloc);
        let mut routes = Vec::new(alloc);
        for plan in plans {
            channels.push(channel_of(alloc, plan))?;
            routes.push(plan.comes)?;
        }
        Ok(Worker {
            budget,
            channels,
            routes,
            boxes: Boxes::new(),
            sent: ListOf::new(alloc),
            moves: ListOf::new(alloc),
        })
    }
}
