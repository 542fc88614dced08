//! The cancellations of a configuration, found by their bus and tick.
ghost use Rattle.std.specs.Prelude.{◌≡◌, List, filter, slice_get, option_map, IfOk, OnOk};
ghost use Rattle.cancel_plan.specs.Plan.{AddsEntry, IsPlanOf, due_entries, entries_at, is_on};

use crate::entry::CancelEntry;
use gw_base::{BusNo, Memory, Tick};
use std::alloc::Global;
use std::collections::BTreeMap;

/// Cancellations by their tick, those of each tick in configuration order.
#[derive(Debug, Drop)]
pub struct CancelPlan {
    /// The cancellations of each tick that has some.
    by_tick: BTreeMap<u64, Vec<CancelEntry>>,
}

impl CancelPlan {
    /// The plan of these cancellations, which are in configuration order. `Memory` comes where the plan can't be kept.
    pub fn new(alloc: Global, entries: &[CancelEntry]) -> Result<CancelPlan, Memory>
        ensures { IfOk result (IsPlanOf entries.now) }
    {
        let mut by_tick = BTreeMap::new(alloc);
        for entry in entries {
            add(alloc, &mut by_tick, *entry)?;
        }
        Ok(CancelPlan { by_tick })
    }

    /// The cancellations of the tick, of all buses.
    fn at_tick(&self, tick: Tick) -> &[CancelEntry]
        ensures { result.now ≡ entries_at self.now tick.0 }
    {
        match self.by_tick.get(&tick.0) {
            Some(list) => list.as_slice(),
            None => &[],
        }
    }

    /// Of the cancellations of this bus and tick the one numbered `at`, from 0 in configuration order. `None` exactly where
    /// there are no more.
    pub fn due(&self, bus: BusNo, tick: Tick, at: usize) -> Option<CancelEntry>
        ensures { (entries : List CancelEntry) → IsPlanOf entries self.now →
            result ≡ slice_get (due_entries entries bus.0 tick.0) at }
    {
        let entry = entry_on(self.at_tick(tick), bus, at)?;
        Some(*entry)
    }
}

/// Of one tick's cancellations the one of this bus numbered `at`, from 0.
fn entry_on(entries: &[CancelEntry], bus: BusNo, at: usize) -> Option<&CancelEntry>
    ensures { option_map (λ entry. entry.now) result ≡ slice_get (filter (is_on bus.0) entries.now) at }
{
    entries.iter().filter(|entry| entry.bus == bus).nth(at)
}

/// Adds the cancellation after those of its tick.
fn add(
    alloc: Global,
    by_tick: &mut BTreeMap<u64, Vec<CancelEntry>>,
    entry: CancelEntry,
) -> Result<(), Memory>
    ensures { OnOk result (AddsEntry by_tick.old by_tick.new entry) }
{
    if let Some(list) = by_tick.get_mut(&entry.tick.0) {
        list.push(entry)?;
        return Ok(());
    }
    let mut list = Vec::new(alloc);
    list.push(entry)?;
    by_tick.insert(entry.tick.0, list)?;
    Ok(())
}
