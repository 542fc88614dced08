//! A queue on one thread.
ghost use Rattle.if_core.specs.Props.{IsQueue-prop};
ghost use Rattle.std.specs.Prelude.{◌≡◌, ◌<◌, ◌≤◌, drop, length};
ghost use Rattle.std.specs.VecDeque.{deque_capacity};
ghost use Rattle.if_core.specs.Lane.{IsQueue, queued};
ghost use Rattle.if_core.specs.Past.{lane_of};

use crate::history::History;
use crate::{IfUnit, Offer};
use gw_base::Memory;
use std::alloc::Global;
use std::collections::VecDeque;

/// A queue that is used from one thread.
#[derive(Drop)]
pub struct PlainQueue {
    /// What it holds, the next unit to be taken first.
    units: VecDeque<IfUnit>,
    pub depth: u64,
    pub keep: bool,
    /// The position of the next unit to be taken.
    pub position: u64,
    /// The units that were queued.
    pub count: u64,
    pub past: History,
    ghost sized: { (0 < depth) × (depth ≤ deque_capacity units) },
    ghost counted: { count ≡ length (queued past.seat.me.0.offers) },
    ghost holds: { units.items ≡ drop position (queued past.seat.me.0.offers) },
    ghost law: { IsQueue depth keep position (lane_of past.seat.me.0) } by { IsQueue-prop depth keep position (lane_of past.seat.me.0) },
}

impl PlainQueue {
    ghost use Rattle.std.specs.Prelude.{◌≡◌, ◌+◌, ◌-◌, ◌<◌, ◌≤◌, true, false, length, IfOk};
    ghost use Rattle.if_core.specs.Lane.{IsCaused, queued, offered, empty_lane};
    ghost use Rattle.if_core.specs.Calls.{IsOfferExact, position_after};
    ghost use Rattle.if_core.specs.Past.{lane_of};
    ghost use Rattle.if_core.specs.Alone.{IsTaken, lane_after, past_of};
    ghost use Rattle.if_core.specs.declared.lanes.Offer.TheVariants.{Queued, Flushed, Refused};

    /// An empty queue.
    pub(crate) fn new(alloc: Global, depth: u64, keep: bool) -> Result<PlainQueue, Memory>
        requires { (0 < depth) × (depth ≤ 64) }
        ensures past { IfOk result (λ queue. past_of queue ≡ empty_lane) }
        ensures kind { IfOk result (λ queue. (queue.depth ≡ depth) × (queue.keep ≡ keep)) }
    {
        let units = VecDeque::with_capacity(alloc, depth as usize)?;
        let past = History::new(alloc)?;
        Ok(PlainQueue {
            units,
            depth,
            keep,
            position: 0,
            count: 0,
            past,
        })
    }

    /// Offers a unit.
    pub(crate) fn offer(&mut self, unit: &IfUnit) -> Offer
        requires room { length (past_of self.old).offers < 1000000 }
        requires number { unit.now.number ≡ length (past_of self.old).offers }
        ensures past { past_of self.new ≡ offered unit.now result (past_of self.old) }
        ensures kind { (self.new.depth ≡ self.old.depth) × (self.new.keep ≡ self.old.keep) }
        ensures answers { IsCaused self.old.depth self.old.keep self.old.count result }
        ensures exact { IsOfferExact self.old.position self.old.depth self.old.count result }
        ensures position { self.new.position ≡ position_after result self.old.position }
        ensures rise { (self.old.position ≤ self.new.position) × (self.old.count ≤ self.new.count) }
    {
        if self.count - self.position < self.depth {
            self.append(unit);
            return Offer::Queued;
        }
        if self.keep {
            return self.refuse(unit);
        }
        self.flush(unit)
    }

    /// Queues a unit behind what is held.
    fn append(&mut self, unit: &IfUnit)
        requires room { self.old.count < self.old.position + self.old.depth }
        requires few { self.old.count < 1000000 }
        requires number { unit.now.number ≡ length (past_of self.old).offers }
        ensures past { past_of self.new ≡ offered unit.now Queued (past_of self.old) }
        ensures kind { (self.new.depth ≡ self.old.depth) × (self.new.keep ≡ self.old.keep) }
        ensures numbers { (self.new.position ≡ self.old.position) × (self.new.count ≡ self.old.count + 1) }
    {
        let unit = self.past.note_offer(unit.copy(), Offer::Queued);
        self.units.push_back_reserved(unit);
        self.count += 1;
    }

    /// Lets what is held go, and queues a unit in its place.
    fn flush(&mut self, unit: &IfUnit) -> Offer
        requires full { self.old.count ≡ self.old.position + self.old.depth }
        requires keep { self.old.keep ≡ false }
        requires few { self.old.count < 1000000 }
        requires number { unit.now.number ≡ length (past_of self.old).offers }
        ensures past { past_of self.new ≡ offered unit.now result (past_of self.old) }
        ensures answer { result ≡ Flushed self.old.position (self.old.count - 1) }
        ensures kind { (self.new.depth ≡ self.old.depth) × (self.new.keep ≡ self.old.keep) }
        ensures numbers { (self.new.position ≡ self.old.count) × (self.new.count ≡ self.old.count + 1) }
    {
        let answer = Offer::Flushed {
            from: self.position,
            to: self.count - 1,
        };
        let unit = self.past.note_offer(unit.copy(), answer);
        self.units.clear();
        self.units.push_back_reserved(unit);
        self.position = self.count;
        self.count += 1;
        answer
    }

    /// Keeps what is held, and lets a unit go.
    fn refuse(&mut self, unit: &IfUnit) -> Offer
        requires full { self.old.count ≡ self.old.position + self.old.depth }
        requires keep { self.old.keep ≡ true }
        requires number { unit.now.number ≡ length (past_of self.old).offers }
        ensures answer { result ≡ Refused self.old.count self.old.position }
        ensures past { past_of self.new ≡ offered unit.now result (past_of self.old) }
        ensures kind { (self.new.depth ≡ self.old.depth) × (self.new.keep ≡ self.old.keep) }
        ensures numbers { (self.new.position ≡ self.old.position) × (self.new.count ≡ self.old.count) }
    {
        let answer = Offer::Refused {
            count: self.count,
            position: self.position,
        };
        self.past.note_offer(unit.copy(), answer);
        answer
    }

    /// Takes the next unit, with its position.
    pub(crate) fn take(&mut self) -> Option<(u64, IfUnit)>
        ensures past { past_of self.new ≡ lane_after result (past_of self.old) }
        ensures kind { (self.new.depth ≡ self.old.depth) × (self.new.keep ≡ self.old.keep) }
        ensures exact { IsTaken self.old.position self.old.count self.new.position result }
        ensures rise { (self.old.position ≤ self.new.position) × (self.new.count ≡ self.old.count) }
    {
        let position = self.position;
        if position == self.count {
            return None;
        }
        let Some(unit) = self.units.pop_front() else {
            unreachable!();
        };
        let unit = self.past.note_take(position, unit);
        self.position += 1;
        Some((position, unit))
    }

    /// How many units it holds.
    pub(crate) fn held(&self) -> u64
        ensures { self.now.position + result ≡ self.now.count }
    {
        self.count - self.position
    }
}
