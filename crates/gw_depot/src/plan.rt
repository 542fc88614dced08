ghost use Rattle.std.specs.Prelude.{◌≡◌, ◌-◌, ◌<◌, ◌↔◌, IsTrue, min};
ghost use Rattle.gw_depot.specs.Plan.{no_plan, calls_left, after_call, with_failure, with_most};

use crate::outside::CallKind;
use std::marker::Model;

/// What a test has set: which calls to come fail, and the most bytes that one call takes.
#[derive(Debug, Drop)]
pub struct Plan {
    reads: u32,
    creates: u32,
    appends: u32,
    most: usize,
}

impl Model for Plan {
    ghost use Rattle.std.specs.Prelude.{◌<◌};
    ghost use Rattle.gw_depot.specs.Plan.{Plan};

    ghost Value = { Plan };

    ghost view = { λ a. record { reads = a.reads; creates = a.creates; appends = a.appends; most = a.most } };

    ghost invariant = { λ a. 0 < a.most };

    ghost inverse = { λ a. record { reads = a.reads; creates = a.creates; appends = a.appends; most = a.most } };
}

impl Plan {
    /// No call fails, and each takes all that it can.
    pub fn new() -> Plan
        ensures { result ≡ no_plan }
    {
        Plan {
            reads: 0,
            creates: 0,
            appends: 0,
            most: usize::MAX,
        }
    }

    /// Makes the nth later call of the kind fail, counted from 1; with 0 none fails.
    pub fn fail(&mut self, kind: CallKind, nth: u32)
        ensures { self.new ≡ with_failure self.old kind nth }
    {
        match kind {
            CallKind::Read => self.reads = nth,
            CallKind::Create => self.creates = nth,
            CallKind::Append => self.appends = nth,
        }
    }

    /// Bounds what one read or append takes.
    pub fn bound(&mut self, bytes: usize)
        requires { 0 < bytes }
        ensures { self.new ≡ with_most self.old bytes }
    {
        self.most = bytes;
    }

    /// Counts a call of the kind, and answers whether it is the one that was set to fail.
    pub fn fails_now(&mut self, kind: CallKind) -> bool
        ensures fails { IsTrue result ↔ (calls_left self.old kind ≡ 1) }
        ensures passed { self.new ≡ after_call self.old kind }
    {
        match kind {
            CallKind::Read => count_down(&mut self.reads),
            CallKind::Create => count_down(&mut self.creates),
            CallKind::Append => count_down(&mut self.appends),
        }
    }

    /// How many of so many bytes one call takes.
    pub fn takes(&self, bytes: usize) -> usize
        ensures count { result ≡ min self.now.most bytes }
        ensures some { 0 < bytes → 0 < result }
    {
        self.most.min(bytes)
    }
}

/// One call less up to the one that fails; answers whether this was it.
pub fn count_down(calls: &mut u32) -> bool
    ensures fails { IsTrue result ↔ (calls.old ≡ 1) }
    ensures left { calls.new ≡ calls.old - 1 }
{
    let fails = *calls == 1;
    *calls = calls.saturating_sub(1);
    fails
}
