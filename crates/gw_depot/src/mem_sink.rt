ghost use Rattle.std.specs.Prelude.{◌≡◌, ◌-◌, ◌<◌, ◌≤◌, ◌↔◌, length, true, Result, IfOk, OnOk, OnErr, IsErr};
ghost use Rattle.gw_depot.specs.Fault.{HasCount};
ghost use Rattle.gw_depot.specs.Files.{SaysPiece};
ghost use Rattle.gw_depot.specs.Plan.{after_fault, after_said, nothing_said};

use crate::outside::{Failed, Sink};
use crate::plan::count_down;
use std::alloc::Global;
use std::marker::Model;

/// A sink in memory, for tests. It tells what was said.
///
/// Contracts see what was said, the count of faults, and how many puts are left up to the one that was set to
/// fail, with it.
#[derive(Debug, Drop)]
pub struct MemSink {
    said: Vec<u8>,
    faults: u64,
    puts_left: u32,
}

impl Model for MemSink {
    ghost use Rattle.gw_depot.specs.Plan.{MemSinkState};

    ghost Value = { MemSinkState };

    ghost view = { λ a. record { said = a.said.items; faults = a.faults; puts_left = a.puts_left } };
}

impl MemSink {
    /// A sink to which nothing was said; it takes no memory.
    pub fn new(alloc: Global) -> MemSink
        ensures { result ≡ nothing_said }
    {
        MemSink {
            said: Vec::new(alloc),
            faults: 0,
            puts_left: 0,
        }
    }

    /// Makes the nth later put fail, counted from 1, and no other; with 0 none fails.
    pub fn fail(&mut self, nth: u32)
        ensures { self.new ≡ record self.old { puts_left = nth } }
    {
        self.puts_left = nth;
    }

    /// What was said.
    pub fn bytes(&self) -> &[u8]
        ensures { result.now ≡ self.now.said }
    {
        self.said.as_slice()
    }
}

impl Sink for MemSink {
    ghost state = { λ sink. record { told = true; said = sink.said; faults = sink.faults } };

    /// Says the whole piece. It fails where it was set to, or where memory is wanting.
    fn put(&mut self, piece: &[u8]) -> Result<usize, Failed>
        requires { 0 < length piece.now }
        ensures bound { IfOk result (λ count. (0 < count) × (count ≤ length piece.now)) }
        ensures said { SaysPiece self.old.said self.new.said piece.now result }
        ensures cause { HasCount self.old.faults self.new.faults result }
        ensures whole { IfOk result (λ count. count ≡ length piece.now) }
        ensures fails { self.old.puts_left ≡ 1 → IsErr result }
        ensures ok { OnOk result (self.new ≡ after_said self.old piece.now) }
        ensures err { OnErr result (self.new ≡ after_fault self.old) }
    {
        let fails = count_down(&mut self.puts_left);
        if fails || self.said.extend_from_slice(piece).is_err() {
            self.faults = self.faults.saturating_add(1);
            return Err(Failed);
        }
        Ok(piece.len())
    }
}
