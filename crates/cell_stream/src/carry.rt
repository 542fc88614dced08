ghost use Rattle.std.specs.Prelude.{◌≡◌, ◌+◌, ◌≤◌, ◌==◌, [], ◌++◌, length, take, drop};
ghost use Rattle.gw_base.specs.Cell.{IsCell, cell_bytes, count_of};

use arrayvec::ArrayVec;
use std::marker::Model;

/// The most bytes that a carry holds: a frame's 63, and one more cell's seven.
const MOST_HELD: usize = 70;

/// The bytes of cells that were read and haven't left in a frame yet. Contracts see it as the list of its bytes.
#[derive(Debug, Drop)]
pub struct Carry {
    held: ArrayVec<u8, MOST_HELD>,
}

impl Model for Carry {
    ghost use Rattle.std.specs.Prelude.{List, ℕ};

    ghost Value = { List ℕ };

    ghost view = { λ carry. carry.held.items };
}

impl Carry {
    /// An empty carry.
    pub fn new() -> Carry
        ensures { result ≡ [] }
    {
        Carry {
            held: ArrayVec::new(),
        }
    }

    /// How many bytes it holds.
    pub fn len(&self) -> usize
        ensures { result ≡ length self.now }
    {
        self.held.len()
    }

    /// Whether it holds no byte.
    pub fn is_empty(&self) -> bool
        ensures { result ≡ (length self.now == 0) }
    {
        self.held.is_empty()
    }

    /// Takes on the bytes of the cell.
    #[tactic(auto, unfolding(gw_base::specs::Cell::cell_bytes))]
    pub fn add(&mut self, cell: u64)
        requires room { length self.old ≤ 63 }
        requires cell { IsCell cell }
        ensures bytes { self.new ≡ self.old ++ cell_bytes cell }
        ensures len { length self.new ≡ length self.old + count_of cell }
    {
        let bytes = cell.to_le_bytes();
        let count = bytes[0] as usize;
        let Ok(()) = self.held.try_extend_from_slice(&bytes[1..1 + count]) else {
            unreachable!();
        };
    }

    /// Moves the first `k` bytes to the end of `out`.
    pub fn take(&mut self, k: usize, out: &mut ArrayVec<u8, 64>)
        requires held { k ≤ length self.old }
        requires fits { length out.old.items + k ≤ 64 }
        ensures moved { out.new.items ≡ out.old.items ++ take k self.old }
        ensures rest { self.new ≡ drop k self.old }
    {
        let held = self.held.as_slice();
        let Ok(()) = out.try_extend_from_slice(&held[..k]) else {
            unreachable!();
        };
        let Ok(rest) = ArrayVec::try_from(&held[k..]) else {
            unreachable!();
        };
        self.held = rest;
    }
}
