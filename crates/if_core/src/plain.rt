//! Queues of interface paths on one thread.
ghost use Rattle.std.specs.Prelude.{◌≤◌, All, IfOk};
ghost use Rattle.if_core.specs.Alone.{AreNew};

use crate::queue::PlainQueue;
use crate::{IfUnit, Lanes, Offer};
use gw_base::{Memory, PathNo};
use std::alloc::Global;

/// The queues of all interface paths, on one thread: the whole of each.
///
/// A full queue, which holds as many units as its depth, flushes or refuses, and no other does; a take answers `None`
/// exactly where the queue is empty.
#[derive(Drop)]
pub struct PlainLanes {
    queues: Vec<PlainQueue>,
}

impl PlainLanes {
    ghost use Rattle.std.specs.Prelude.{◌≡◌, ◌≤◌, ℕ, All, IfOk};
    ghost use Rattle.if_core.specs.Alone.{plain_means};
    ghost use Rattle.if_core.specs.Lane.{empty_lane};

    /// An empty queue for each path: its depth in units, 1 to 64, and whether it keeps what it has. It takes no memory
    /// later. `Memory` where a growth was refused.
    pub fn new(alloc: Global, queues: &[(u32, bool)]) -> Result<PlainLanes, Memory>
        requires depths { All (λ kind. (1 ≤ kind.0) × (kind.0 ≤ 64)) queues.now }
        ensures view { IfOk result (λ lanes. (path : ℕ) → ⟦<PlainLanes as Lanes>⟧.view lanes path ≡ empty_lane) }
        ensures means { IfOk result (λ lanes. ⟦<PlainLanes as Lanes>⟧.means lanes ≡ plain_means queues.now) }
    {
        Ok(PlainLanes {
            queues: empty_queues(alloc, queues)?,
        })
    }
}

/// An empty queue of each kind, in order.
fn empty_queues(alloc: Global, kinds: &[(u32, bool)]) -> Result<Vec<PlainQueue>, Memory>
    requires { All (λ kind. (1 ≤ kind.0) × (kind.0 ≤ 64)) kinds.now }
    ensures { IfOk result (λ queues. AreNew kinds.now queues.items) }
{
    let mut queues = Vec::with_capacity(alloc, kinds.len())?;
    for at in 0..kinds.len() {
        let (depth, keep) = kinds[at];
        queues.push(PlainQueue::new(alloc, u64::from(depth), keep)?)?;
    }
    Ok(queues)
}

impl Lanes for PlainLanes {
    ghost use Rattle.if_core.specs.Alone.{view_of, means_of, floors_of};

    ghost view = { λ lanes. view_of lanes.queues.items };

    ghost means = { λ lanes. means_of lanes.queues.items };

    ghost floors = { λ lanes. floors_of lanes.queues.items };

    fn offer(&mut self, path: PathNo, unit: &IfUnit) -> Offer {
        self.queues[usize::from(path.0)].offer(unit)
    }

    fn take(&mut self, path: PathNo) -> Option<(u64, IfUnit)> {
        self.queues[usize::from(path.0)].take()
    }

    fn held(&mut self, path: PathNo) -> u64 {
        self.queues[usize::from(path.0)].held()
    }
}
