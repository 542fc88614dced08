//! How the rings of all buffers lie, one after another.
ghost use Rattle.std.specs.Prelude.{◌≡◌, ◌<◌, ◌≤◌, length, sum, All, IfOk};
ghost use Rattle.hub_core.specs.Plain.{StartAt};

use gw_base::Memory;
use std::alloc::Global;

/// Where each buffer's ring begins, and how many words all rings have.
pub(crate) fn ring_starts(alloc: Global, sizes: &[u32]) -> Result<(Vec<u32>, u32), Memory>
    requires few { length sizes.now ≤ 128 }
    requires sizes { All (λ size. (1 ≤ size) × (size ≤ 8192)) sizes.now }
    ensures starts { IfOk result (λ laid. StartAt sizes.now (length sizes.now) laid.0.items) }
    ensures words { IfOk result (λ laid. laid.1 ≡ sum sizes.now) }
{
    let mut starts = Vec::with_capacity(alloc, sizes.len())?;
    let mut words = 0;
    for buf in 0..sizes.len() {
        starts.push(words)?;
        words += sizes[buf];
    }
    Ok((starts, words))
}
