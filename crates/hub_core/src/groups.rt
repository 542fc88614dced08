//! Where each group's buffers are among all.
ghost use Rattle.std.specs.Prelude.{◌≡◌, ◌+◌, ◌<◌, ◌≤◌, length, sum, map, slice_index, All, IfOk};
ghost use Rattle.hub_core.specs.Groups.{first_of};
ghost use Rattle.pool_words.specs.Pools.{full_pool};

use gw_base::Memory;
use pool_words::{Pool, full_pool};
use std::alloc::Global;

/// The number of the group's first buffer, where the groups have so many buffers.
pub fn first_buffer(counts: &[u8], group: usize) -> usize
    requires there { group ≤ length counts.now }
    requires buffers { All (λ count. (1 ≤ count) × (count ≤ 32)) counts.now }
    requires groups { length counts.now ≤ 4 }
    ensures { result ≡ first_of counts.now group }
{
    let mut first = 0;
    for before in 0..group {
        first += usize::from(counts[before]);
    }
    first
}

/// The buffer's group, and its number in it.
pub fn find_group(counts: &[u8], buf: usize) -> (usize, usize)
    requires { buf < sum counts.now }
    ensures there { result.0 < length counts.now }
    ensures its { result.1 < slice_index counts.now result.0 }
    ensures at { first_of counts.now result.0 + result.1 ≡ buf }
{
    let mut place = buf;
    for group in 0..counts.len() {
        let buffers = usize::from(counts[group]);
        if place < buffers {
            return (group, place);
        }
        place -= buffers;
    }
    unreachable!()
}

/// The word of each group as all its buffers are free.
pub(crate) fn full_pools(alloc: Global, counts: &[u8]) -> Result<Vec<Pool>, Memory>
    requires { All (λ count. (1 ≤ count) × (count ≤ 32)) counts.now }
    ensures { IfOk result (λ pools. pools.items ≡ map full_pool counts.now) }
{
    let mut pools = Vec::with_capacity(alloc, counts.len())?;
    for group in 0..counts.len() {
        pools.push(full_pool(usize::from(counts[group])))?;
    }
    Ok(pools)
}
