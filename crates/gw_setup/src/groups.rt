//! The groups of buffers of a run, as a hub is made of them.
ghost use Rattle.std.specs.Prelude.{◌≡◌, ◌<◌, ◌≤◌, IfOk, Some, length, map, slice_get};
ghost use Rattle.hub_core.specs.Groups.{all_sizes};

use gw_base::Memory;
use gw_config::Config;
use std::alloc::Global;

/// The cells of the buffers of the group of this number.
fn group_at(config: &Config, number: usize) -> &[u32]
    requires { number < length config.now.groups }
    ensures there { slice_get config.now.groups number ≡ Some result.now }
    ensures few { length result.now ≤ 32 }
{
    config.groups.items()[number].items()
}

/// The cells of each buffer, group after group.
pub(crate) fn cells_of(alloc: Global, config: &Config) -> Result<Vec<u32>, Memory>
    ensures { IfOk result (λ cells. cells.items ≡ all_sizes config.now.groups) }
{
    let mut cells = Vec::new(alloc);
    for number in 0..config.groups.items().len() {
        cells.extend_from_slice(group_at(config, number))?;
    }
    Ok(cells)
}

/// How many buffers each group has.
pub(crate) fn counts_of(alloc: Global, config: &Config) -> Result<Vec<u8>, Memory>
    ensures { IfOk result (λ counts. counts.items ≡ map length config.now.groups) }
{
    let mut counts = Vec::new(alloc);
    for number in 0..config.groups.items().len() {
        counts.push(group_at(config, number).len() as u8)?;
    }
    Ok(counts)
}
