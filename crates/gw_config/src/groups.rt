//! The reading of the groups of buffers.
ghost use Rattle.std.specs.Prelude.{◌≡◌, true, length, IfOk};
ghost use Rattle.std.specs.List.{list_all};
ghost use Rattle.gw_settings.specs.Settings.{tree};
ghost use Rattle.gw_config.specs.Groups.{buffer_at, group_at, group_fits, groups_found, one_group};
ghost use Rattle.gw_config.specs.Outcome.{Gives};
ghost use Rattle.gw_config.specs.Rows.{each_from, list_fits, number_fits};
ghost use Rattle.gw_config.specs.declared.keys.TheConstants.{GROUPS as lawful_groups, GROUP_BUFFER as lawful_buffer};

use crate::config::{CellsList, GroupList};
use crate::keys::{BUFFER, BUFFERS, GROUP, GROUP_BUFFER, GROUPS};
use crate::{lists, rows};
use gw_base::ListOf;
use gw_settings::{ConfigError, ConfigFault, Settings};
use std::alloc::Global;

/// The groups, so many, or the one group of `buffers` where there is no key `groups`.
pub(crate) fn read_groups(
    alloc: Global,
    settings: &Settings,
    count: Option<u32>,
) -> Result<GroupList, ConfigError>
    ensures value { Gives (groups_found (tree settings.now) count) result }
    ensures count { IfOk result (λ groups. list_fits lawful_groups (length groups) ≡ true) }
    ensures fits { IfOk result (λ groups. list_all group_fits groups ≡ true) }
{
    let Some(count) = count else {
        return one_group(alloc, settings);
    };
    let count = rows::list_count(Some(count), 0, GROUPS)?;
    first_groups(alloc, settings, count)
}

/// The one group of a text without groups.
fn one_group(alloc: Global, settings: &Settings) -> Result<GroupList, ConfigError>
    ensures value { Gives (one_group (tree settings.now)) result }
    ensures count { IfOk result (λ groups. list_fits lawful_groups (length groups) ≡ true) }
    ensures fits { IfOk result (λ groups. list_all group_fits groups ≡ true) }
{
    let group = lists::numbers(alloc, settings, 0, BUFFERS, BUFFER)?;
    let mut groups = ListOf::new(alloc);
    groups.push(group)?;
    Ok(groups)
}

/// The first groups, so many.
fn first_groups(alloc: Global, settings: &Settings, count: u32) -> Result<GroupList, ConfigError>
    ensures value { Gives (each_from (group_at (tree settings.now)) 0 count) result }
    ensures count { IfOk result (λ groups. length groups ≡ count) }
    ensures fits { IfOk result (λ groups. list_all group_fits groups ≡ true) }
{
    let mut groups = ListOf::new(alloc);
    for number in 0..count {
        let group = read_group(alloc, settings, number)?;
        groups.push(group)?;
    }
    Ok(groups)
}

/// The cells of each buffer of the group of this number.
fn read_group(alloc: Global, settings: &Settings, number: u32) -> Result<CellsList, ConfigError>
    ensures value { Gives (group_at (tree settings.now) number) result }
    ensures fits { IfOk result (λ group. group_fits group ≡ true) }
{
    let size = settings.group_size(number)?;
    let count = rows::list_count(Some(size), 0, GROUP)?;
    first_buffers(alloc, settings, number, count)
}

/// The cells of the first buffers of a group, so many.
fn first_buffers(
    alloc: Global,
    settings: &Settings,
    number: u32,
    count: u32,
) -> Result<CellsList, ConfigError>
    ensures value { Gives (each_from (buffer_at (tree settings.now) number) 0 count) result }
    ensures count { IfOk result (λ buffers. length buffers ≡ count) }
    ensures fits { IfOk result (λ buffers. list_all (number_fits lawful_buffer) buffers ≡ true) }
{
    let mut buffers = ListOf::new(alloc);
    for at in 0..count {
        let cells = read_buffer(settings, number, at)?;
        buffers.push(cells)?;
    }
    Ok(buffers)
}

/// The cells of the buffer numbered `at` of the group of this number.
fn read_buffer(settings: &Settings, number: u32, at: u32) -> Result<u32, ConfigFault>
    ensures value { result ≡ buffer_at (tree settings.now) number at }
    ensures fits { IfOk result (λ cells. number_fits lawful_buffer cells ≡ true) }
{
    let low = i64::from(GROUP_BUFFER.low);
    let high = i64::from(GROUP_BUFFER.high);
    let cells = settings.group_integer(number, at, low, high)?;
    Ok(cells as u32)
}
