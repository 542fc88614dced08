//! The groups of buffers: the one key whose elements are arrays.
ghost use Rattle.std.specs.Prelude.{◌≡◌, option_map, IfOk, Some};
ghost use Rattle.std.specs.Result.{result_ok};
ghost use Rattle.std.specs.List.{list_all};
ghost use Rattle.toml.specs.View.{view};
ghost use Rattle.gw_settings.specs.Faults.{fault_at};
ghost use Rattle.gw_settings.specs.Readings.{group_count, group_integer, group_size, groups_in, is_group, IsWithin};
ghost use Rattle.gw_settings.specs.Settings.{tree};
ghost use Rattle.gw_settings.specs.Tree.{group_element};

use crate::settings::{count_of, integer_in, integers_in, items_in, wrong_kind};
use crate::{ConfigFault, FaultKind, Key, Settings, TableKind};
use toml::Value;

impl Settings {
    /// The number of groups, at most what a `u32` holds, and `None` where the key `groups` is absent. `WrongKind` where
    /// it is no array or holds an element that is no array of integers alone.
    pub fn groups(&self) -> Result<Option<u32>, ConfigFault>
        ensures { result ≡ group_count (tree self.now) }
    {
        let Some(value) = self.value(TableKind::Top, 0, Key::Groups) else {
            return Ok(None);
        };
        match groups_in(value) {
            Some(count) => Ok(Some(count)),
            None => Err(wrong_kind(TableKind::Top, 0, Key::Groups)),
        }
    }

    /// The number of elements of the group numbered `at`, from 0, at most what a `u32` holds. `Missing` where there is no
    /// such group, which doesn't come below what `groups` gave; `WrongKind` where it is no array.
    pub fn group_size(&self, at: u32) -> Result<u32, ConfigFault>
        ensures { result ≡ group_size (tree self.now) at }
    {
        let Some(group) = self.element(TableKind::Top, 0, Key::Groups, at) else {
            return Err(missing_element());
        };
        match items_in(group) {
            Some(count) => Ok(count),
            None => Err(wrong_kind(TableKind::Top, 0, Key::Groups)),
        }
    }

    /// The integer numbered `inner` of the group numbered `at`, both from 0. `Missing` where there is no such element,
    /// which doesn't come below what `group_size` gave; `WrongKind` where it is no integer, else `OutOfRange` where it
    /// isn't from `low` to `high`.
    pub fn group_integer(
        &self,
        at: u32,
        inner: u32,
        low: i64,
        high: i64,
    ) -> Result<i64, ConfigFault>
        ensures value { result ≡ group_integer low high (tree self.now) at inner }
        ensures within { IfOk result (λ number. IsWithin low high (Some number)) }
    {
        let Some(value) = self.group_element(at, inner) else {
            return Err(missing_element());
        };
        integer_in(value, low, high).map_err(|kind| ConfigFault {
            kind,
            table: TableKind::Top,
            index: 0,
            key: Key::Groups,
        })
    }

    /// The element numbered `inner` of the group numbered `at`.
    fn group_element(&self, at: u32, inner: u32) -> Option<&Value>
        ensures { option_map (λ value. view value.now) result ≡ group_element (tree self.now) at inner }
    {
        self.element(TableKind::Top, 0, Key::Groups, at)?
            .get(inner as usize)
    }
}

/// The fault of a group, or of an element of one, that isn't there.
fn missing_element() -> ConfigFault
    ensures { result ≡ fault_at TableKind.Top 0 Key.Groups FaultKind.Missing }
{
    ConfigFault {
        kind: FaultKind::Missing,
        table: TableKind::Top,
        index: 0,
        key: Key::Groups,
    }
}

/// The number of elements, where the value is an array of arrays of integers alone.
fn groups_in(value: &Value) -> Option<u32>
    ensures { result ≡ result_ok (groups_in (view value.now)) }
{
    let array = value.as_array()?;
    if are_groups(array.as_slice()) {
        Some(count_of(array))
    } else {
        None
    }
}

/// Whether each value is an array of integers alone.
fn are_groups(values: &[Value]) -> bool
    ensures { result ≡ list_all (λ value. is_group (view value)) values.now }
{
    values.iter().all(|value| is_group(value))
}

/// Whether the value is an array of integers alone.
fn is_group(value: &Value) -> bool
    ensures { result ≡ is_group (view value.now) }
{
    integers_in(value).is_some()
}
