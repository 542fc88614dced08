ghost use Rattle.std.specs.Prelude.{◌≡◌, ◌≢◌, option_map, option_copied, is_some, IfOk, IfErr, Ok, Err, Some};
ghost use Rattle.std.specs.Result.{result_ok};
ghost use Rattle.std.specs.List.{list_all};
ghost use Rattle.toml.specs.Data.{as_integer, as_str, as_table};
ghost use Rattle.toml.specs.Errors.{IsMemory};
ghost use Rattle.toml.specs.View.{view, array_view, table_view};
ghost use Rattle.gw_settings.specs.Names.{key_name};
ghost use Rattle.gw_settings.specs.Faults.{fault_at, not_toml, placed};
ghost use Rattle.gw_settings.specs.Tree.{IsText, IsRefused, entry_of, value_in, value_at, element_at, names};
ghost use Rattle.gw_settings.specs.Readings.{integer_in, flag_in, text_in, items_in, tables_in, integers_in, texts_in, count_of, IsWithin, known_in, setting, setting_item, table_count, is_listed, is_named};

use crate::{ConfigError, ConfigFault, FaultKind, Key, TableKind};
use std::alloc::Global;
use toml::value::Array;
use toml::{Table, Value};

/// The settings of a text: a tree of tables, whose values are read by key.
///
/// Contracts speak of it as `tree settings`. A key is named by the kind of its table, the table's number in its array
/// (0 for the top table) and the key; a key of a table that isn't there is absent. A fault names the same place.
#[derive(Debug, Drop)]
pub struct Settings {
    root: Value,
}

impl Settings {
    ghost use Rattle.gw_settings.specs.Settings.{tree};

    /// The settings of the text. `NotToml` where the text is no UTF-8 or `toml` refuses it for another cause than
    /// memory; `Memory` says nothing of the text.
    pub fn parse(alloc: Global, text: &[u8]) -> Result<Settings, ConfigError>
        ensures ok { IfOk result (λ settings. IsText text.now (tree settings)) }
        ensures refused { IfErr result (IsRefused text.now) }
    {
        match toml::table_from_slice(alloc, text) {
            Ok(members) => Ok(Settings {
                root: Value::Table(members),
            }),
            Err(error) => Err(parse_error(error)),
        }
    }

    /// The integer of a key, `None` where it is absent. `WrongKind` where it is no integer, else `OutOfRange` where it
    /// isn't from `low` to `high`.
    pub fn integer(
        &self,
        table: TableKind,
        index: u32,
        key: Key,
        low: i64,
        high: i64,
    ) -> Result<Option<i64>, ConfigFault>
        ensures value { result ≡ setting (integer_in low high) (tree self.now) table index key }
        ensures within { IfOk result (IsWithin low high) }
    {
        let number = match self.value(table, index, key) {
            Some(value) => integer_in(value, low, high).map(Some),
            None => Ok(None),
        };
        number.map_err(|kind| ConfigFault {
            kind,
            table,
            index,
            key,
        })
    }

    /// The flag of a key, `None` where it is absent. `WrongKind` where it is no boolean.
    pub fn flag(&self, table: TableKind, index: u32, key: Key) -> Result<Option<bool>, ConfigFault>
        ensures { result ≡ setting flag_in (tree self.now) table index key }
    {
        let Some(value) = self.value(table, index, key) else {
            return Ok(None);
        };
        match value.as_bool() {
            Some(flag) => Ok(Some(flag)),
            None => Err(wrong_kind(table, index, key)),
        }
    }

    /// The text of a key, `None` where it is absent. `WrongKind` where it is no string.
    pub fn text(&self, table: TableKind, index: u32, key: Key) -> Result<Option<&str>, ConfigFault>
        ensures ok { IfOk result (λ text. setting text_in (tree self.now) table index key ≡ Ok (option_copied text)) }
        ensures err { IfErr result (λ fault. setting text_in (tree self.now) table index key ≡ Err fault) }
    {
        let Some(value) = self.value(table, index, key) else {
            return Ok(None);
        };
        match value.as_str() {
            Some(text) => Ok(Some(text)),
            None => Err(wrong_kind(table, index, key)),
        }
    }

    /// The number of tables of this kind, at most what a `u32` holds, and `None` where their array is absent.
    /// `WrongKind` of the top table's key where it is no array or holds an element that is no table.
    pub fn count(&self, table: TableKind) -> Result<Option<u32>, ConfigFault>
        ensures { result ≡ table_count (tree self.now) table }
    {
        let Some(value) = member(&self.root, table.key()) else {
            return Ok(None);
        };
        match tables_in(value) {
            Some(count) => Ok(Some(count)),
            None => Err(wrong_kind(TableKind::Top, 0, table.key())),
        }
    }

    /// The number of elements of an array key, at most what a `u32` holds, and `None` where the key is absent.
    /// `WrongKind` where it is no array.
    pub fn items(&self, table: TableKind, index: u32, key: Key) -> Result<Option<u32>, ConfigFault>
        ensures { result ≡ setting items_in (tree self.now) table index key }
    {
        let Some(value) = self.value(table, index, key) else {
            return Ok(None);
        };
        match items_in(value) {
            Some(count) => Ok(Some(count)),
            None => Err(wrong_kind(table, index, key)),
        }
    }

    /// The number of elements of an array key of integers, at most what a `u32` holds, and `None` where the key is
    /// absent. `WrongKind` where it is no array or holds an element that is no integer.
    pub fn integers(
        &self,
        table: TableKind,
        index: u32,
        key: Key,
    ) -> Result<Option<u32>, ConfigFault>
        ensures { result ≡ setting integers_in (tree self.now) table index key }
    {
        let Some(value) = self.value(table, index, key) else {
            return Ok(None);
        };
        match integers_in(value) {
            Some(count) => Ok(Some(count)),
            None => Err(wrong_kind(table, index, key)),
        }
    }

    /// The number of elements of an array key of texts, at most what a `u32` holds, and `None` where the key is
    /// absent. `WrongKind` where it is no array or holds an element that is no string.
    pub fn texts(&self, table: TableKind, index: u32, key: Key) -> Result<Option<u32>, ConfigFault>
        ensures { result ≡ setting texts_in (tree self.now) table index key }
    {
        let Some(value) = self.value(table, index, key) else {
            return Ok(None);
        };
        match texts_in(value) {
            Some(count) => Ok(Some(count)),
            None => Err(wrong_kind(table, index, key)),
        }
    }

    /// The integer that an array key holds at `at`, from 0. `Missing` where there is no such element, which doesn't
    /// come below what `items` gave; `WrongKind` where it is no integer, else `OutOfRange` where it isn't from `low`
    /// to `high`.
    pub fn integer_at(
        &self,
        table: TableKind,
        index: u32,
        key: Key,
        at: u32,
        low: i64,
        high: i64,
    ) -> Result<i64, ConfigFault>
        ensures value { result ≡ setting_item (integer_in low high) (tree self.now) table index key at }
        ensures within { IfOk result (λ number. IsWithin low high (Some number)) }
    {
        let Some(value) = self.element(table, index, key, at) else {
            return Err(ConfigFault {
                kind: FaultKind::Missing,
                table,
                index,
                key,
            });
        };
        integer_in(value, low, high).map_err(|kind| ConfigFault {
            kind,
            table,
            index,
            key,
        })
    }

    /// The text that an array key holds at `at`, from 0. `Missing` where there is no such element, which doesn't come
    /// below what `items` gave; `WrongKind` where it is no string.
    pub fn text_at(
        &self,
        table: TableKind,
        index: u32,
        key: Key,
        at: u32,
    ) -> Result<&str, ConfigFault>
        ensures ok { IfOk result (λ text. setting_item text_in (tree self.now) table index key at ≡ Ok text.now) }
        ensures err { IfErr result (λ fault. setting_item text_in (tree self.now) table index key at ≡ Err fault) }
    {
        let Some(value) = self.element(table, index, key, at) else {
            return Err(ConfigFault {
                kind: FaultKind::Missing,
                table,
                index,
                key,
            });
        };
        match value.as_str() {
            Some(text) => Ok(text),
            None => Err(wrong_kind(table, index, key)),
        }
    }

    /// `UnknownKey` where the table has a key that isn't listed.
    pub fn known_only(&self, table: TableKind, index: u32, keys: &[Key]) -> Result<(), ConfigFault>
        ensures { result ≡ placed table index Key.Other (known_in keys.now (entry_of (tree self.now) table index)) }
    {
        let Some(members) = self.entry(table, index).and_then(Value::as_table) else {
            return Ok(());
        };
        if has_known_only(members, keys) {
            Ok(())
        } else {
            Err(ConfigFault {
                kind: FaultKind::UnknownKey,
                table,
                index,
                key: Key::Other,
            })
        }
    }

    /// The table of this kind and number.
    fn entry(&self, table: TableKind, index: u32) -> Option<&Value>
        ensures { option_map (λ value. view value.now) result ≡ entry_of (tree self.now) table index }
    {
        if table == TableKind::Top {
            return Some(&self.root);
        }
        member(&self.root, table.key())?.get(index as usize)
    }

    /// The value of a key.
    pub(crate) fn value(&self, table: TableKind, index: u32, key: Key) -> Option<&Value>
        ensures { option_map (λ value. view value.now) result ≡ value_at (tree self.now) table index key }
    {
        member(self.entry(table, index)?, key)
    }

    /// The element numbered `at` of an array key.
    pub(crate) fn element(&self, table: TableKind, index: u32, key: Key, at: u32) -> Option<&Value>
        ensures { option_map (λ value. view value.now) result ≡ element_at (tree self.now) table index key at }
    {
        self.value(table, index, key)?.get(at as usize)
    }
}

/// The value of a key in a table.
fn member(entry: &Value, key: Key) -> Option<&Value>
    ensures { option_map (λ value. view value.now) result ≡ value_in (view entry.now) key }
{
    entry.get(key.name()?)
}

/// The error of a text that wasn't read.
fn parse_error(error: toml::de::Error) -> ConfigError
    ensures memory { IsMemory error → result ≡ ConfigError.Memory }
    ensures fault { result ≢ ConfigError.Memory → (result ≡ ConfigError.Fault not_toml) × ¬ IsMemory error }
{
    if error.is_memory() {
        return ConfigError::Memory;
    }
    ConfigError::Fault(ConfigFault {
        kind: FaultKind::NotToml,
        table: TableKind::Top,
        index: 0,
        key: Key::Other,
    })
}

/// The fault of a value of another kind.
pub(crate) fn wrong_kind(table: TableKind, index: u32, key: Key) -> ConfigFault
    ensures { result ≡ fault_at table index key FaultKind.WrongKind }
{
    ConfigFault {
        kind: FaultKind::WrongKind,
        table,
        index,
        key,
    }
}

/// The integer that the value is, from `low` to `high`.
pub(crate) fn integer_in(value: &Value, low: i64, high: i64) -> Result<i64, FaultKind>
    ensures value { result ≡ integer_in low high (view value.now) }
    ensures within { IfOk result (λ number. IsWithin low high (Some number)) }
{
    let Some(number) = value.as_integer() else {
        return Err(FaultKind::WrongKind);
    };
    if low <= number && number <= high {
        Ok(number)
    } else {
        Err(FaultKind::OutOfRange)
    }
}

/// The number of elements, where the value is an array.
pub(crate) fn items_in(value: &Value) -> Option<u32>
    ensures { result ≡ result_ok (items_in (view value.now)) }
{
    Some(count_of(value.as_array()?))
}

/// The number of elements, where the value is an array of tables alone.
fn tables_in(value: &Value) -> Option<u32>
    ensures { result ≡ result_ok (tables_in (view value.now)) }
{
    let array = value.as_array()?;
    if are_tables(array.as_slice()) {
        Some(count_of(array))
    } else {
        None
    }
}

/// Whether each value is a table.
fn are_tables(values: &[Value]) -> bool
    ensures { result ≡ list_all (λ value. is_some (as_table (view value))) values.now }
{
    values.iter().all(|value| value.is_table())
}

/// The number of elements, where the value is an array of integers alone.
pub(crate) fn integers_in(value: &Value) -> Option<u32>
    ensures { result ≡ result_ok (integers_in (view value.now)) }
{
    let array = value.as_array()?;
    if are_integers(array.as_slice()) {
        Some(count_of(array))
    } else {
        None
    }
}

/// Whether each value is an integer.
fn are_integers(values: &[Value]) -> bool
    ensures { result ≡ list_all (λ value. is_some (as_integer (view value))) values.now }
{
    values.iter().all(|value| value.is_integer())
}

/// The number of elements, where the value is an array of texts alone.
fn texts_in(value: &Value) -> Option<u32>
    ensures { result ≡ result_ok (texts_in (view value.now)) }
{
    let array = value.as_array()?;
    if are_texts(array.as_slice()) {
        Some(count_of(array))
    } else {
        None
    }
}

/// Whether each value is a string.
fn are_texts(values: &[Value]) -> bool
    ensures { result ≡ list_all (λ value. is_some (as_str (view value))) values.now }
{
    values.iter().all(|value| value.is_str())
}

/// The number of elements, at most what a `u32` holds.
#[tactic(auto, using(crate::proofs::TreeLemmas::element_counts))]
pub(crate) fn count_of(array: &Array) -> u32
    ensures { result ≡ count_of (array_view array.now) }
{
    array.as_slice().len().min(u32::MAX as usize) as u32
}

/// Whether each key of the table is listed.
fn has_known_only(members: &Table, keys: &[Key]) -> bool
    ensures { result ≡ list_all (is_listed keys.now) (names (table_view members.now)) }
{
    for name in members.keys() {
        if !is_listed(keys, name.as_str()) {
            return false;
        }
    }
    true
}

/// Whether the name is that of a listed key.
fn is_listed(keys: &[Key], name: &str) -> bool
    ensures { result ≡ is_listed keys.now name.now }
{
    keys.iter().any(|key| is_named(*key, name))
}

/// Whether the key has this name.
fn is_named(key: Key, name: &str) -> bool
    ensures { result ≡ is_named (key_name key) name.now }
{
    match key.name() {
        Some(own) => own == name,
        None => false,
    }
}
