//! The values of a configuration's keys, as `toml` holds them, and how they are put into a table.
ghost use Rattle.std.specs.Prelude.{◌≡◌, ◌++◌, ◌<◌, ◌^◌, true, map, option_map, pos, OnOk, IfOk, IsUtf8};
ghost use Rattle.std.specs.List.{list_all};
ghost use Rattle.gw_config.specs.Lawful.{optional_fits};
ghost use Rattle.gw_config.specs.Rows.{text_fits};
ghost use Rattle.gw_settings.specs.Names.{key_name};
ghost use Rattle.toml.specs.Data.{array, boolean, integer, string};
ghost use Rattle.toml.specs.View.{items_of, table_view, view};
ghost use Rattle.config_text.specs.Printed.{group_value, hex_text, id_text};
ghost use Rattle.config_text.specs.Puts.{put, put_some};

use can_frame::CanId;
use gw_base::{Bytes, Memory};
use gw_config::{CellsList, TextRow};
use gw_settings::Key;
use std::alloc::Global;
use toml::{Table, Value};

/// Puts a key with its value into the table.
#[tactic(auto, using(crate::proofs::PutLemmas::puts))]
pub(crate) fn put(alloc: Global, table: &mut Table, key: Key, value: Value) -> Result<(), Memory>
    ensures { OnOk result (table_view table.new ≡ put (key_name key) (view value) (table_view table.old)) }
{
    let Some(name) = key.name() else {
        return Ok(());
    };
    table.insert(String::from_str(alloc, name)?, value)?;
    Ok(())
}

/// A flag's value.
#[tactic(auto, using(crate::proofs::PutLemmas::value_views))]
pub(crate) fn flag(flag: bool) -> Value
    ensures { view result ≡ boolean flag }
{
    Value::Boolean(flag)
}

/// A number's value.
#[tactic(auto, using(crate::proofs::PutLemmas::value_views))]
pub(crate) fn number(number: u32) -> Value
    ensures { view result ≡ integer (pos number) }
{
    Value::Integer(i64::from(number))
}

/// A copy of the text, as a value.
pub(crate) fn text(alloc: Global, text: &[u8]) -> Result<Value, Memory>
    requires { IsUtf8 text.now }
    ensures { IfOk result (λ value. view value ≡ string text.now) }
{
    let Ok(found) = std::str::from_utf8(text) else {
        unreachable!();
    };
    Ok(Value::string(alloc, found)?)
}

/// A copy of a name that the row takes, as a value.
#[tactic(auto, using(crate::proofs::PrintLemmas::name_texts))]
pub(crate) fn name(alloc: Global, row: TextRow, name: &Bytes) -> Result<Value, Memory>
    requires { text_fits row name.now ≡ true }
    ensures { IfOk result (λ value. view value ≡ string name.now) }
{
    text(alloc, name.items())
}

/// An identifier in its hex digits, as a value.
pub(crate) fn id(alloc: Global, id: CanId) -> Result<Value, Memory>
    ensures { IfOk result (λ value. view value ≡ string (id_text id)) }
{
    match id {
        CanId::Std(number) => hex(alloc, 3, u32::from(number)),
        CanId::Ext(number) => hex(alloc, 8, number),
    }
}

/// A number in so many hex digits, as a value.
fn hex(alloc: Global, digits: u32, number: u32) -> Result<Value, Memory>
    ensures { IfOk result (λ value. view value ≡ string (hex_text digits number)) }
{
    let mut digits_text = Bytes::new(alloc);
    push_hex(&mut digits_text, digits, number)?;
    text(alloc, digits_text.items())
}

/// Appends a number in so many hex digits.
fn push_hex(out: &mut Bytes, digits: u32, number: u32) -> Result<(), Memory>
    ensures { OnOk result (out.new ≡ out.old ++ hex_text digits number) }
{
    if digits == 0 {
        return Ok(());
    }
    push_hex(out, digits - 1, number / 16)?;
    let Some(digit) = char::from_digit(number % 16, 16) else {
        unreachable!();
    };
    out.push(digit as u8)
}

/// Puts a key, where there is a value for it, into the table.
pub(crate) fn put_some(
    alloc: Global,
    table: &mut Table,
    key: Key,
    value: Option<Value>,
) -> Result<(), Memory>
    ensures { OnOk result (table_view table.new ≡ put_some (key_name key) (option_map view value) (table_view table.old)) }
{
    match value {
        Some(value) => put(alloc, table, key, value),
        None => Ok(()),
    }
}

/// An address byte's value, where there is one.
pub(crate) fn address(address: Option<u8>) -> Option<Value>
    ensures { option_map view result ≡ option_map (λ byte. integer (pos byte)) address }
{
    match address {
        Some(byte) => Some(number(u32::from(byte))),
        None => None,
    }
}

/// A word, as a value.
pub(crate) fn word(alloc: Global, word: &str) -> Result<Value, Memory>
    ensures { IfOk result (λ value. view value ≡ string word.now) }
{
    Ok(Value::string(alloc, word)?)
}

/// A copy of an optional name that the row takes, as a value.
pub(crate) fn optional_name(
    alloc: Global,
    row: TextRow,
    found: &Option<Bytes>,
) -> Result<Option<Value>, Memory>
    requires { optional_fits row found.now ≡ true }
    ensures { IfOk result (λ value. option_map view value ≡ option_map string found.now) }
{
    match found {
        Some(found) => Ok(Some(name(alloc, row, found)?)),
        None => Ok(None),
    }
}

/// A tick's value: ticks of a configuration fit 63 bits.
#[tactic(auto, using(crate::proofs::PutLemmas::value_views))]
pub(crate) fn tick(tick: u64) -> Value
    requires { tick < 2 ^ 63 }
    ensures { view result ≡ integer (pos tick) }
{
    Value::Integer(tick as i64)
}

/// A copy of each name that the row takes, as an array.
pub(crate) fn names(alloc: Global, row: TextRow, found: &[Bytes]) -> Result<Value, Memory>
    requires { list_all (text_fits row) found.now ≡ true }
    ensures { IfOk result (λ value. view value ≡ array (items_of (map string found.now))) }
{
    let mut values = Vec::new(alloc);
    for text in found {
        values.push(name(alloc, row, text)?)?;
    }
    Ok(Value::Array(values))
}

/// The cells of each buffer of a group, as an array.
fn group(alloc: Global, found: &[u32]) -> Result<Value, Memory>
    ensures { IfOk result (λ value. view value ≡ group_value found.now) }
{
    let mut values = Vec::new(alloc);
    for cells in found {
        values.push(number(*cells))?;
    }
    Ok(Value::Array(values))
}

/// The groups of buffers, as an array of arrays.
pub(crate) fn groups(alloc: Global, found: &[CellsList]) -> Result<Value, Memory>
    ensures { IfOk result (λ value. view value ≡ array (items_of (map group_value found.now))) }
{
    let mut values = Vec::new(alloc);
    for cells in found {
        values.push(group(alloc, cells.items())?)?;
    }
    Ok(Value::Array(values))
}
