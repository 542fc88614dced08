//! A row of the key table for each kind of key, and the reading of its value.
ghost use Rattle.std.specs.Prelude.{◌≡◌, ◌≤◌, true, is_some, IfOk, IfSome};
ghost use Rattle.gw_settings.specs.Faults.{fault_at};
ghost use Rattle.gw_settings.specs.Settings.{tree};
ghost use Rattle.gw_settings.specs.Tree.{entry_of};
ghost use Rattle.gw_config.specs.Rows.{number_row, flag_row, text_row, optional_text_row, word_row, count_row, text_found, text_fits, number_fits, default_fits, length_row, address_row, is_frame_length, has_address, address_fits, count_fits, list_found, list_fits, number_at, text_at};
ghost use Rattle.gw_config.specs.Texts.{is_folder, is_name_byte, name_fits};
ghost use Rattle.std.specs.List.{list_all};
ghost use Rattle.gw_config.specs.Outcome.{Gives};

use crate::words::{Addressing, Word};
use gw_base::Bytes;
use gw_settings::{ConfigError, ConfigFault, FaultKind, Key, Settings, TableKind};
use std::alloc::Global;

/// A key whose value is an integer from `low` to `high`; required where there is no default.
#[derive(Clone, Copy, Debug)]
pub struct NumberRow {
    /// The table that it stands in.
    pub table: TableKind,
    /// The key.
    pub key: Key,
    /// The least value.
    pub low: u32,
    /// The greatest value.
    pub high: u32,
    /// The value where the key is absent, if it may be.
    pub default: Option<u32>,
}

/// A key whose value is a flag.
#[derive(Clone, Copy, Debug)]
pub struct FlagRow {
    /// The table that it stands in.
    pub table: TableKind,
    /// The key.
    pub key: Key,
    /// The value where the key is absent.
    pub default: bool,
}

/// A key whose value is a name of at most `most` bytes, or a file's name.
#[derive(Clone, Copy, Debug)]
pub struct TextRow {
    /// The table that it stands in.
    pub table: TableKind,
    /// The key.
    pub key: Key,
    /// The most bytes.
    pub most: usize,
    /// Whether it is the name of a file.
    pub is_file: bool,
}

/// A key whose value is a word; required where there is no default.
#[derive(Clone, Copy, Debug)]
pub struct WordRow<W> {
    /// The table that it stands in.
    pub table: TableKind,
    /// The key.
    pub key: Key,
    /// The choice where the key is absent, if it may be.
    pub default: Option<W>,
}

/// A required key whose value is an array of `least` to `most` elements.
#[derive(Clone, Copy, Debug)]
pub struct ListRow {
    /// The table that it stands in.
    pub table: TableKind,
    /// The key.
    pub key: Key,
    /// The fewest elements.
    pub least: u32,
    /// The most elements.
    pub most: u32,
}

/// An array of `low` to `high` tables; required where it may not be empty.
#[derive(Clone, Copy, Debug)]
pub struct CountRow {
    /// The kind of the tables.
    pub table: TableKind,
    /// The fewest tables.
    pub low: u32,
    /// The most tables.
    pub high: u32,
}

/// The integer of a row.
pub(crate) fn number(settings: &Settings, index: u32, row: NumberRow) -> Result<u32, ConfigFault>
    requires { default_fits row ≡ true }
    ensures value { result ≡ number_row row index (entry_of (tree settings.now) row.table index) }
    ensures fits { IfOk result (λ number. number_fits row number ≡ true) }
{
    let found = settings.integer(
        row.table,
        index,
        row.key,
        i64::from(row.low),
        i64::from(row.high),
    )?;
    match (found, row.default) {
        (Some(number), _) => Ok(number as u32),
        (None, Some(default)) => Ok(default),
        (None, None) => Err(fault(FaultKind::Missing, row.table, index, row.key)),
    }
}

/// The integer of a row whose range is a byte's.
pub(crate) fn byte(settings: &Settings, index: u32, row: NumberRow) -> Result<u8, ConfigFault>
    requires range { row.high ≤ 255 }
    requires default { default_fits row ≡ true }
    ensures value { result ≡ number_row row index (entry_of (tree settings.now) row.table index) }
    ensures fits { IfOk result (λ number. number_fits row number ≡ true) }
{
    let value = number(settings, index, row)?;
    Ok(value as u8)
}

/// The flag of a row.
pub(crate) fn flag(settings: &Settings, index: u32, row: FlagRow) -> Result<bool, ConfigFault>
    ensures { result ≡ flag_row row index (entry_of (tree settings.now) row.table index) }
{
    let found = settings.flag(row.table, index, row.key)?;
    Ok(found.unwrap_or(row.default))
}

/// The choice of a row.
pub(crate) fn word<W: Word>(
    settings: &Settings,
    index: u32,
    row: WordRow<W>,
) -> Result<W, ConfigFault>
    requires { IfSome row.default (λ choice. W.can_be choice ≡ true) }
    ensures value { result ≡ word_row W.of_word row index (entry_of (tree settings.now) row.table index) }
    ensures lawful { IfOk result (λ choice. W.can_be choice ≡ true) }
{
    match settings.text(row.table, index, row.key) {
        Ok(Some(text)) => W::from_word(text).ok_or(fault(
            FaultKind::OutOfRange,
            row.table,
            index,
            row.key,
        )),
        Ok(None) => row
            .default
            .ok_or(fault(FaultKind::Missing, row.table, index, row.key)),
        Err(fault) => Err(fault),
    }
}

/// The text of a row.
pub(crate) fn text(
    alloc: Global,
    settings: &Settings,
    index: u32,
    row: TextRow,
) -> Result<Bytes, ConfigError>
    ensures value { Gives (text_row row index (entry_of (tree settings.now) row.table index)) result }
    ensures fits { IfOk result (λ text. text_fits row text ≡ true) }
{
    match settings.text(row.table, index, row.key) {
        Ok(Some(found)) => text_found(alloc, found, index, row),
        Ok(None) => Err(ConfigError::Fault(fault(FaultKind::Missing, row.table, index, row.key))),
        Err(fault) => Err(ConfigError::Fault(fault)),
    }
}

/// The text of a row that may be absent.
pub(crate) fn optional_text(
    alloc: Global,
    settings: &Settings,
    index: u32,
    row: TextRow,
) -> Result<Option<Bytes>, ConfigError>
    ensures value { Gives (optional_text_row row index (entry_of (tree settings.now) row.table index)) result }
    ensures fits { IfOk result (λ found. IfSome found (λ text. text_fits row text ≡ true)) }
{
    match settings.text(row.table, index, row.key) {
        Ok(Some(found)) => Ok(Some(text_found(alloc, found, index, row)?)),
        Ok(None) => Ok(None),
        Err(fault) => Err(ConfigError::Fault(fault)),
    }
}

/// A copy of the text, where the row takes it.
pub(crate) fn text_found(
    alloc: Global,
    text: &str,
    index: u32,
    row: TextRow,
) -> Result<Bytes, ConfigError>
    ensures value { Gives (text_found row index text.now) result }
    ensures fits { IfOk result (λ copy. text_fits row copy ≡ true) }
{
    if !name_fits(row.most, row.is_file, text) {
        return Err(ConfigError::Fault(fault(FaultKind::OutOfRange, row.table, index, row.key)));
    }
    let mut copy = Bytes::new(alloc);
    copy.append(text.as_bytes())?;
    Ok(copy)
}

/// The length of frames of a row: one that a CAN FD frame can have, of 8 bytes or more (ISO 11898-1, data length code).
pub(crate) fn length(settings: &Settings, index: u32, row: NumberRow) -> Result<u8, ConfigFault>
    requires range { row.high ≤ 255 }
    requires default { default_fits row ≡ true }
    ensures value { result ≡ length_row row index (entry_of (tree settings.now) row.table index) }
    ensures fits { IfOk result (λ length. is_frame_length length ≡ true) }
    ensures in_range { IfOk result (λ length. number_fits row length ≡ true) }
{
    let length = byte(settings, index, row)?;
    match length {
        8 | 12 | 16 | 20 | 24 | 32 | 48 | 64 => Ok(length),
        _ => Err(fault(FaultKind::OutOfRange, row.table, index, row.key)),
    }
}

/// The address byte of a row, where the addressing has one.
pub(crate) fn address(
    settings: &Settings,
    index: u32,
    row: NumberRow,
    addressing: Addressing,
) -> Result<Option<u8>, ConfigFault>
    requires range { row.high ≤ 255 }
    requires default { default_fits row ≡ true }
    ensures value { result ≡ address_row row addressing index (entry_of (tree settings.now) row.table index) }
    ensures there { IfOk result (λ address. is_some address ≡ has_address addressing) }
    ensures in_range { IfOk result (λ address. address_fits row address ≡ true) }
{
    if addressing == Addressing::Normal {
        return Ok(None);
    }
    Ok(Some(byte(settings, index, row)?))
}

/// The number of elements of an array, where the row takes so many.
pub(crate) fn list_count(found: Option<u32>, index: u32, row: ListRow) -> Result<u32, ConfigFault>
    ensures value { result ≡ list_found row index found }
    ensures fits { IfOk result (λ count. list_fits row count ≡ true) }
{
    match found {
        Some(count) if row.least <= count && count <= row.most => Ok(count),
        Some(_) => Err(fault(FaultKind::OutOfRange, row.table, index, row.key)),
        None => Err(fault(FaultKind::Missing, row.table, index, row.key)),
    }
}

/// The integer numbered `at` of an array; the row is that of one element.
pub(crate) fn number_at(
    settings: &Settings,
    index: u32,
    row: NumberRow,
    at: u32,
) -> Result<u32, ConfigFault>
    ensures value { result ≡ number_at row index (tree settings.now) at }
    ensures fits { IfOk result (λ number. number_fits row number ≡ true) }
{
    let number = settings.integer_at(
        row.table,
        index,
        row.key,
        at,
        i64::from(row.low),
        i64::from(row.high),
    )?;
    Ok(number as u32)
}

/// The text numbered `at` of an array; the row is that of one element.
pub(crate) fn text_at(
    alloc: Global,
    settings: &Settings,
    index: u32,
    row: TextRow,
    at: u32,
) -> Result<Bytes, ConfigError>
    ensures value { Gives (text_at row index (tree settings.now) at) result }
    ensures fits { IfOk result (λ text. text_fits row text ≡ true) }
{
    match settings.text_at(row.table, index, row.key, at) {
        Ok(found) => text_found(alloc, found, index, row),
        Err(fault) => Err(ConfigError::Fault(fault)),
    }
}

/// The number of tables of a row.
pub(crate) fn count(settings: &Settings, row: CountRow) -> Result<u32, ConfigFault>
    ensures value { result ≡ count_row row (tree settings.now) }
    ensures fits { IfOk result (λ count. count_fits row count ≡ true) }
{
    match settings.count(row.table)? {
        Some(count) if row.low <= count && count <= row.high => Ok(count),
        Some(_) => Err(fault(FaultKind::OutOfRange, TableKind::Top, 0, row.table.key())),
        None if row.low == 0 => Ok(0),
        None => Err(fault(FaultKind::Missing, TableKind::Top, 0, row.table.key())),
    }
}

/// A fault at its place.
pub(crate) fn fault(kind: FaultKind, table: TableKind, index: u32, key: Key) -> ConfigFault
    ensures { result ≡ fault_at table index key kind }
{
    ConfigFault {
        kind,
        table,
        index,
        key,
    }
}

/// Whether the text is a name of 1 to `most` bytes, or a file's.
fn name_fits(most: usize, is_file: bool, text: &str) -> bool
    ensures { result ≡ name_fits most is_file text.now }
{
    if text.len() < 1 || text.len() > most {
        return false;
    }
    if !has_name_bytes(text.as_bytes()) {
        return false;
    }
    !(is_file && is_folder(text))
}

/// Whether the text names a folder.
fn is_folder(text: &str) -> bool
    ensures { result ≡ is_folder text.now }
{
    text == "." || text == ".."
}

/// Whether each byte is one of a name.
fn has_name_bytes(text: &[u8]) -> bool
    ensures { result ≡ list_all is_name_byte text.now }
{
    text.iter().all(|byte| is_name_byte(*byte))
}

/// Whether the byte is a letter, a digit, `_`, `-` or `.`.
fn is_name_byte(byte: u8) -> bool
    ensures { result ≡ is_name_byte byte }
{
    byte.is_ascii_alphanumeric() || byte == b'_' || byte == b'-' || byte == b'.'
}
