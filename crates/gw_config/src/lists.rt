//! Readings for each index of an array, up to the first fault.
ghost use Rattle.std.specs.Prelude.{◌≡◌, true, IfOk, length};
ghost use Rattle.std.specs.List.{list_all};
ghost use Rattle.gw_settings.specs.Settings.{tree};
ghost use Rattle.gw_config.specs.Outcome.{Gives};
ghost use Rattle.gw_config.specs.Rows.{each_from, number_at, numbers_row, number_fits, list_fits, text_at, texts_row, text_fits};

use crate::rows::{self, ListRow, NumberRow, TextRow};
use gw_base::{Bytes, ListOf};
use gw_settings::{ConfigError, Settings};
use std::alloc::Global;

/// An entry of an array of tables.
pub(crate) trait Entry: Drop {
    ghost use Rattle.std.specs.Prelude.{ℕ, Result};
    ghost use Rattle.toml.specs.Data.{Data};
    ghost use Rattle.gw_settings.specs.Settings.{tree};
    ghost use Rattle.gw_settings.specs.declared.fault.ConfigFault.{ConfigFault};
    ghost use Rattle.gw_config.specs.Outcome.{Gives};

    ghost said: { Data → ℕ → Result Self ConfigFault };

    /// The entry that the table numbered `index` says.
    fn read(alloc: Global, settings: &Settings, index: u32) -> Result<Self, ConfigError>
        ensures { Gives (said (tree settings.now) index) result };
}

/// The first entries, so many.
pub(crate) fn entries<E: Entry>(
    alloc: Global,
    settings: &Settings,
    count: u32,
) -> Result<ListOf<E>, ConfigError>
    ensures value { Gives (each_from (E.said (tree settings.now)) 0 count) result }
    ensures count { IfOk result (λ entries. length entries ≡ count) }
{
    let mut entries = ListOf::new(alloc);
    for index in 0..count {
        let entry = E::read(alloc, settings, index)?;
        entries.push(entry)?;
    }
    Ok(entries)
}

/// The integers of an array of integers.
pub(crate) fn numbers(
    alloc: Global,
    settings: &Settings,
    index: u32,
    row: ListRow,
    each: NumberRow,
) -> Result<ListOf<u32>, ConfigError>
    ensures value { Gives (numbers_row row each index (tree settings.now)) result }
    ensures count { IfOk result (λ numbers. list_fits row (length numbers) ≡ true) }
    ensures fits { IfOk result (λ numbers. list_all (number_fits each) numbers ≡ true) }
{
    let found = settings.integers(row.table, index, row.key)?;
    let count = rows::list_count(found, index, row)?;
    first_numbers(alloc, settings, index, each, count)
}

/// The first integers of an array, so many.
fn first_numbers(
    alloc: Global,
    settings: &Settings,
    index: u32,
    each: NumberRow,
    count: u32,
) -> Result<ListOf<u32>, ConfigError>
    ensures value { Gives (each_from (number_at each index (tree settings.now)) 0 count) result }
    ensures count { IfOk result (λ numbers. length numbers ≡ count) }
    ensures fits { IfOk result (λ numbers. list_all (number_fits each) numbers ≡ true) }
{
    let mut numbers = ListOf::new(alloc);
    for at in 0..count {
        let number = rows::number_at(settings, index, each, at)?;
        numbers.push(number)?;
    }
    Ok(numbers)
}

/// The texts of an array of texts.
pub(crate) fn texts(
    alloc: Global,
    settings: &Settings,
    index: u32,
    row: ListRow,
    each: TextRow,
) -> Result<ListOf<Bytes>, ConfigError>
    ensures value { Gives (texts_row row each index (tree settings.now)) result }
    ensures count { IfOk result (λ texts. list_fits row (length texts) ≡ true) }
    ensures fits { IfOk result (λ texts. list_all (text_fits each) texts ≡ true) }
{
    let found = settings.texts(row.table, index, row.key)?;
    let count = rows::list_count(found, index, row)?;
    first_texts(alloc, settings, index, each, count)
}

/// The first texts of an array, so many.
fn first_texts(
    alloc: Global,
    settings: &Settings,
    index: u32,
    each: TextRow,
    count: u32,
) -> Result<ListOf<Bytes>, ConfigError>
    ensures value { Gives (each_from (text_at each index (tree settings.now)) 0 count) result }
    ensures count { IfOk result (λ texts. length texts ≡ count) }
    ensures fits { IfOk result (λ texts. list_all (text_fits each) texts ≡ true) }
{
    let mut texts = ListOf::new(alloc);
    for at in 0..count {
        let text = rows::text_at(alloc, settings, index, each, at)?;
        texts.push(text)?;
    }
    Ok(texts)
}
