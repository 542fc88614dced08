//! What a step tells is noted in the worker's lists.
ghost use Rattle.std.specs.Prelude.{◌≡◌, ◌++◌, OnOk, option_to_list};

use gw_base::{ListOf, Memory};

/// Appends all items.
pub(crate) fn note_all<T: Copy + Drop>(list: &mut ListOf<T>, items: &[T]) -> Result<(), Memory>
    ensures { OnOk result (list.new ≡ list.old ++ items.now) }
{
    for item in items {
        list.push(*item)?;
    }
    Ok(())
}

/// Appends the item, where there is one.
pub(crate) fn note<T: Drop>(list: &mut ListOf<T>, item: Option<T>) -> Result<(), Memory>
    ensures { OnOk result (list.new ≡ list.old ++ option_to_list item) }
{
    let Some(item) = item else {
        return Ok(());
    };
    list.push(item)
}
