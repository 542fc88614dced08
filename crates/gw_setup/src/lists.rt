//! Lists to which a call may add.
ghost use Rattle.std.specs.Prelude.{◌≡◌, ◌++◌, OnOk, option_to_list};

use gw_base::Memory;

/// Appends the item, where there is one.
pub(crate) fn push_some<T: Drop>(list: &mut Vec<T>, item: Option<T>) -> Result<(), Memory>
    ensures { OnOk result (list.new.items ≡ list.old.items ++ option_to_list item) }
{
    let Some(item) = item else {
        return Ok(());
    };
    list.push(item)?;
    Ok(())
}
