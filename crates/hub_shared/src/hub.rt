//! The hub's memory, and how its seats are divided and joined.
ghost use Rattle.std.specs.Prelude.{◌≡◌, ◌≤◌, length};
ghost use Rattle.hub_layout.specs.Places.{words_in};
ghost use Rattle.hub_layout.specs.Pool.{IsPool};

use crate::plays::{Buffers, HubRule};
use crate::sight::{Note, Sight};
use atomic_table::Table;
use hub_layout::Layout;
use std::alloc::Global;

/// A hub over shared words: up to four groups of 32 buffers each. What its seats do, each in a thread of its own, waits
/// for nobody.
#[derive(Drop)]
pub struct SharedHub {
    pub(crate) table: Table<Note, Sight, Buffers, HubRule, Global>,
    pub(crate) buffers: Buffers,
    pub(crate) layout: Layout,
    ghost key: { table.shared.key ≡ buffers },
    ghost pool: { IsPool buffers.cells.items buffers.counts.items },
    ghost laid: { layout ≡ record { groups = length buffers.counts.items; cells = buffers.cells.items } },
    ghost wide: { words_in (length buffers.counts.items) buffers.cells.items ≤ table.shared.table_id.words },
}
