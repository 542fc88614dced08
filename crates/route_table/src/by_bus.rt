//! Entries apart by their bus, so that a look-up passes over the entries of one bus alone.
ghost use Rattle.std.specs.Prelude.{◌≡◌, ◌==◌, ◌<◌, ◌≤◌, All, IfOk, filter};

use gw_base::{BusNo, Memory};
use std::alloc::Global;

/// An entry that stands on a bus.
pub(crate) trait OnBus: Copy + Drop {
    ghost use Rattle.std.specs.Prelude.{◌≡◌, ℕ};

    ghost bus_of: { Self → ℕ };

    /// The bus.
    fn bus(&self) -> BusNo
        ensures { result.0 ≡ bus_of self.now };
}

/// Entries by their bus, those of each bus in list order.
#[derive(Debug, Drop)]
pub(crate) struct ByBus<E> {
    /// The entries of the bus of each number; a bus past the end has none.
    lists: Vec<Vec<E>>,
}

impl<E: OnBus> ByBus<E> {
    ghost use Rattle.route_table.specs.ByBus.{entries_on, IsByBus};

    /// The entries, by their bus.
    pub(crate) fn build(alloc: Global, entries: &[E]) -> Result<ByBus<E>, Memory>
        ensures { IfOk result (IsByBus E.bus_of entries.now) }
    {
        let mut lists = Vec::new(alloc);
        for bus in 0..bus_count(entries) {
            lists.push(on_bus(alloc, entries, bus)?)?;
        }
        Ok(ByBus { lists })
    }

    /// The entries of the bus, in list order.
    pub(crate) fn on(&self, bus: BusNo) -> &[E]
        ensures { result.now ≡ entries_on self.now bus.0 }
    {
        match self.lists.get(usize::from(bus.0)) {
            Some(list) => list.as_slice(),
            None => &[],
        }
    }
}

/// A number above that of each entry's bus.
fn bus_count<E: OnBus>(entries: &[E]) -> usize
    ensures { All (λ entry. E.bus_of entry < result) entries.now }
{
    entries
        .iter()
        .map(|entry| usize::from(entry.bus().0) + 1)
        .max()
        .unwrap_or(0)
}

/// The entries of the bus of this number, in list order.
fn on_bus<E: OnBus>(alloc: Global, entries: &[E], bus: usize) -> Result<Vec<E>, Memory>
    ensures { IfOk result (λ list. list.items ≡ filter (λ entry. E.bus_of entry == bus) entries.now) }
{
    let list = entries
        .iter()
        .filter(|entry| usize::from(entry.bus().0) == bus)
        .copied()
        .collect(alloc)?;
    Ok(list)
}
