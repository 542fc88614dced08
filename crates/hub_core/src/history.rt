//! What was done with a plain hub, which no memory keeps: the view of the one seat at a table of one word.
ghost use Rattle.std.specs.Prelude.{◌≡◌, [], ◌∷◌, IfOk};

use crate::Left;
use atomic_table::{Play, Seat, Table, TableRule};
use gw_base::Memory;
use std::alloc::Global;
use std::collections::LinkedList;

/// One call of a port that adds to its view, by what it was given and what it answered.
#[derive(Clone, Copy, Debug)]
pub enum Deed {
    Took {
        group: u8,
        change: u32,
        buf: u8,
        size: u32,
        need: u64,
    },
    Refused {
        group: u8,
        change: u32,
        free: u32,
        need: u64,
    },
    Entered {
        path: u8,
        seq: u32,
        buf: u8,
        change: u32,
        size: u32,
        len: u32,
        readers: u8,
    },
    Asked {
        path: u8,
        seq: u32,
        cells: u32,
        readers: u8,
    },
    Put {
        path: u8,
        seq: u32,
        cell: u64,
    },
    Published {
        path: u8,
        seq: u32,
        bytes: u32,
    },
    Joining {
        path: u8,
        dest: u8,
        seq: u32,
        buf: u8,
        len: u32,
    },
    Saw {
        path: u8,
        dest: u8,
        seq: u32,
        cells: u32,
        bytes: u32,
        writer: bool,
    },
    Read {
        path: u8,
        dest: u8,
        seq: u32,
        cell: u64,
    },
    Closed {
        path: u8,
        seq: u32,
        left: Left,
    },
    Parted {
        path: u8,
        dest: u8,
        seq: u32,
        left: Left,
    },
}

/// All that was done, the newest first. No value of it is made.
pub struct Past {
    pub deeds: LinkedList<Deed>,
}

/// The rule of the table: none, since its word means nothing.
pub(crate) struct NoRule;

impl TableRule<Deed, Past, ()> for NoRule {
    ghost use Rattle.std.specs.Prelude.{[]};

    ghost holds = { λ _ _. Unit {0} };

    ghost first = { λ _. record { deeds = [] } };
}

/// The step that notes a deed.
pub(crate) struct Note;

impl Play<Deed, Past> for Note {
    ghost use Rattle.hub_core.specs.Past.{IsNoted};

    ghost then = { IsNoted };
}

/// The past of one hub.
#[derive(Drop)]
pub(crate) struct History {
    table: Table<Deed, Past, (), NoRule, Global>,
    pub(crate) seat: Seat<Deed, Past>,
    ghost of: { seat.table_id ≡ table.shared.table_id },
    ghost one: { table.shared.table_id.words ≡ 1 },
}

impl History {
    /// A history of a hub with which nothing was done.
    pub(crate) fn new(alloc: Global) -> Result<History, Memory>
        ensures { IfOk result (λ history. history.seat.me.0.deeds ≡ []) }
    {
        let (table, seat) = Table::of_words(alloc, &[0], &())?;
        Ok(History { table, seat })
    }

    /// Adds what was done.
    pub(crate) fn note(&mut self, deed: Deed)
        ensures { self.new.seat.me.0.deeds ≡ deed ∷ self.old.seat.me.0.deeds }
    {
        let table = &self.table;
        let shared = &table.shared;
        shared.compare_exchange_with::<Note>(&mut self.seat, 0, 0, 0, &deed);
    }
}
