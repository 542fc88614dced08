//! What was done with a queue, which no memory keeps: the view of the one seat at a table of one word.
ghost use Rattle.std.specs.Prelude.{◌≡◌, IfOk};
ghost use Rattle.if_core.specs.Past.{lane_of, done_to};
ghost use Rattle.if_core.specs.Lane.{empty_lane, offered, took};

use crate::lanes::Offer;
use crate::unit::IfUnit;
use atomic_table::{Play, Seat, Table, TableRule};
use gw_base::Memory;
use std::alloc::Global;
use std::collections::LinkedList;

/// An offered unit and its answer. No value of it is made.
pub struct Offering {
    pub unit: IfUnit,
    pub answer: Offer,
}

/// A unit that was taken, and its position. No value of it is made.
pub struct Taking {
    pub position: u64,
    pub unit: IfUnit,
}

/// All that was done with one queue, in order. No value of it is made.
pub struct Past {
    pub offers: LinkedList<Offering>,
    pub takes: LinkedList<Taking>,
}

/// One thing that was done with a queue.
#[derive(Drop)]
pub(crate) enum Deed {
    Offered { unit: IfUnit, answer: Offer },
    Took { position: u64, unit: IfUnit },
}

/// The rule of the table: none, since its word means nothing.
pub(crate) struct NoRule;

impl TableRule<Deed, Past, ()> for NoRule {
    ghost use Rattle.std.specs.Prelude.{[]};

    ghost holds = { λ _ _. Unit {0} };

    ghost first = { λ _. record { offers = []; takes = [] } };
}

/// The step that notes a deed.
pub(crate) struct Note;

impl Play<Deed, Past> for Note {
    ghost use Rattle.if_core.specs.Past.{IsNoted};

    ghost then = { IsNoted };
}

/// The past of one queue.
#[derive(Drop)]
pub(crate) struct History {
    table: Table<Deed, Past, (), NoRule, Global>,
    pub(crate) seat: Seat<Deed, Past>,
    ghost of: { seat.table_id ≡ table.shared.table_id },
    ghost one: { table.shared.table_id.words ≡ 1 },
}

impl History {
    /// A history of a queue with which nothing was done.
    pub(crate) fn new(alloc: Global) -> Result<History, Memory>
        ensures { IfOk result (λ history. lane_of history.seat.me.0 ≡ empty_lane) }
    {
        let (table, seat) = Table::of_words(alloc, &[0], &())?;
        Ok(History { table, seat })
    }

    /// Adds an offer of this unit, and gives the unit back.
    pub(crate) fn note_offer(&mut self, unit: IfUnit, answer: Offer) -> IfUnit
        ensures past { lane_of self.new.seat.me.0 ≡ offered unit answer (lane_of self.old.seat.me.0) }
        ensures unit { result ≡ unit }
    {
        let deed = Deed::Offered { unit, answer };
        self.note(&deed);
        match deed {
            Deed::Offered { unit, answer: _ } => unit,
            Deed::Took { position: _, unit } => unit,
        }
    }

    /// Adds a take of this unit, and gives the unit back.
    pub(crate) fn note_take(&mut self, position: u64, unit: IfUnit) -> IfUnit
        ensures past { lane_of self.new.seat.me.0 ≡ took position unit (lane_of self.old.seat.me.0) }
        ensures unit { result ≡ unit }
    {
        let deed = Deed::Took { position, unit };
        self.note(&deed);
        match deed {
            Deed::Offered { unit, answer: _ } => unit,
            Deed::Took { position: _, unit } => unit,
        }
    }

    /// Adds what was done.
    fn note(&mut self, deed: &Deed)
        ensures { lane_of self.new.seat.me.0 ≡ done_to deed.now (lane_of self.old.seat.me.0) }
    {
        let table = &self.table;
        let shared = &table.shared;
        shared.compare_exchange_with::<Note>(&mut self.seat, 0, 0, 0, deed);
    }
}
