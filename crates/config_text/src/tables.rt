//! The table of each entry of a configuration, with all its keys.
ghost use Rattle.std.specs.Prelude.{◌≡◌, map, pos, OnOk, IfOk};
ghost use Rattle.std.specs.List.{AllByRecursion};
ghost use Rattle.toml.specs.Data.{array, integer};
ghost use Rattle.toml.specs.View.{items_of, table_view, view};
ghost use Rattle.config_text.specs.Printed.{put_addresses, put_ends, put_shape, put_timers};

use crate::values::{
    address, flag, id, name, names, number, optional_name, put, put_some, tick, word,
};
use crate::words::Word;
use gw_base::Memory;
use gw_config::keys::*;
use gw_config::{BusKeys, CancelKeys, ChannelKeys, InterfaceKeys, PathKeys};
use gw_settings::Key;
use std::alloc::Global;
use toml::{Table, Value};

/// An entry that is printed as a table.
pub(crate) trait Printed {
    ghost use Rattle.std.specs.Prelude.{◌≡◌, IfOk, OnOk};
    ghost use Rattle.toml.specs.Data.{Data};
    ghost use Rattle.toml.specs.View.{view};

    ghost printed: { Self → Data };

    ghost keeps: { Self → Type 0 };

    /// The table, as a value.
    fn print(&self, alloc: Global) -> Result<Value, Memory>
        ensures printed { IfOk result (λ value. view value ≡ printed self.now) }
        ensures lawful { OnOk result (keeps self.now) };
}

impl Printed for BusKeys {
    ghost use Rattle.config_text.specs.Printed.{bus_table};
    ghost use Rattle.gw_config.specs.Lawful.{IsLawfulBus};

    ghost printed = { bus_table };

    ghost keeps = { IsLawfulBus };

    #[tactic(auto, using(crate::proofs::PutLemmas::value_views))]
    fn print(&self, alloc: Global) -> Result<Value, Memory> {
        let mut table = Table::new(alloc);
        put(
            alloc,
            &mut table,
            Key::Name,
            name(alloc, BUS_NAME, &self.name)?,
        )?;
        put(
            alloc,
            &mut table,
            Key::Log,
            name(alloc, BUS_LOG, &self.log)?,
        )?;
        put(
            alloc,
            &mut table,
            Key::Out,
            name(alloc, BUS_OUT, &self.out)?,
        )?;
        put(alloc, &mut table, Key::Fd, flag(self.fd))?;
        put(alloc, &mut table, Key::Brs, flag(self.brs))?;
        put(
            alloc,
            &mut table,
            Key::Budget,
            number(u32::from(self.budget)),
        )?;
        Ok(Value::Table(table))
    }
}

/// Puts the name of a channel, its bus, its identifiers and its addressing.
fn put_ends(alloc: Global, channel: &ChannelKeys, table: &mut Table) -> Result<(), Memory>
    ensures { OnOk result (table_view table.new ≡ put_ends channel.now (table_view table.old)) }
{
    put(
        alloc,
        table,
        Key::Name,
        name(alloc, CHANNEL_NAME, &channel.name)?,
    )?;
    put(
        alloc,
        table,
        Key::Bus,
        name(alloc, CHANNEL_BUS, &channel.bus)?,
    )?;
    put(alloc, table, Key::Rx, id(alloc, channel.rx)?)?;
    put(alloc, table, Key::Tx, id(alloc, channel.tx)?)?;
    put(
        alloc,
        table,
        Key::Addressing,
        word(alloc, channel.addressing.word())?,
    )
}

/// Puts the address bytes that a channel has.
fn put_addresses(alloc: Global, channel: &ChannelKeys, table: &mut Table) -> Result<(), Memory>
    ensures { OnOk result (table_view table.new ≡ put_addresses channel.now (table_view table.old)) }
{
    put_some(alloc, table, Key::RxAddress, address(channel.rx_address))?;
    put_some(alloc, table, Key::TxAddress, address(channel.tx_address))
}

/// Puts the form of a channel's frames and its flow control.
fn put_shape(alloc: Global, channel: &ChannelKeys, table: &mut Table) -> Result<(), Memory>
    ensures { OnOk result (table_view table.new ≡ put_shape channel.now (table_view table.old)) }
{
    put(alloc, table, Key::Functional, flag(channel.functional))?;
    put(alloc, table, Key::Pad, flag(channel.pad))?;
    put(alloc, table, Key::Dl, number(u32::from(channel.dl)))?;
    put(alloc, table, Key::Fill, number(u32::from(channel.fill)))?;
    put(alloc, table, Key::Bs, number(u32::from(channel.bs)))?;
    put(alloc, table, Key::Stmin, number(u32::from(channel.stmin)))?;
    put(
        alloc,
        table,
        Key::WftMax,
        number(u32::from(channel.wft_max)),
    )
}

/// Puts the timers of a channel.
fn put_timers(alloc: Global, channel: &ChannelKeys, table: &mut Table) -> Result<(), Memory>
    ensures { OnOk result (table_view table.new ≡ put_timers channel.now (table_view table.old)) }
{
    put(alloc, table, Key::NAs, number(channel.n_as))?;
    put(alloc, table, Key::NAr, number(channel.n_ar))?;
    put(alloc, table, Key::NBs, number(channel.n_bs))?;
    put(alloc, table, Key::NBr, number(channel.n_br))?;
    put(alloc, table, Key::NCs, number(channel.n_cs))?;
    put(alloc, table, Key::NCr, number(channel.n_cr))
}

impl Printed for ChannelKeys {
    ghost use Rattle.config_text.specs.Printed.{channel_table};
    ghost use Rattle.gw_config.specs.Lawful.{IsLawfulChannel};

    ghost printed = { channel_table };

    ghost keeps = { IsLawfulChannel };

    #[tactic(auto, using(crate::proofs::PutLemmas::value_views))]
    fn print(&self, alloc: Global) -> Result<Value, Memory> {
        let _name = &self.name;
        let mut table = Table::new(alloc);
        put_ends(alloc, self, &mut table)?;
        put_addresses(alloc, self, &mut table)?;
        put_shape(alloc, self, &mut table)?;
        put_timers(alloc, self, &mut table)?;
        Ok(Value::Table(table))
    }
}

impl Printed for PathKeys {
    ghost use Rattle.config_text.specs.Printed.{path_table};
    ghost use Rattle.gw_config.specs.Lawful.{IsLawfulPath};

    ghost printed = { path_table };

    ghost keeps = { IsLawfulPath };

    #[tactic(auto, using(crate::proofs::PutLemmas::value_views))]
    fn print(&self, alloc: Global) -> Result<Value, Memory> {
        let mut table = Table::new(alloc);
        put(
            alloc,
            &mut table,
            Key::Name,
            name(alloc, PATH_NAME, &self.name)?,
        )?;
        put(
            alloc,
            &mut table,
            Key::From,
            name(alloc, PATH_FROM, &self.from)?,
        )?;
        put(
            alloc,
            &mut table,
            Key::To,
            names(alloc, PATH_DESTINATION, self.to.items())?,
        )?;
        put(alloc, &mut table, Key::Threshold, number(self.threshold))?;
        put(alloc, &mut table, Key::Store, flag(self.store))?;
        put(alloc, &mut table, Key::Group, number(u32::from(self.group)))?;
        Ok(Value::Table(table))
    }
}

impl Printed for InterfaceKeys {
    ghost use Rattle.config_text.specs.Printed.{interface_table};
    ghost use Rattle.gw_config.specs.Lawful.{IsLawfulInterface};

    ghost printed = { interface_table };

    ghost keeps = { IsLawfulInterface };

    #[tactic(auto, using(crate::proofs::PutLemmas::value_views))]
    fn print(&self, alloc: Global) -> Result<Value, Memory> {
        let mut table = Table::new(alloc);
        put(
            alloc,
            &mut table,
            Key::Name,
            name(alloc, INTERFACE_NAME, &self.name)?,
        )?;
        put(
            alloc,
            &mut table,
            Key::FromBus,
            name(alloc, INTERFACE_FROM_BUS, &self.from_bus)?,
        )?;
        put(alloc, &mut table, Key::FromId, id(alloc, self.from_id)?)?;
        put(
            alloc,
            &mut table,
            Key::ToBus,
            name(alloc, INTERFACE_TO_BUS, &self.to_bus)?,
        )?;
        put(alloc, &mut table, Key::ToId, id(alloc, self.to_id)?)?;
        put(
            alloc,
            &mut table,
            Key::Queue,
            word(alloc, self.queue.word())?,
        )?;
        put(alloc, &mut table, Key::Depth, number(self.depth))?;
        Ok(Value::Table(table))
    }
}

impl Printed for CancelKeys {
    ghost use Rattle.config_text.specs.Printed.{cancel_table};
    ghost use Rattle.gw_config.specs.Lawful.{IsLawfulCancel};

    ghost printed = { cancel_table };

    ghost keeps = { IsLawfulCancel };

    #[tactic(auto, using(crate::proofs::PutLemmas::value_views))]
    fn print(&self, alloc: Global) -> Result<Value, Memory> {
        let mut table = Table::new(alloc);
        put(
            alloc,
            &mut table,
            Key::Path,
            name(alloc, CANCEL_PATH, &self.path)?,
        )?;
        put(alloc, &mut table, Key::Tick, tick_value(self))?;
        put(alloc, &mut table, Key::Role, word(alloc, self.role.word())?)?;
        put_some(
            alloc,
            &mut table,
            Key::To,
            optional_name(alloc, CANCEL_TO, &self.to)?,
        )?;
        Ok(Value::Table(table))
    }
}

/// The tick of a cancellation, as a value.
#[tactic(auto, using(crate::proofs::PrintLemmas::ticks))]
fn tick_value(cancel: &CancelKeys) -> Value
    ensures { view result ≡ integer (pos cancel.now.tick.0) }
{
    tick(cancel.tick.0)
}

/// The table of each entry, as an array.
pub(crate) fn tables<E: Printed>(alloc: Global, entries: &[E]) -> Result<Value, Memory>
    ensures printed { IfOk result (λ value. view value ≡ array (items_of (map E.printed entries.now))) }
    ensures lawful { OnOk result (AllByRecursion E.keeps entries.now) }
{
    let mut values = Vec::new(alloc);
    for entry in entries {
        let value = entry.print(alloc)?;
        values.push(value)?;
    }
    Ok(Value::Array(values))
}
