//! Cells of a payload put into a session, and published.
ghost use Rattle.std.specs.Prelude.{◌≡◌, ◌+◌, ◌≤◌, length, All};
ghost use Rattle.tp_receiver.specs.Port.{Kept, carried};
ghost use Rattle.tp_receiver.specs.Table.{puts};
ghost use Rattle.gw_base.specs.Cell.{IsCell, counted};
ghost use Rattle.hub_core.specs.Stays.{IsSamePort};
ghost use Rattle.hub_core.specs.Tokens.{Writes, SameOpened};
ghost use Rattle.hub_core.specs.View.{grows};

use hub_core::{Opened, Port};

/// Puts the cells, and publishes their bytes.
pub(crate) fn put_all<P: Port>(port: &mut P, writer: &mut Opened, cells: &[u64])
    requires writes { Writes (P.state port.old).view writer.old }
    requires told { writer.old.told ≡ writer.old.given }
    requires room { length cells.now ≤ writer.old.room }
    requires spare { length cells.now ≤ (P.state port.old).means.spare }
    requires cells { All IsCell cells.now }
    requires len { writer.old.given + counted cells.now ≤ writer.old.len }
    ensures view { (P.state port.new).view ≡ grows (puts writer.old.path.0 writer.old.seq cells.now) (P.state port.old).view }
    ensures fields { SameOpened writer.new (carried cells.now writer.old) }
    ensures writes { Writes (P.state port.new).view writer.new }
    ensures number { length ((P.state port.new).view.sessions writer.old.path.0) ≡ length ((P.state port.old).view.sessions writer.old.path.0) }
    ensures kept { Kept writer.old.path.0 0 (length cells.now) (P.state port.old).view (P.state port.new).view (P.state port.old).means (P.state port.new).means }
    ensures home { IsSamePort (P.state port.old) (P.state port.new) }
{
    let before = writer.given;
    for cell in cells {
        port.put(writer, *cell);
    }
    port.publish(writer, writer.given - before);
}
