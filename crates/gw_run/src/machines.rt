//! How the receiver and the sender of a run are configured.
ghost use Rattle.std.specs.Prelude.{◌≤◌};
ghost use Rattle.gw_run.specs.Machines.{AreMachines};

use crate::address::Address;
use tp_receiver::RxSet;
use tp_sender::TxSet;
use tp_unit::Shape;

/// How the receiver of the source channel and the sender of the destination are configured.
#[derive(Clone, Copy, Debug, PartialEq, Eq)]
pub(crate) struct Machines {
    pub(crate) rx: RxSet,
    /// The shape of the source channel's flow controls.
    pub(crate) shape: Shape,
    pub(crate) tx: TxSet,
    /// Which frames the source channel receives.
    pub(crate) source: Address,
    /// Which frames the destination's channel receives; the flow controls among them go to the sender.
    pub(crate) destination: Address,
    /// The most frames that the source's bus sends in a tick, and the destination's.
    pub(crate) source_budget: u8,
    pub(crate) destination_budget: u8,
    /// The cells of the one buffer of the pool.
    pub(crate) cells: u32,
    ghost are: { AreMachines rx shape tx source },
    ghost source_sends: { 1 ≤ source_budget },
    ghost destination_sends: { 1 ≤ destination_budget },
    ghost some: { 1 ≤ cells },
    ghost most: { cells ≤ 8192 },
}
