//! A seat beside its hub.
ghost use Rattle.hub_shared.specs.Seats.{IsSeatOf};

use crate::{HubSeat, SharedHub};

/// A seat beside its hub, as a port to the hub's sessions. The hub is lent, so that ports of several seats may lie in
/// several threads.
pub struct SharedPort<'a> {
    pub(crate) hub: &'a SharedHub,
    pub(crate) seat: HubSeat,
    ghost of: { IsSeatOf hub.now seat },
}
