ghost use Rattle.std.specs.Prelude.{◌≡◌, ◌<◌, ◌↔◌, true, false, length, None, IfSome};
ghost use Rattle.can_frame.specs.Frame.{IsLawful};
ghost use Rattle.can_frame.specs.Id.{id_fits};
ghost use Rattle.if_gateway.specs.Readdress.{readdressed};

use can_frame::{CanId, Frame};
use if_core::IfUnit;

/// The unit's data as a frame of that identifier, for a bus that takes FD frames or doesn't.
///
/// It is an FD frame where the unit came as one and the bus takes them, and then its data is sent at the higher bit
/// rate where `brs` says so. `None` where the bus takes no FD frames and the data is longer than the 8 bytes of a
/// classic frame (ISO 11898-1, data length code).
pub fn readdress(unit: &IfUnit, id: CanId, fd_bus: bool, brs: bool) -> Option<Frame>
    requires { id_fits id ≡ true }
    ensures frame { IfSome result (λ frame. frame ≡ readdressed unit.now id fd_bus brs) }
    ensures lawful { IfSome result IsLawful }
    ensures none { (result ≡ None) ↔ ((fd_bus ≡ false) × (8 < length unit.now.bytes)) }
{
    Frame::new(id, unit.fd() && fd_bus, brs, unit.bytes()).ok()
}
