//! What decides arbitration between frames: the bits of their identifiers.
ghost use Rattle.std.specs.Prelude.{◌↔◌, ◌<◌};
ghost use Rattle.can_frame.specs.Priority.{ComesBefore, priority_of};
ghost use Rattle.can_frame.specs.declared.id.CanId.{CanId};

/// What decides arbitration between frames, in the order in which it is sent: the lowest wins (ISO 11898-1, arbitration).
#[derive(Clone, Copy, Debug, PartialEq, Eq, PartialOrd, Ord)]
pub struct Priority {
    /// The identifier's first 11 bits.
    pub base: u16,
    /// Whether the identifier is an extended one.
    pub ext: bool,
    /// The other 18 bits of an extended identifier; 0 for a standard one.
    pub rest: u32,
}

/// A law on priorities; the function does nothing.
///
/// Of two identifiers the one with the lower first 11 bits comes first, of equal ones a standard one before an extended
/// one, of two extended ones the one with the lower other 18 bits.
pub fn priority_law()
    ensures { (first second : CanId) → (priority_of first < priority_of second) ↔ ComesBefore first second }
{}
