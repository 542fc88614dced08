/// A frame's identifier: of 11 bits in the base format, of 29 bits in the extended one (ISO 11898-1, frame formats).
///
/// The number's range is not this type's: `Frame::new` tests it.
#[derive(Clone, Copy, Debug, PartialEq, Eq)]
pub enum CanId {
    /// At most 7FF in a frame.
    Std(u16),
    /// At most 1FFFFFFF in a frame.
    Ext(u32),
}

/// The greatest identifier of 11 bits.
pub const MAX_STD: u16 = 0x7FF;

/// The greatest identifier of 29 bits.
pub const MAX_EXT: u32 = 0x1FFF_FFFF;

impl CanId {
    ghost use Rattle.std.specs.Prelude.{◌≡◌};
    ghost use Rattle.can_frame.specs.Id.{id_fits};

    /// Whether the number is in the range of its format.
    pub fn is_in_range(self) -> bool
        ensures { result ≡ id_fits self }
    {
        match self {
            CanId::Std(number) => number <= MAX_STD,
            CanId::Ext(number) => number <= MAX_EXT,
        }
    }
}
