/// The number of values of half a byte.
pub(crate) const NIBBLE: u8 = 16;

/// The number of values of a byte.
pub(crate) const BYTE: u32 = 256;

/// The most bytes of a classic frame; in a longer one a single frame has its length in a byte of its own.
pub(crate) const MAX_CLASSIC: usize = 8;

/// The most bytes of an FD frame.
pub(crate) const MAX_FD: usize = 64;

/// The greatest length, in bytes, that a first frame states in 12 bits.
pub(crate) const MAX_SHORT_LENGTH: u32 = 4095;

/// The upper nibble of a single frame's first byte after the address.
pub(crate) const SINGLE_FRAME: u8 = 0;

/// The upper nibble of a first frame's first byte after the address.
pub(crate) const FIRST_FRAME: u8 = 1;

/// The upper nibble of a consecutive frame's first byte after the address.
pub(crate) const CONSECUTIVE_FRAME: u8 = 2;

/// The upper nibble of a flow control's first byte after the address.
pub(crate) const FLOW_CONTROL: u8 = 3;

/// The bytes before the message in a single frame whose length is a nibble, without the address.
pub(crate) const SHORT_SINGLE_PCI: usize = 1;

/// The bytes before the message in a single frame whose length is a byte, without the address.
pub(crate) const LONG_SINGLE_PCI: usize = 2;

/// The bytes before the message in a first frame whose length has 12 bits, without the address.
pub(crate) const SHORT_FIRST_PCI: usize = 2;

/// The bytes before the message in a first frame whose length has 32 bits, without the address.
pub(crate) const LONG_FIRST_PCI: usize = 6;

/// The bytes before the message in a consecutive frame, without the address.
pub(crate) const CONSECUTIVE_PCI: usize = 1;

/// The bytes of a flow control, without the address.
pub(crate) const FLOW_CONTROL_SIZE: usize = 3;
