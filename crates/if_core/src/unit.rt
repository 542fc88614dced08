ghost use Rattle.std.specs.Prelude.{◌≡◌};

use arrayvec::ArrayVec;
use can_frame::{Frame, MAX_FD};
use std::marker::Model;

/// What a frame carries over an interface path: its kind and its data, without its identifier. Its number counts the
/// units that were offered to the path's queue before it.
///
/// Contracts see it as the record `Unit` of its number, its kind and its data bytes.
#[derive(Debug, Drop, PartialEq, Eq)]
pub struct IfUnit {
    number: u64,
    fd: bool,
    bytes: ArrayVec<u8, MAX_FD>,
}

impl Model for IfUnit {
    ghost use Rattle.if_core.specs.Unit.{UnitOf, IsLawful};

    ghost Value = { UnitOf };

    ghost view = { λ unit. record { number = unit.number; fd = unit.fd; bytes = unit.bytes.items } };

    ghost invariant = { λ unit. IsLawful (record { number = unit.number; fd = unit.fd; bytes = unit.bytes.items }) };

    ghost inverse = { λ unit. record { number = unit.number; fd = unit.fd; bytes = record { items = unit.bytes } } };
}

impl IfUnit {
    ghost use Rattle.if_core.specs.Unit.{IsLawful, unit_of};

    /// The unit of that number that the frame carries.
    pub fn new(number: u64, frame: &Frame) -> IfUnit
        ensures unit { result ≡ unit_of number frame.now }
    {
        let Ok(bytes) = ArrayVec::try_from(frame.bytes()) else {
            unreachable!();
        };
        IfUnit {
            number,
            fd: frame.fd(),
            bytes,
        }
    }

    /// The same unit again; it takes no memory.
    pub fn copy(&self) -> IfUnit
        ensures { result ≡ self.now }
    {
        let Ok(bytes) = ArrayVec::try_from(self.bytes.as_slice()) else {
            unreachable!();
        };
        IfUnit {
            number: self.number,
            fd: self.fd,
            bytes,
        }
    }

    /// How many units were offered to the path's queue before it.
    pub fn number(&self) -> u64
        ensures { result ≡ self.now.number }
    {
        self.number
    }

    /// Whether it came as an FD frame.
    pub fn fd(&self) -> bool
        ensures { result ≡ self.now.fd }
    {
        self.fd
    }

    /// The data bytes.
    pub fn bytes(&self) -> &[u8]
        ensures bytes { result.now ≡ self.now.bytes }
        ensures lawful { IsLawful self.now }
    {
        self.bytes.as_slice()
    }
}
