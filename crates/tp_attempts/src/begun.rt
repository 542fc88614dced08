ghost use Rattle.std.specs.Prelude.{◌<◌};

use crate::Attempt;
use gw_base::{Bytes, Memory};
use std::alloc::Global;

/// The number of sequence numbers.
const NUMBERS: u8 = 16;

/// The attempt whose frames are coming.
#[derive(Drop)]
pub(crate) struct Begun {
    /// What is told of it.
    attempt: Attempt,
    /// The bytes of its start's frame.
    size: usize,
    /// The sequence number that is due.
    number: u8,
    /// Whether a wrong sequence number ended it.
    ended: bool,
    ghost in_range: { number < 16 },
}

impl Begun {
    ghost use Rattle.std.specs.Prelude.{◌≡◌, ◌≤◌, ◌<◌, ℕ, List, [], ◌∷◌, IfOk, OnOk, true, Some, None};
    ghost use Rattle.tp_unit.specs.Unit.{ConsecutiveFrame};
    ghost use Rattle.tp_attempts.specs.Following.{Keeps};
    ghost use Rattle.tp_attempts.specs.Walk.{Walk, due, is_open, look_at};

    /// An attempt at a message of `len` bytes that begins with these, in this place and in a frame of `size` bytes.
    pub(crate) fn new(
        alloc: Global,
        place: u32,
        size: usize,
        len: u32,
        bytes: &[u8],
    ) -> Result<Begun, Memory>
        ensures { IfOk result (λ kept. Keeps kept place (record { len = len; size = size; pieces = record { at = place; bytes = bytes.now } ∷ []; wrong = None })) }
    {
        let mut held = Bytes::new(alloc);
        held.append(bytes)?;
        Ok(Begun {
            attempt: Attempt {
                start: place,
                len,
                bytes: held,
                end: place,
            },
            size,
            number: 1,
            ended: false,
        })
    }

    /// What is told of it.
    pub(crate) fn into_attempt(self) -> Attempt
        ensures { result ≡ self.attempt }
    {
        let Begun {
            attempt,
            size: _,
            number: _,
            ended: _,
        } = self;
        attempt
    }

    /// Whether further frames may be counted: the message isn't whole, and no number was wrong.
    fn is_open(&self) -> bool
        ensures { (place : ℕ) (walk : Walk) → Keeps self.now place walk → result ≡ is_open walk }
    {
        self.attempt.bytes.items().len() < self.attempt.len as usize && !self.ended
    }

    /// The bytes that the next consecutive frame must carry.
    fn due(&self, a: u8) -> usize
        ensures { (place : ℕ) (walk : Walk) → Keeps self.now place walk → result ≡ due a walk }
    {
        let whole = self.size.saturating_sub(1).saturating_sub(usize::from(a));
        let left = (self.attempt.len as usize).saturating_sub(self.attempt.bytes.items().len());
        whole.min(left)
    }

    /// Looks at a consecutive frame of `size` bytes in this place.
    pub(crate) fn look(
        &mut self,
        a: u8,
        place: u32,
        size: usize,
        sn: u8,
        bytes: &[u8],
    ) -> Result<(), Memory>
        ensures { OnOk result ((start : ℕ) (walk : Walk) → Keeps self.old start walk → Keeps self.new start (look_at a walk place size (ConsecutiveFrame sn bytes.now))) }
    {
        let due = self.due(a);
        if !self.is_open() {
            return Ok(());
        }
        if size > self.size {
            return Ok(());
        }
        if bytes.len() < due {
            return Ok(());
        }
        if sn != self.number {
            self.ended = true;
            return Ok(());
        }
        self.attempt.bytes.append(&bytes[..due])?;
        self.number = (self.number + 1) % NUMBERS;
        self.attempt.end = place;
        Ok(())
    }
}
