//! The words that stand for a choice, and identifiers in hex digits.
ghost use Rattle.std.specs.Prelude.{◌≡◌, ◌≤◌, true, length, IfSome};
ghost use Rattle.can_frame.specs.Id.{id_fits};
ghost use Rattle.gw_config.specs.Hex.{hex_value};
ghost use Rattle.gw_config.specs.Words.{id_of_digits};

use can_frame::CanId;

/// How the workers run.
#[derive(Clone, Copy, Debug, PartialEq, Eq)]
pub enum Mode {
    /// One after another, in bus order.
    Serial,
    /// At once, each in its thread.
    Threads,
}

/// How frames name a channel beside their identifier (ISO 15765-2, addressing formats).
#[derive(Clone, Copy, Debug, PartialEq, Eq)]
pub enum Addressing {
    /// Not at all.
    Normal,
    /// By an address byte for the target address.
    Extended,
    /// By an address byte for the address extension.
    Mixed,
}

/// What an interface path's queue keeps.
#[derive(Clone, Copy, Debug, PartialEq, Eq)]
pub enum QueueKind {
    /// As many units as its depth; a full queue gives way to a new unit.
    Fifo,
    /// The last unit alone.
    Last,
    /// As many units as its depth; a full queue refuses a new unit.
    Keep,
}

/// The side of a path that a cancellation ends.
#[derive(Clone, Copy, Debug, PartialEq, Eq)]
pub enum Role {
    /// The reception from the source.
    Receive,
    /// The sending to one destination.
    Send,
}

/// What a key's text stands for.
pub(crate) trait Word: Copy {
    ghost use Rattle.std.specs.Prelude.{◌≡◌, List, ℕ, Bool, true, Option, IfSome};

    ghost of_word: { List ℕ → Option Self };

    ghost can_be: { Self → Bool } = { λ _. true };

    /// What the word stands for, `None` where it is no such word.
    fn from_word(word: &str) -> Option<Self>
        ensures value { result ≡ of_word word.now }
        ensures lawful { IfSome result (λ choice. can_be choice ≡ true) };
}

impl Word for Mode {
    ghost use Rattle.gw_config.specs.Words.{mode_of};

    ghost of_word = { mode_of };

    fn from_word(word: &str) -> Option<Mode> {
        match word {
            "serial" => Some(Mode::Serial),
            "threads" => Some(Mode::Threads),
            _ => None,
        }
    }
}

impl Word for Addressing {
    ghost use Rattle.gw_config.specs.Words.{addressing_of};

    ghost of_word = { addressing_of };

    fn from_word(word: &str) -> Option<Addressing> {
        match word {
            "normal" => Some(Addressing::Normal),
            "extended" => Some(Addressing::Extended),
            "mixed" => Some(Addressing::Mixed),
            _ => None,
        }
    }
}

impl Word for QueueKind {
    ghost use Rattle.gw_config.specs.Words.{queue_of};

    ghost of_word = { queue_of };

    fn from_word(word: &str) -> Option<QueueKind> {
        match word {
            "fifo" => Some(QueueKind::Fifo),
            "last" => Some(QueueKind::Last),
            "keep" => Some(QueueKind::Keep),
            _ => None,
        }
    }
}

impl Word for Role {
    ghost use Rattle.gw_config.specs.Words.{role_of};

    ghost of_word = { role_of };

    fn from_word(word: &str) -> Option<Role> {
        match word {
            "receive" => Some(Role::Receive),
            "send" => Some(Role::Send),
            _ => None,
        }
    }
}

/// The digits of an identifier of 11 bits.
const STD_DIGITS: usize = 3;

/// The digits of an identifier of 29 bits.
const EXT_DIGITS: usize = 8;

/// The greatest identifier of 11 bits.
const MAX_STD: u32 = 0x7FF;

/// The greatest identifier of 29 bits.
const MAX_EXT: u32 = 0x1FFF_FFFF;

impl Word for CanId {
    ghost use Rattle.gw_config.specs.Words.{id_of};
    ghost use Rattle.can_frame.specs.Id.{id_fits};

    ghost of_word = { id_of };

    ghost can_be = { id_fits };

    fn from_word(word: &str) -> Option<CanId> {
        if word.len() != STD_DIGITS && word.len() != EXT_DIGITS {
            return None;
        }
        id_of_digits(word.len(), hex_value(word.as_bytes())?)
    }
}

/// The identifier of this value, where it has so many digits.
fn id_of_digits(digits: usize, value: u32) -> Option<CanId>
    ensures value { result ≡ id_of_digits digits value }
    ensures lawful { IfSome result (λ id. id_fits id ≡ true) }
{
    if digits == STD_DIGITS && value <= MAX_STD {
        return Some(CanId::Std(value as u16));
    }
    if digits == EXT_DIGITS && value <= MAX_EXT {
        return Some(CanId::Ext(value));
    }
    None
}

/// The number that up to 8 hex digits of either case spell.
fn hex_value(digits: &[u8]) -> Option<u32>
    requires { length digits.now ≤ 8 }
    ensures { result ≡ hex_value digits.now }
{
    let mut value = 0;
    for digit in digits {
        value = value * 16 + char::from(*digit).to_digit(16)?;
    }
    Some(value)
}
