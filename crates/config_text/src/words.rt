//! The words that stand for a choice in a configuration.
use gw_config::{Addressing, Mode, QueueKind, Role};

/// A choice with its word.
pub(crate) trait Word: Copy {
    ghost use Rattle.std.specs.Prelude.{◌≡◌, List, ℕ};

    ghost text: { Self → List ℕ };

    /// Its word.
    fn word(self) -> &'static str
        ensures { result.now ≡ text self };
}

impl Word for Mode {
    ghost use Rattle.config_text.specs.Printed.{mode_text};

    ghost text = { mode_text };

    fn word(self) -> &'static str {
        match self {
            Mode::Serial => "serial",
            Mode::Threads => "threads",
        }
    }
}

impl Word for Addressing {
    ghost use Rattle.config_text.specs.Printed.{addressing_text};

    ghost text = { addressing_text };

    fn word(self) -> &'static str {
        match self {
            Addressing::Normal => "normal",
            Addressing::Extended => "extended",
            Addressing::Mixed => "mixed",
        }
    }
}

impl Word for QueueKind {
    ghost use Rattle.config_text.specs.Printed.{queue_text};

    ghost text = { queue_text };

    fn word(self) -> &'static str {
        match self {
            QueueKind::Fifo => "fifo",
            QueueKind::Last => "last",
            QueueKind::Keep => "keep",
        }
    }
}

impl Word for Role {
    ghost use Rattle.config_text.specs.Printed.{role_text};

    ghost text = { role_text };

    fn word(self) -> &'static str {
        match self {
            Role::Receive => "receive",
            Role::Send => "send",
        }
    }
}
