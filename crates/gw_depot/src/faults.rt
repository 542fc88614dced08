ghost use Rattle.std.specs.Prelude.{◌≡◌, ◌≤◌};
ghost use Rattle.gw_depot.specs.Fault.{no_faults, with_fault};
ghost use Rattle.gw_depot.specs.Files.{IsName};

use crate::outside::{CallKind, Failed};
use arrayvec::ArrayVec;
use std::marker::Model;

/// The most bytes of a file's name.
pub(crate) const MOST_NAME_BYTES: usize = 64;

/// How often a depot has failed, and the kind and the name of its last failed call.
#[derive(Debug, Drop)]
pub struct Faults {
    count: u64,
    last: Option<(CallKind, ArrayVec<u8, MOST_NAME_BYTES>)>,
}

impl Model for Faults {
    ghost use Rattle.std.specs.Prelude.{option_map};
    ghost use Rattle.gw_depot.specs.Fault.{Faults};

    ghost Value = { Faults };

    ghost view = { λ a. record { count = a.count; blame = option_map (λ call. (call.0, call.1.items)) a.last } };
}

impl Faults {
    /// No fault yet.
    pub fn new() -> Faults
        ensures { result ≡ no_faults }
    {
        Faults {
            count: 0,
            last: None,
        }
    }

    /// Counts a fault and blames it on the call.
    pub fn count(&mut self, kind: CallKind, name: &str) -> Failed
        requires { IsName name.now }
        ensures fault { self.new ≡ with_fault self.old kind name.now }
        ensures later { self.old.count ≤ self.new.count }
    {
        let Ok(name) = ArrayVec::try_from(name.as_bytes()) else {
            unreachable!();
        };
        self.count = self.count.saturating_add(1);
        self.last = Some((kind, name));
        Failed
    }
}
