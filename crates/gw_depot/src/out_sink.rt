ghost use Rattle.std.specs.Prelude.{◌≡◌, [], false};

use crate::outside::{Failed, Sink};
use crate::piece::write_piece;
use std::io;
use std::marker::Model;

/// The program's standard output. It doesn't tell what was said. Contracts see the count of faults.
#[derive(Drop)]
pub struct OutSink<'a, R: Print> {
    rt: &'a R,
    faults: u64,
}

impl<'a, R: Print> Model for OutSink<'a, R> {
    ghost use Rattle.std.specs.Prelude.{ℕ};

    ghost Value = { ℕ };

    ghost view = { λ a. a.faults };
}

impl<'a, R: Print> OutSink<'a, R> {
    /// The standard output; nothing is said yet.
    pub fn new(rt: &'a R) -> OutSink<'a, R>
        ensures { result ≡ 0 }
    {
        OutSink { rt, faults: 0 }
    }
}

impl<R: Print> Sink for OutSink<'_, R> {
    ghost state = { λ sink. record { told = false; said = []; faults = sink } };

    fn put(&mut self, piece: &[u8]) -> Result<usize, Failed> {
        match write_piece(&mut io::writer(self.rt), piece) {
            Ok(count) => Ok(count),
            Err(_) => {
                self.faults = self.faults.saturating_add(1);
                Err(Failed)
            }
        }
    }
}
