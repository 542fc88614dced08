use gw_base::BusNo;

/// A way for a test to hold the workers of a run.
///
/// There is one worker per bus, and a window is a run of consecutive ticks. Each worker calls `pass` once as its
/// window begins, before any work of it, and `done` once after the last work of it. Windows count from 0.
pub trait Gate {
    /// The bus's worker is about to begin the window.
    fn pass(&self, bus: BusNo, window: u64);

    /// The bus's worker has done the window's last work.
    fn done(&self, bus: BusNo, window: u64);
}

/// A gate that holds nobody.
#[derive(Debug, Drop)]
pub struct OpenGate;

impl Gate for OpenGate {
    fn pass(&self, _bus: BusNo, _window: u64) {}

    fn done(&self, _bus: BusNo, _window: u64) {}
}
