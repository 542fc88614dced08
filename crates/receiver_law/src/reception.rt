//! The law of a source channel's flow controls, and of what brings its records about.
ghost use Rattle.receiver_law.specs.Laws.{RunsHaveReceptions};

/// A law on the receptions of a source channel; the function does nothing.
///
/// In each run of a receiver whose `n_ar`, `n_br` and `n_cr` are at least a tick, whatever its bus has places for, the flow
/// controls that leave are those of its receptions, one after another: each reception has those that it owes, and where one
/// that is owed doesn't leave, the bus is full. Each record comes of its cause, and no earlier one is passed over
/// (ISO 15765-2, flow control; N_Ar, N_Br, N_Cr and N_WFTmax).
pub fn reception_law()
    ensures { RunsHaveReceptions }
{}
