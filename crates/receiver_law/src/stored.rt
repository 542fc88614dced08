//! The law of what a receiver puts into its sessions.
ghost use Rattle.receiver_law.specs.Laws.{SessionsHoldWhatIsPut};

/// A law on the sessions of a source channel's path; the function does nothing.
///
/// After any steps of a receiver, whose calls alone are calls of its path's writer, each session of the path has just
/// the cells that were put into it.
pub fn stored_law()
    ensures { SessionsHoldWhatIsPut }
{}
