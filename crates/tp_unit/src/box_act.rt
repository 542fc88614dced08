use crate::Unit;

/// What a step of a machine does with its box, which holds the one frame of it that waits to leave (this project's own).
#[derive(Debug, Drop)]
pub enum BoxAct {
    /// What lies in the box stays.
    Keep,
    /// The unit's frame is put into the box, in place of what lies there.
    Offer(Unit),
    /// What lies in the box is taken out and doesn't leave.
    Revoke,
}
