//! The laws of needs and grants, as contracts of functions that do nothing.
ghost use Rattle.flow_plan.specs.Laws.{GrantedLaw, PayloadsLaw, ProgressLaw};

/// The payloads of a message's consecutive frames have as many cells as the formula says; the function does nothing.
pub fn payloads_law()
    ensures { PayloadsLaw }
{}

/// Each granted frame has room, whatever the block size, and where a frame has room none is asked to wait; the function does
/// nothing.
pub fn granted_law()
    ensures { GrantedLaw }
{}

/// A receiver that waits for room in a buffer that fits has reached the threshold, so that the message's destination may send
/// and read, and room comes; the function does nothing.
pub fn progress_law()
    ensures { ProgressLaw }
{}
