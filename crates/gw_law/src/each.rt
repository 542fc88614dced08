ghost use Rattle.gw_law.specs.Laws.{SessionsAreTold};

/// A law on the records of a destination; the function does nothing.
///
/// Where a destination has joined as many sessions as its path has, each session that the source's records opened has
/// one record of the destination, in order, and there are no others.
pub fn each_session_law()
    ensures { SessionsAreTold }
{}
