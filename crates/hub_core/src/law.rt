//! The laws of all hubs: functions that do nothing, whose contracts are what they are for.
ghost use Rattle.hub_core.specs.Core.{CoreLaw, LeadingLaw, LedLaw, QuietLaw};
ghost use Rattle.hub_core.specs.Parts.{AgainLaw, JoinLaw, MergingLaw};

/// After every list of steps, by any parties in any order, over any groups of buffers, paths and destinations, the views
/// of all ports are joint, and no cell is put over one that a destination which takes part hasn't read (this project's own).
#[tactic(auto, using(crate::proofs::EveryStep::core))]
pub fn core_law()
    ensures { CoreLaw }
{}

/// Every list of steps leads from a state to just one, so that `core_law` says something of each.
#[tactic(auto, using(crate::proofs::Led::leading))]
pub fn leading_law()
    ensures { LeadingLaw }
{}

/// Where no buffer waits for its free, the law says that the view of all ports is joint.
#[tactic(auto, using(crate::proofs::Quiet::law))]
pub fn quiet_law()
    ensures { QuietLaw }
{}

/// A hub that keeps of itself that it can't be that no list of steps leads to its state has a joint view, where no buffer
/// waits for its free.
pub fn led_law()
    ensures { LedLaw }
{}

/// Views that were divided among parts and are joined again are what one view would be that had all events, one part's
/// after another's.
#[tactic(auto, using(crate::proofs::Merging::merging))]
pub fn merging_law()
    ensures { MergingLaw }
{}

/// After the events of all parts each part's sessions and readings are as its own events left them.
#[tactic(auto, using(crate::proofs::Merging::again))]
pub fn again_law()
    ensures { AgainLaw }
{}

/// What parties did from nothing is joined to a view that has nothing of them as if it had been done there.
#[tactic(auto, using(crate::proofs::Merging::joining))]
pub fn join_law()
    ensures { JoinLaw }
{}
