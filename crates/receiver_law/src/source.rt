//! The law of a source channel's records.
ghost use Rattle.receiver_law.specs.Laws.{RunsTellSources, StepsStoreWhatIsTold, StepsTellSources};

/// A law on the receptions of a source channel; the function does nothing.
///
/// A receiver that is idle after any steps has told one record for each start that came, as `SourceLaw` says of the
/// frames and the records, and has put into the sessions just the bytes that the records tell. So it is after each run.
pub fn source_law()
    ensures law { StepsTellSources }
    ensures stored { StepsStoreWhatIsTold }
    ensures run { RunsTellSources }
{}
