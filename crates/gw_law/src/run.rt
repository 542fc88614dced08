ghost use Rattle.gw_law.specs.Laws.{RunsAreLawful};

/// The laws of a run, whatever its buses, channels, paths, destinations and windows; the function does nothing.
///
/// What is told of every run keeps all the laws: the configuration, the logs that came and left, and the report.
pub fn run_law()
    ensures { RunsAreLawful }
{}
