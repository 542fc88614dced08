//! What holds of the outputs of a run.
ghost use Rattle.std.specs.Prelude.{ℕ, Bool, List};
ghost use Rattle.std.specs.List.{AllByRecursion};
ghost use Rattle.candump_line.specs.Line.{IsInterface};
ghost use Rattle.tp_unit.specs.Box.{Written};
ghost use Rattle.gw_run.specs.Output.{IsLogOf, IsReadable};

/// The output of a bus's frames with stamps below 2^32 seconds is a log of just these frames, by the definition that the logs of a run
/// are read by. A bus without CAN FD has classic frames alone.
pub fn output_law()
    ensures { (start period : ℕ) (interface : List ℕ) (fd : Bool) (written : List Written) → IsInterface interface → AllByRecursion (IsReadable start period fd) written
        → IsLogOf start period interface fd written }
{}
