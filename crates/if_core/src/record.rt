use gw_base::PathNo;

/// What became of units of an interface path, those of the numbers from `from` to `to`.
#[derive(Clone, Copy, Debug, PartialEq, Eq)]
pub struct IfRecord {
    pub path: PathNo,
    pub from: u64,
    pub to: u64,
    pub kind: IfKind,
}

/// What became of a unit.
#[derive(Clone, Copy, Debug, PartialEq, Eq)]
pub enum IfKind {
    /// Its frame left.
    Sent,
    /// Its frame lay in its box at the run's end.
    Boxed,
    /// A full queue gave it up for a later unit.
    Flushed,
    /// A full queue didn't take it.
    Refused,
    /// It was in the queue at the run's end.
    Left,
}
