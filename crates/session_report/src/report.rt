use gw_base::ListOf;
use hub_core::{DestRecord, Move, SessionRecord};
use if_core::IfRecord;
use tick_clock::Clock;

/// The records of sessions, by channel and then by number.
pub type SessionLines = ListOf<SessionRecord>;

/// The records of destinations, by path, then by destination, then by the session's number.
pub type DestLines = ListOf<DestRecord>;

/// What became of the units of interface paths, by path and then by number; each run of one kind is one record.
pub type IfLines = ListOf<IfRecord>;

/// The moves of the first group's pool, by the number of their change.
pub type MoveLines = ListOf<Move>;

/// The moves of further groups, by group and then by the number of their change.
pub type GroupMoveLines = ListOf<GroupMove>;

/// The pools of further groups, by group.
pub type GroupPoolLines = ListOf<GroupPool>;

/// A move of the pool of a group of buffers.
#[derive(Clone, Copy, Debug, PartialEq, Eq)]
pub struct GroupMove {
    pub group: u8,
    pub made: Move,
}

/// A pool as the run ends.
#[derive(Clone, Copy, Debug, PartialEq, Eq)]
pub struct PoolLine {
    /// How many buffers it has.
    pub buffers: u32,
    /// How many changes there were: each take and each free is one.
    pub changes: u32,
    /// The free set: bit i is set where buffer i of the group is free.
    pub free: u32,
}

/// The pool of a group of buffers.
#[derive(Clone, Copy, Debug, PartialEq, Eq)]
pub struct GroupPool {
    pub group: u8,
    pub pool: PoolLine,
}

/// What a run reports. The lists stand in the order of their lines.
#[derive(Debug, Drop)]
pub struct Report {
    /// 1, or 2 where the report names groups or refused units.
    pub version: u8,
    /// The run's start in microseconds and its period.
    pub clock: Clock,
    pub sessions: SessionLines,
    pub dests: DestLines,
    pub ifs: IfLines,
    /// The moves and the pool of the first group.
    pub moves: MoveLines,
    pub pool: PoolLine,
    /// The moves and the pools of further groups; version 1 has none.
    pub other_moves: GroupMoveLines,
    pub other_pools: GroupPoolLines,
}
