//! The lines of a report as they are gathered.
ghost use Rattle.std.specs.Prelude.{◌≡◌, OnOk};
ghost use Rattle.session_report.specs.Reading.{added, no_parts};

use crate::line::Line;
use crate::report::{
    DestLines, GroupMoveLines, GroupPoolLines, IfLines, MoveLines, PoolLine, SessionLines,
};
use gw_base::{ListOf, Memory};
use std::alloc::Global;

/// The lines of a report that were read so far, by their kinds.
#[derive(Debug, Drop)]
pub(crate) struct Parts {
    pub(crate) sessions: SessionLines,
    pub(crate) dests: DestLines,
    pub(crate) ifs: IfLines,
    /// The moves and the pool of the first group.
    pub(crate) moves: MoveLines,
    pub(crate) pool: Option<PoolLine>,
    /// The moves and the pools of further groups.
    pub(crate) other_moves: GroupMoveLines,
    pub(crate) other_pools: GroupPoolLines,
}

impl Parts {
    /// No lines.
    pub(crate) fn new(alloc: Global) -> Parts
        ensures { result ≡ no_parts }
    {
        Parts {
            sessions: ListOf::new(alloc),
            dests: ListOf::new(alloc),
            ifs: ListOf::new(alloc),
            moves: ListOf::new(alloc),
            pool: None,
            other_moves: ListOf::new(alloc),
            other_pools: ListOf::new(alloc),
        }
    }

    /// Adds the line to those of its kind.
    pub(crate) fn add(&mut self, line: Line) -> Result<(), Memory>
        ensures { OnOk result (self.new ≡ added self.old line) }
    {
        match line {
            Line::Session(record) => self.sessions.push(record),
            Line::Dest(record) => self.dests.push(record),
            Line::Interface(record) => self.ifs.push(record),
            Line::Move(moved) => {
                if moved.group == 0 {
                    self.moves.push(moved.made)
                } else {
                    self.other_moves.push(moved)
                }
            }
            Line::Pool(pool) => {
                if pool.group == 0 {
                    self.pool = Some(pool.pool);
                    Ok(())
                } else {
                    self.other_pools.push(pool)
                }
            }
        }
    }
}
