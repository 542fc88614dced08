//! What a step of a receiver comes to: records, moves, and what becomes of its box.
ghost use Rattle.std.specs.Prelude.{◌≡◌, ◌+◌, ◌≤◌, [], ◌∷◌, ◌++◌, length, map};
ghost use Rattle.tp_receiver.specs.Table.{later_act};
ghost use Rattle.hub_core.specs.Moves.{move_of};
ghost use Rattle.hub_core.specs.Calls.{freed_by};
ghost use Rattle.tp_unit.specs.Unit.{box_meaning_of, Keeps};

use arrayvec::ArrayVec;
use hub_core::{Left, Move, SessionRecord};
use tp_unit::BoxAct;

/// The most records of one step: one of a reception that is restarted, and one of the start that restarts it.
const MOST_RECORDS: usize = 2;

/// The most moves of one step: a restarted reception's free, the start's take, and its free.
const MOST_MOVES: usize = 3;

/// What a step of a receiver comes to.
#[derive(Debug, Drop)]
pub struct RxActs {
    /// What is done with the box of its flow controls.
    pub fc: BoxAct,
    /// The records of the receptions that ended, in order.
    pub records: ArrayVec<SessionRecord, MOST_RECORDS>,
    /// The moves of the pool that its calls made, in order.
    pub moves: ArrayVec<Move, MOST_MOVES>,
}

/// The move of a writer that was the last to leave.
fn freed(left: Left) -> ArrayVec<Move, MOST_MOVES>
    ensures { result.items ≡ map move_of (freed_by left) }
{
    let mut moves = ArrayVec::new();
    if let Left::Last { change, buf } = left {
        moves.push(Move {
            change,
            took: false,
            buf,
        });
    }
    moves
}

impl RxActs {
    /// Nothing is done.
    pub(crate) fn nothing() -> RxActs
        ensures fc { box_meaning_of result.fc ≡ Keeps }
        ensures records { result.records.items ≡ [] }
        ensures moves { result.moves.items ≡ [] }
    {
        RxActs {
            fc: BoxAct::Keep,
            records: ArrayVec::new(),
            moves: ArrayVec::new(),
        }
    }

    /// What is done with the box alone.
    pub(crate) fn boxed(fc: BoxAct) -> RxActs
        ensures fc { box_meaning_of result.fc ≡ box_meaning_of fc }
        ensures records { result.records.items ≡ [] }
        ensures moves { result.moves.items ≡ [] }
    {
        RxActs {
            fc,
            records: ArrayVec::new(),
            moves: ArrayVec::new(),
        }
    }

    /// A reception's record.
    pub(crate) fn told(fc: BoxAct, session: SessionRecord) -> RxActs
        ensures fc { box_meaning_of result.fc ≡ box_meaning_of fc }
        ensures records { result.records.items ≡ session ∷ [] }
        ensures moves { result.moves.items ≡ [] }
    {
        let mut records = ArrayVec::new();
        records.push(session);
        RxActs {
            fc,
            records,
            moves: ArrayVec::new(),
        }
    }

    /// A reception's record, and its writer's leaving.
    pub(crate) fn left(fc: BoxAct, session: SessionRecord, left: Left) -> RxActs
        ensures fc { box_meaning_of result.fc ≡ box_meaning_of fc }
        ensures records { result.records.items ≡ session ∷ [] }
        ensures moves { result.moves.items ≡ map move_of (freed_by left) }
    {
        let mut records = ArrayVec::new();
        records.push(session);
        RxActs {
            fc,
            records,
            moves: freed(left),
        }
    }

    /// The same, after a take.
    pub(crate) fn after(self, take: Move) -> RxActs
        requires { length self.moves.items ≤ 2 }
        ensures fc { box_meaning_of result.fc ≡ box_meaning_of self.fc }
        ensures records { result.records.items ≡ self.records.items }
        ensures moves { result.moves.items ≡ take ∷ self.moves.items }
    {
        let RxActs {
            fc,
            records,
            moves: later,
        } = self;
        let mut moves = ArrayVec::new();
        moves.push(take);
        let Ok(()) = moves.try_extend_from_slice(later.as_slice()) else {
            unreachable!();
        };
        RxActs { fc, records, moves }
    }

    /// Both, one after the other: what is done with the box later is what is done.
    pub(crate) fn then(self, later: RxActs) -> RxActs
        requires records { length self.records.items + length later.records.items ≤ 2 }
        requires moves { length self.moves.items + length later.moves.items ≤ 3 }
        ensures fc { box_meaning_of result.fc ≡ later_act (box_meaning_of self.fc) (box_meaning_of later.fc) }
        ensures records { result.records.items ≡ self.records.items ++ later.records.items }
        ensures moves { result.moves.items ≡ self.moves.items ++ later.moves.items }
    {
        let RxActs {
            fc: earlier,
            mut records,
            mut moves,
        } = self;
        let Ok(()) = records.try_extend_from_slice(later.records.as_slice()) else {
            unreachable!();
        };
        let Ok(()) = moves.try_extend_from_slice(later.moves.as_slice()) else {
            unreachable!();
        };
        let fc = match later.fc {
            BoxAct::Keep => earlier,
            BoxAct::Offer(unit) => BoxAct::Offer(unit),
            BoxAct::Revoke => BoxAct::Revoke,
        };
        RxActs { fc, records, moves }
    }
}
