ghost use Rattle.std.specs.Prelude.{◌≡◌, ◌+◌, ◌<◌, ◌||◌, true, length};

use crate::IfUnit;
use gw_base::PathNo;

/// The answer to an offer. A unit's position counts the units that were queued before it.
#[derive(Clone, Copy, Debug, PartialEq, Eq)]
pub enum Offer {
    /// The unit is queued.
    Queued,
    /// The unit is queued, and those at the positions from `from` to `to` were flushed, since the queue was full.
    Flushed { from: u64, to: u64 },
    /// The unit isn't queued: of the `count` units queued so far the one at `position` was the next to be taken, and so
    /// the queue was full.
    Refused { count: u64, position: u64 },
}

/// Access to the queues of interface paths, for the ends that the port acts for (this project's own).
///
/// The other end of a queue may have gone on since a look at it. But no look is older than the port's floors, which
/// only rise; and where the port is the whole of a queue, its answers are exact.
pub trait Lanes {
    ghost use Rattle.if_core.specs.Calls.{View, Means, Floors};

    ghost view: { Self → View };

    ghost means: { Self → Means };

    ghost floors: { Self → Floors };

    ghost use Rattle.if_core.specs.Calls.{Answers, grow, Offered, took_of, Rise, IsFresh, IsExact, IsLane};
    ghost use Rattle.if_core.specs.Lane.{queued};

    /// Offers a unit to the path's queue. A full queue refuses it where it keeps what it has, and else flushes all that
    /// it holds. The unit's number is that of the units offered to the path before, refused ones too.
    fn offer(&mut self, path: PathNo, unit: &IfUnit) -> Offer
        requires may { (means self.old).offers path.0 ≡ true }
        requires room { length ((view self.old) path.0).offers < 1000000 }
        requires number { unit.now.number ≡ length ((view self.old) path.0).offers }
        ensures view { view self.new ≡ grow (Offered path.0 unit.now result) (view self.old) }
        ensures answers { Answers (means self.old) (view self.old) path.0 result }
        ensures means { means self.new ≡ means self.old }
        ensures fresh { IsFresh (means self.old) (view self.old) (floors self.old) (floors self.new)
            (Offered path.0 unit.now result) }
        ensures exact { (means self.old).whole path.0 ≡ true →
            IsExact (means self.old) (view self.old) (floors self.old) (floors self.new)
            (Offered path.0 unit.now result) }
        ensures rise { Rise (floors self.old) (floors self.new) };

    /// Takes the path's next unit, with its position. `None` where the queue is empty, and also where another end
    /// flushed what this call had found.
    fn take(&mut self, path: PathNo) -> Option<(u64, IfUnit)>
        requires { (means self.old).takes path.0 ≡ true }
        ensures view { view self.new ≡ grow (took_of path.0 result) (view self.old) }
        ensures means { means self.new ≡ means self.old }
        ensures fresh { IsFresh (means self.old) (view self.old) (floors self.old) (floors self.new)
            (took_of path.0 result) }
        ensures exact { (means self.old).whole path.0 ≡ true →
            IsExact (means self.old) (view self.old) (floors self.old) (floors self.new) (took_of path.0 result) }
        ensures rise { Rise (floors self.old) (floors self.new) };

    /// How many units the path's queue holds, by looks of this call. Where the port is the whole of the queue, what was
    /// done with it keeps the law of both ends.
    fn held(&mut self, path: PathNo) -> u64
        requires { ((means self.old).offers path.0 || (means self.old).takes path.0) ≡ true }
        ensures view { view self.new ≡ view self.old }
        ensures means { means self.new ≡ means self.old }
        ensures exact { (means self.old).whole path.0 ≡ true →
            (floors self.new).position path.0 + result ≡ length (queued ((view self.new) path.0).offers) }
        ensures law { (means self.old).whole path.0 ≡ true →
            IsLane (means self.new) (floors self.new) (view self.new) path.0 }
        ensures rise { Rise (floors self.old) (floors self.new) };
}
