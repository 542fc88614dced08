ghost use Rattle.std.specs.Prelude.{ℕ, Bool};
ghost use Rattle.if_core.specs.Lane.{Lane, IsQueue};
ghost use Rattle.if_core.specs.Fates.{AreFates};

/// A law on the units of a queue; the function does nothing.
///
/// Where what was done with a queue keeps the law of both ends, each unit offered has one fate: it was taken, flushed
/// or refused, or the queue still holds it. A unit that flushed another has at least `depth` units below it, and so has
/// a refused one of units that weren't refused. Units are taken in the order in which they were offered.
pub fn fates_law()
    ensures { (depth : ℕ) (keep : Bool) (position : ℕ) (lane : Lane) →
        IsQueue depth keep position lane → AreFates depth keep position lane }
{}
