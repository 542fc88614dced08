ghost use Rattle.gw_law.specs.Laws.{PoolsEnd, PoolsReplay, TakesAreNamed};

/// The law of the pool, of every whole run of receivers and the hub that they take their buffers from; the function does
/// nothing.
///
/// The moves of the pool replay to its free set. Each session has a take of its own, of the smallest free buffer that fits
/// the cells of its start's bytes, and each overflow tells a free set in which none fits. Where all sessions are over, the
/// next move of each session's buffer is its free, and where each take is also a session's, the last free set has every
/// buffer.
pub fn pool_law()
    ensures law { PoolsReplay }
    ensures named { TakesAreNamed }
    ensures ends { PoolsEnd }
{}
