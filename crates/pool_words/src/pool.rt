//! The pool word of a group of buffers, and how it changes.
ghost use Rattle.std.specs.Prelude.{◌≡◌, ◌+◌, ◌-◌, ◌/◌, ◌%◌, ◌^◌, ◌<◌, ◌≤◌, IsBitSet};
ghost use Rattle.pool_words.specs.Pools.{full_pool, pool_of};

/// The bits of a word that are its free set.
const FREE: u64 = 0xffff_ffff;

/// The changes that were made of a group's free set, and the free set after them.
#[derive(Clone, Copy, Debug, PartialEq, Eq)]
pub struct Pool {
    pub changes: u32,
    /// Bit i for the group's i-th buffer.
    pub free: u32,
}

/// The pool of a group of so many buffers, all of them free and none changed yet.
pub fn full_pool(buffers: usize) -> Pool
    requires { buffers ≤ 32 }
    ensures { result ≡ full_pool buffers }
{
    Pool {
        changes: 0,
        free: ((1_u64 << buffers) - 1) as u32,
    }
}

/// The pool once the group's buffer is taken.
pub fn after_take(pool: Pool, place: usize) -> Pool
    requires changes { pool.changes < 2 ^ 32 - 1 }
    requires place { place < 32 }
    requires free { IsBitSet pool.free place }
    ensures changes { result.changes ≡ pool.changes + 1 }
    ensures free { result.free ≡ pool.free - 2 ^ place }
{
    Pool {
        changes: pool.changes + 1,
        free: pool.free - (1 << place),
    }
}

/// The pool once the group's buffer is freed.
pub fn after_free(pool: Pool, place: usize) -> Pool
    requires changes { pool.changes < 2 ^ 32 - 1 }
    requires place { place < 32 }
    requires taken { IsBitSet pool.free place → ⊥ }
    ensures changes { result.changes ≡ pool.changes + 1 }
    ensures free { result.free ≡ pool.free + 2 ^ place }
{
    Pool {
        changes: pool.changes + 1,
        free: pool.free + (1 << place),
    }
}

/// The pool as one word: the number of changes in its upper 32 bits, the free set in its lower 32.
pub fn word_of(pool: Pool) -> u64
    ensures { pool_of result ≡ pool }
{
    (u64::from(pool.changes) << 32) + u64::from(pool.free)
}

/// The pool that a word is.
pub fn pool_of(word: u64) -> Pool
    ensures { result ≡ pool_of word }
{
    Pool {
        changes: (word >> 32) as u32,
        free: (word & FREE) as u32,
    }
}
