//! Which buffer serves a need.
ghost use Rattle.std.specs.Prelude.{◌≡◌, ◌≤◌, ◌<◌, ◌↔◌, ℕ, Some, true, length};
ghost use Rattle.gw_base.specs.Fit.{IsFit, Fits};
ghost use Rattle.pool_words.specs.Pools.{is_smaller};

/// Whether the buffer is free and has the cells that are needed.
fn fits(sizes: &[u32], free: u32, need: u64, buf: usize) -> bool
    requires few { length sizes.now ≤ 32 }
    requires there { buf < length sizes.now }
    ensures { (result ≡ true) ↔ Fits sizes.now free need buf }
{
    free >> buf & 1 == 1 && need <= u64::from(sizes[buf])
}

/// Whether the buffer has fewer cells than the one found before, where one was.
fn is_less(sizes: &[u32], buf: usize, found: Option<usize>) -> bool
    requires there { buf < length sizes.now }
    requires found { (at : ℕ) → found ≡ Some at → at < length sizes.now }
    ensures { result ≡ is_smaller sizes.now buf found }
{
    match found {
        Some(found) => sizes[buf] < sizes[found],
        None => true,
    }
}

/// The smallest free buffer that has `need` cells, of equals the lowest number. `free` has bit i for buffer i.
pub fn smallest_fitting(sizes: &[u32], free: u32, need: u64) -> Option<usize>
    requires { length sizes.now ≤ 32 }
    ensures { IsFit sizes.now free need result }
{
    let mut best: Option<usize> = None;
    for buf in 0..sizes.len() {
        if fits(sizes, free, need, buf) && is_less(sizes, buf, best) {
            best = Some(buf);
        }
    }
    best
}
