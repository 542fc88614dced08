//! The places of the words, from the cells of each buffer.
ghost use Rattle.std.specs.Prelude.{◌≡◌, ◌≤◌, All, length};
ghost use Rattle.hub_layout.specs.Places.{words_in};
ghost use Rattle.hub_layout.specs.Pool.{IsPool, first_words};

use arrayvec::ArrayVec;
use gw_base::{BufNo, DestNo, GroupNo};
use std::marker::Model;

/// The most buffers of a hub: four groups of 32.
const MOST_BUFFERS: usize = 128;

/// The words of a buffer beside its cells: its card, the length of its session, the count of what is published, and the
/// positions of eight destinations.
const WORDS_BESIDE: u32 = 11;

/// The places of a buffer's length, count and first position, and of its first cell, from its card on.
const LENGTH: usize = 1;

const COUNT: usize = 2;

const POSITIONS: usize = 3;

const CELLS: usize = 11;

/// The first word of each buffer, where the groups' pool words come first, and the number of all words.
fn first_words(groups: u32, cells: &[u32]) -> (ArrayVec<u32, MOST_BUFFERS>, u32)
    requires groups { groups ≤ 4 }
    requires few { length cells.now ≤ 128 }
    requires cells { All (λ size. size ≤ 8192) cells.now }
    ensures firsts { result.0.items ≡ first_words groups cells.now (length cells.now) }
    ensures words { result.1 ≡ words_in groups cells.now }
{
    let mut firsts = ArrayVec::new();
    let mut next = groups;
    for buf in 0..cells.len() {
        firsts.push(next);
        next += WORDS_BESIDE + cells[buf];
    }
    (firsts, next)
}

/// Where each word of a hub lies: the pool word of each group first, and then buffer by buffer its card, the length of its
/// session, its count, eight positions, and its cells. It takes no memory.
#[derive(Debug, Drop)]
pub struct Layout {
    groups: u8,
    words: u32,
    firsts: ArrayVec<u32, MOST_BUFFERS>,
    cells: ArrayVec<u32, MOST_BUFFERS>,
}

impl Model for Layout {
    ghost use Rattle.hub_layout.specs.Pool.{IsLaid, Pool};

    ghost Value = { Pool };

    ghost view = { λ layout. record { groups = layout.groups; cells = layout.cells.items } };

    ghost invariant = { λ layout. IsLaid layout.groups layout.cells.items layout.firsts.items layout.words };
}

impl Layout {
    ghost use Rattle.std.specs.Prelude.{◌≡◌, ◌<◌, ◌≤◌, length};
    ghost use Rattle.hub_layout.specs.Places.{first_word};

    /// The first word of a buffer.
    fn first_word(&self, buf: BufNo) -> usize
        requires { buf.0 < length self.now.cells }
        ensures first { result ≡ first_word self.now.groups self.now.cells buf.0 }
        ensures few { result ≤ 1049988 }
    {
        self.firsts[usize::from(buf.0)] as usize
    }
}

impl Layout {
    ghost use Rattle.std.specs.Prelude.{◌≡◌, ◌<◌, Some, length, slice_get, ℕ};
    ghost use Rattle.hub_layout.specs.Places.{Pool as OfPool, Card, Length, Count, Position, Cell, place_at, words_in};

    /// The layout of a hub whose groups have `sizes` buffers each, which have `cells` cells each, numbered through the groups:
    /// 1 to 4 groups of 1 to 32 buffers of 1 to 8192 cells.
    pub fn of(cells: &[u32], sizes: &[u8]) -> Layout
        requires { IsPool cells.now sizes.now }
        ensures { result ≡ record { groups = length sizes.now; cells = cells.now } }
    {
        let Ok(held) = ArrayVec::try_from(cells) else {
            unreachable!();
        };
        let groups = sizes.len() as u8;
        let (firsts, words) = first_words(u32::from(groups), cells);
        Layout {
            groups,
            words,
            firsts,
            cells: held,
        }
    }

    /// The number of all words.
    pub fn words(&self) -> usize
        ensures { result ≡ words_in self.now.groups self.now.cells }
    {
        self.words as usize
    }

    /// The place of a group's pool word.
    pub fn pool(&self, group: GroupNo) -> usize
        requires { group.0 < self.now.groups }
        ensures { result ≡ place_at self.now.groups self.now.cells (OfPool group.0) }
    {
        usize::from(group.0)
    }

    /// The place of the card of a buffer.
    pub fn card(&self, buf: BufNo) -> usize
        requires { buf.0 < length self.now.cells }
        ensures { result ≡ place_at self.now.groups self.now.cells (Card buf.0) }
    {
        self.first_word(buf)
    }

    /// The place of the length, in bytes, of the session in a buffer.
    pub fn length(&self, buf: BufNo) -> usize
        requires { buf.0 < length self.now.cells }
        ensures { result ≡ place_at self.now.groups self.now.cells (Length buf.0) }
    {
        self.first_word(buf) + LENGTH
    }

    /// The place of the count of what is published of the session in a buffer.
    pub fn count(&self, buf: BufNo) -> usize
        requires { buf.0 < length self.now.cells }
        ensures { result ≡ place_at self.now.groups self.now.cells (Count buf.0) }
    {
        self.first_word(buf) + COUNT
    }

    /// The place of a destination's position in the session in a buffer.
    pub fn position(&self, buf: BufNo, dest: DestNo) -> usize
        requires buf { buf.0 < length self.now.cells }
        requires dest { dest.0 < 8 }
        ensures { result ≡ place_at self.now.groups self.now.cells (Position buf.0 dest.0) }
    {
        self.first_word(buf) + POSITIONS + usize::from(dest.0)
    }

    /// The place of the buffer's cell numbered `at`, from 0.
    pub fn cell(&self, buf: BufNo, at: u32) -> usize
        requires { (size : ℕ) × (slice_get self.now.cells buf.0 ≡ Some size) × (at < size) }
        ensures { result ≡ place_at self.now.groups self.now.cells (Cell buf.0 at) }
    {
        self.first_word(buf) + CELLS + at as usize
    }
}
