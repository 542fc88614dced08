ghost use Rattle.std.specs.Prelude.{◌≡◌, ◌≤◌, ◌==◌, ℕ, [], ◌++◌, ◌∷◌, length, reverse, not, take_while};
ghost use Rattle.tx_mailbox.specs.Boxes.{leaves_before, Pending};

use arrayvec::ArrayVec;
use can_frame::{Frame, priority};
use std::marker::Model;

/// Two boxes for each of 64 channels, one for each of 32 interface paths, and one for each of 16 destinations of a
/// further kind.
const BOXES: usize = 176;

/// The most frames that leave in a tick.
const MOST_FRAMES: usize = 64;

/// The boxes of a bus, each empty or with one frame that is to leave (this project's own).
///
/// Contracts see them as the list of what is pending, each frame with its box; the one that leaves first stands last.
#[derive(Drop)]
pub struct Boxes {
    pending: ArrayVec<(u8, Frame), BOXES>,
}

impl Model for Boxes {
    ghost use Rattle.std.specs.Prelude.{List};
    ghost use Rattle.tx_mailbox.specs.Boxes.{Pending, IsPending};

    ghost Value = { List Pending };

    ghost view = { λ boxes. boxes.pending.items };

    ghost invariant = { λ boxes. IsPending boxes.pending.items };
}

impl Boxes {
    ghost use Rattle.std.specs.Prelude.{◌≡◌, ◌≤◌, ◌<◌, ◌↔◌, ℕ, true, [], is_some, Some, None};
    ghost use Rattle.tx_mailbox.specs.Boxes.{content, with_content, IsEmitted};

    /// Empty boxes.
    pub fn new() -> Boxes
        ensures { result ≡ [] }
    {
        Boxes {
            pending: ArrayVec::new(),
        }
    }

    /// Puts the frame into the box; it replaces what lies there.
    pub fn offer(&mut self, number: u8, frame: Frame)
        requires { number < 176 }
        ensures { (other : ℕ) → content other self.new ≡ with_content number (Some frame) self.old other }
    {
        self.revoke(number);
        let entry = (number, frame);
        let at = place_of(self.pending.as_slice(), &entry);
        self.pending.insert(at, entry);
    }

    /// Empties the box; false exactly where it was empty.
    pub fn revoke(&mut self, number: u8) -> bool
        ensures found { result ≡ is_some (content number self.old) }
        ensures boxes { (other : ℕ) → content other self.new ≡ with_content number None self.old other }
    {
        let at = before_box(self.pending.as_slice(), number);
        if at == self.pending.len() {
            return false;
        }
        self.pending.remove(at);
        true
    }

    /// Whether all boxes are empty.
    pub fn is_empty(&self) -> bool
        ensures { (result ≡ true) ↔ ((number : ℕ) → content number self.now ≡ None) }
    {
        self.pending.is_empty()
    }

    /// Moves the `budget` frames out that leave first, in that order, or all where there are fewer. A frame leaves
    /// before another where it wins arbitration, and of equal identifiers where its box has the lower number.
    pub fn emit(&mut self, budget: u8, out: &mut ArrayVec<(u8, Frame), MOST_FRAMES>)
        requires empty { out.old.items ≡ [] }
        requires budget { budget ≤ 64 }
        ensures { IsEmitted budget self.old out.new.items self.new }
    {
        let count = usize::from(budget).min(self.pending.len());
        move_last(&mut self.pending, count, out);
    }
}

/// Whether the first frame leaves before the second, each with its box's number.
fn is_before(first: &(u8, Frame), second: &(u8, Frame)) -> bool
    ensures { result ≡ leaves_before first.now second.now }
{
    let (mine, theirs) = (priority(&first.1), priority(&second.1));
    mine < theirs || (mine == theirs && first.0 < second.0)
}

/// Before how many of the pending frames the entry leaves.
fn place_of(pending: &[(u8, Frame)], entry: &(u8, Frame)) -> usize
    ensures { result ≡ length (take_while (λ other. leaves_before entry.now other) pending.now) }
{
    pending
        .iter()
        .take_while(|other| is_before(entry, other))
        .count()
}

/// How many of the pending frames stand before that of the box.
fn before_box(pending: &[(u8, Frame)], number: u8) -> usize
    ensures { result ≡ length (take_while (λ other. not (other.0 == number)) pending.now) }
{
    pending.iter().take_while(|other| other.0 != number).count()
}

/// Moves the last frames, so many of them, to the end of another list, the last one first.
fn move_last(
    pending: &mut ArrayVec<(u8, Frame), BOXES>,
    count: usize,
    out: &mut ArrayVec<(u8, Frame), MOST_FRAMES>,
)
    requires empty { out.old.items ≡ [] }
    requires few { (count ≤ length pending.old.items) × (count ≤ 64) }
    ensures moved { pending.old.items ≡ pending.new.items ++ reverse out.new.items }
    ensures count { length out.new.items ≡ count }
{
    for _ in 0..count {
        let Some(entry) = pending.pop() else {
            unreachable!();
        };
        out.push(entry);
    }
}
