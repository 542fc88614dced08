//! A hub is made, and its seats are divided and joined.
ghost use Rattle.std.specs.Prelude.{◌≡◌, ◌+◌, ◌<◌, ◌≤◌, length, All, IfOk};
ghost use Rattle.hub_core.specs.Groups.{grouped};
ghost use Rattle.hub_core.specs.Joint.{Joint};
ghost use Rattle.hub_core.specs.Parts.{both, given, kept};
ghost use Rattle.hub_core.specs.View.{empty_view};
ghost use Rattle.hub_layout.specs.Places.{words_in};
ghost use Rattle.hub_layout.specs.Pool.{IsPool};
ghost use Rattle.hub_shared.specs.History.{everyone, part_of, without, within, united};
ghost use Rattle.hub_shared.specs.Rule.{AreWhole, AreClear};
ghost use Rattle.hub_shared.specs.Seats.{IsSeatOf, IsWordAt, AreWordsAt, HasFloors};
ghost use Rattle.hub_shared.specs.Seats.{groups_of, seat_view, seat_part, parts_of, as_port};

use crate::plays::{Announce, Buffers, ByPart, Learn};
use crate::sight::Note;
use crate::{HubPart, HubSeat, SharedHub};
use arrayvec::ArrayVec;
use atomic_table::Table;
use gw_base::{GroupNo, Memory};
use hub_layout::Layout;
use pool_words::{full_pool, word_of};
use std::alloc::Global;

/// The takes of a hub, over all its seats.
const MOST_TAKES: u64 = 8_000_000;

/// All words as a hub begins: each group's pool word is whole, and the others are 0.
fn first_words(alloc: Global, layout: &Layout, counts: &[u8]) -> Result<Vec<u64>, Memory>
    requires layout { length counts.now ≤ layout.now.groups }
    requires few { layout.now.groups ≤ 4 }
    requires groups { All (λ count. (1 ≤ count) × (count ≤ 32)) counts.now }
    ensures all { IfOk result (λ words. length words.items ≡ words_in layout.now.groups layout.now.cells) }
    ensures pools { IfOk result (λ words. AreWhole counts.now words.items) }
    ensures others { IfOk result (λ words. AreClear (length counts.now) words.items) }
{
    let mut words = vec![in alloc; 0; layout.words()]?;
    for group in 0..counts.len() {
        let at = layout.pool(GroupNo(group as u8));
        words[at] = word_of(full_pool(usize::from(counts[group])));
    }
    Ok(words)
}

impl SharedHub {
    /// A hub of 1 to 4 groups of 1 to 32 buffers, each buffer of 1 to 8192 cells and free, and the seat that acts for
    /// all parties and has 8,000,000 takes. `cells` is the cells of each buffer, group after group, and `counts` how
    /// many buffers each group has. It takes no memory later. `Memory` where a growth was refused.
    pub fn new(alloc: Global, cells: &[u32], counts: &[u8]) -> Result<(SharedHub, HubSeat), Memory>
        requires { IsPool cells.now counts.now }
        ensures seat { IfOk result (λ made. IsSeatOf made.0 made.1) }
        ensures groups { IfOk result (λ made. groups_of made.0 ≡ grouped counts.now cells.now) }
        ensures some { IfOk result (λ made. 0 < length (groups_of made.0)) }
        ensures view { IfOk result (λ made. seat_view made.1 ≡ empty_view) }
        ensures part { IfOk result (λ made. seat_part made.1 ≡ everyone) }
        ensures takes { IfOk result (λ made. (as_port made.1).means.takes ≡ 8000000) }
        ensures parts { IfOk result (λ made. parts_of made.1 ≡ 1024) }
    {
        let layout = Layout::of(cells, counts);
        let words = first_words(alloc, &layout, counts)?;
        let buffers = Buffers {
            cells: Vec::from_slice(alloc, cells)?,
            counts: Vec::from_slice(alloc, counts)?,
        };
        let (table, seat) = Table::of_words(alloc, &words, &buffers)?;
        Ok((
            SharedHub {
                table,
                buffers,
                layout,
            },
            HubSeat {
                seat,
                takes: MOST_TAKES,
            },
        ))
    }

    /// Gives the parties and the takes that `part` names, and one of its parts of the right to know the whole, to a new
    /// seat, and keeps the rest. No look of either seat falls behind what the seat did and saw before.
    pub fn split(&self, seat: &mut HubSeat, part: &HubPart) -> HubSeat
        requires seat { IsSeatOf self.now seat.old }
        requires takes { part.now.takes ≤ (as_port seat.old).means.takes }
        requires parts { 1 < parts_of seat.old }
        ensures seats { IsSeatOf self.now seat.new × IsSeatOf self.now result }
        ensures kept { seat_view seat.new ≡ kept (part_of part.now) (seat_view seat.old) }
        ensures given { seat_view result ≡ given (part_of part.now) (seat_view seat.old) }
        ensures kept_part { seat_part seat.new ≡ without (part_of part.now) (seat_part seat.old) }
        ensures given_part { seat_part result ≡ within (part_of part.now) (seat_part seat.old) }
        ensures kept_takes { (as_port seat.new).means.takes + part.now.takes ≡ (as_port seat.old).means.takes }
        ensures given_takes { (as_port result).means.takes ≡ part.now.takes }
        ensures parts { (parts_of seat.new + 1 ≡ parts_of seat.old) × (parts_of result ≡ 1) }
        ensures kept_floors { HasFloors self.now seat.new (seat_view seat.old) }
        ensures given_floors { HasFloors self.now result (seat_view seat.old) }
    {
        let shared = &self.table.shared;
        let note = Note::Parts(*part);
        shared.compare_exchange_with::<Announce>(&mut seat.seat, 0, 0, 0, &note);
        let other = shared.split_seat::<ByPart>(&mut seat.seat);
        seat.takes -= part.takes;
        HubSeat {
            seat: other,
            takes: part.takes,
        }
    }

    /// Puts two seats together.
    pub fn join(&self, seat: &mut HubSeat, other: HubSeat)
        requires seat { IsSeatOf self.now seat.old }
        requires other { IsSeatOf self.now other }
        ensures seat { IsSeatOf self.now seat.new }
        ensures view { seat_view seat.new ≡ both (seat_view seat.old) (seat_view other) }
        ensures parties { seat_part seat.new ≡ united (seat_part seat.old) (seat_part other) }
        ensures takes { (as_port seat.new).means.takes ≡ (as_port seat.old).means.takes + (as_port other).means.takes }
        ensures parts { parts_of seat.new ≡ parts_of seat.old + parts_of other }
        ensures floors { (as_port seat.new).floors ≡ (as_port seat.old).floors }
    {
        let HubSeat {
            seat: theirs,
            takes,
        } = other;
        let shared = &self.table.shared;
        shared.join_seat::<ByPart>(&mut seat.seat, theirs);
        shared.load::<Learn>(&mut seat.seat, 0);
        seat.takes += takes;
    }

    /// The pool word of the group: the number of its changes in its upper 32 bits, its free set in its lower 32. Where
    /// the other seats were joined, all that was done is what the seat did, and it is joint.
    pub fn pool(&self, seat: &mut HubSeat, group: GroupNo) -> u64
        requires seat { IsSeatOf self.now seat.old }
        requires group { group.0 < length (groups_of self.now) }
        ensures same { IsSeatOf self.now seat.new × (as_port seat.new ≡ as_port seat.old) }
        ensures word { parts_of seat.old ≡ 1024 → IsWordAt self.now group.0 (seat_view seat.old) result }
        ensures joint { parts_of seat.old ≡ 1024 → Joint (groups_of self.now) (seat_view seat.old) }
    {
        let at = self.layout.pool(group);
        self.table.shared.load::<Learn>(&mut seat.seat, at)
    }
}

impl SharedHub {
    /// The last pool word of each group, once the other seats were joined: all that was done is what the seat did, and
    /// it is joint.
    pub fn close(self, mut seat: HubSeat) -> ArrayVec<u64, 4>
        requires seat { IsSeatOf self seat }
        requires joined { parts_of seat ≡ 1024 }
        ensures all { length result.items ≡ length (groups_of self) }
        ensures words { AreWordsAt self (seat_view seat) result.items }
        ensures joint { Joint (groups_of self) (seat_view seat) }
    {
        let mut words = ArrayVec::new();
        for group in 0..self.buffers.counts.len() {
            words.push(self.pool(&mut seat, GroupNo(group as u8)));
        }
        words
    }
}
