//! The rule of the shared words, and what each kind of step tells.
use crate::sight::{Note, Sight};
use atomic_table::{Join, Play, Split, TableRule};

/// The buffers of a hub: the cells of each, group after group, and how many each group has.
#[derive(Drop)]
pub struct Buffers {
    pub cells: Vec<u32>,
    pub counts: Vec<u8>,
}

/// The rule of the shared words.
pub(crate) struct HubRule;

impl TableRule<Note, Sight, Buffers> for HubRule {
    ghost use Rattle.hub_core.specs.Groups.{grouped};
    ghost use Rattle.hub_shared.specs.Rule.{Kept};
    ghost use Rattle.hub_shared.specs.Sights.{newcomer};

    ghost holds = { λ buffers. Kept (grouped buffers.counts.items buffers.cells.items) };

    ghost first = { λ buffers. newcomer (grouped buffers.counts.items buffers.cells.items) };
}

/// A look at a pool word, by a seat that is to take.
pub(crate) struct Look;

impl Play<Note, Sight> for Look {
    ghost use Rattle.hub_shared.specs.Plays.{looked};

    ghost then = { looked };
}

/// An exchange of a pool word, by a seat that is to take.
pub(crate) struct Grant;

impl Play<Note, Sight> for Grant {
    ghost use Rattle.hub_shared.specs.Plays.{taking};

    ghost then = { taking };
}

/// An exchange of a pool word for itself, by a seat to which nothing is to be granted.
pub(crate) struct Refuse;

impl Play<Note, Sight> for Refuse {
    ghost use Rattle.hub_shared.specs.Plays.{refusing};

    ghost then = { refusing };
}

/// A step that announces the part which a new seat is given.
pub(crate) struct Announce;

impl Play<Note, Sight> for Announce {
    ghost use Rattle.hub_shared.specs.Plays.{announced};

    ghost then = { announced };
}

/// A step that announces the session which is to be entered.
pub(crate) struct Open;

impl Play<Note, Sight> for Open {
    ghost use Rattle.hub_shared.specs.Plays.{entering};

    ghost then = { entering };
}

/// The store of the length of a session that is to be entered.
pub(crate) struct Prepare;

impl Play<Note, Sight> for Prepare {
    ghost use Rattle.hub_shared.specs.Plays.{prepared};

    ghost then = { prepared };
}

/// The store of a session's card, by which it is entered.
pub(crate) struct Enter;

impl Play<Note, Sight> for Enter {
    ghost use Rattle.hub_shared.specs.Plays.{entered};

    ghost then = { entered };
}

/// A step that announces the session which a destination looks for.
pub(crate) struct Seek;

impl Play<Note, Sight> for Seek {
    ghost use Rattle.hub_shared.specs.Plays.{seeking};

    ghost then = { seeking };
}

/// A look at a card, by a destination that looks for its session.
pub(crate) struct LookAtCard;

impl Play<Note, Sight> for LookAtCard {
    ghost use Rattle.hub_shared.specs.Plays.{sighted};

    ghost then = { sighted };
}

/// A look at the length of a session that is there, by which its destination joins it.
pub(crate) struct JoinSession;

impl Play<Note, Sight> for JoinSession {
    ghost use Rattle.hub_shared.specs.Plays.{joined};

    ghost then = { joined };
}

/// A look by which a destination that found nothing ends.
pub(crate) struct Rest;

impl Play<Note, Sight> for Rest {
    ghost use Rattle.hub_shared.specs.Plays.{rested};

    ghost then = { rested };
}

/// A look at a pool word, by a seat that may know the whole.
pub(crate) struct Learn;

impl Play<Note, Sight> for Learn {
    ghost use Rattle.hub_shared.specs.Plays.{learned};

    ghost then = { learned };
}

/// How a seat is divided by the part that it announced, and how it takes in another.
pub(crate) struct ByPart;

impl Split<Sight> for ByPart {
    ghost use Rattle.hub_shared.specs.Sights.{kept_sight, given_sight};

    ghost left = { kept_sight };

    ghost right = { given_sight };
}

impl Join<Sight> for ByPart {
    ghost use Rattle.hub_shared.specs.Sights.{both_sights, spent};

    ghost both = { both_sights };

    ghost spent = { spent };
}
