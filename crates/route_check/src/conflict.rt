//! A conflict of a configuration: its kind, its two places, and what is said of it.
use std::fmt;

/// How two entries of a configuration contradict each other. The kinds are this project's own.
#[derive(Clone, Copy, Debug, PartialEq, Eq)]
pub enum ConflictKind {
    /// An entry names one that isn't there.
    UnknownName,
    /// Two channels of one bus can't be told apart.
    SameAddress,
    /// Two paths have a source or a destination in common, or one path has a destination twice.
    SharedSender,
    /// A path leads back to where it comes from.
    SelfRoute,
    /// A channel has frames of more than 8 bytes on a bus without CAN FD.
    MixedLength,
    /// A path leads to a functional channel.
    FunctionalSend,
    /// An interface path meets a channel's frames or another interface path's.
    IfOverlap,
    /// No buffer of its group is large enough for a path, or its group isn't there.
    NoBuffer,
    /// A cancellation doesn't fit its path.
    BadCancel,
}

impl ConflictKind {
    /// All kinds, in the order in which they are checked.
    pub(crate) const ALL: [ConflictKind; 9] = [
        ConflictKind::UnknownName,
        ConflictKind::SameAddress,
        ConflictKind::SharedSender,
        ConflictKind::SelfRoute,
        ConflictKind::MixedLength,
        ConflictKind::FunctionalSend,
        ConflictKind::IfOverlap,
        ConflictKind::NoBuffer,
        ConflictKind::BadCancel,
    ];
}

/// A table of entries.
#[derive(Clone, Copy, Debug, PartialEq, Eq)]
pub enum Place {
    /// The buses.
    Bus,
    /// The channels.
    Channel,
    /// The paths.
    Path,
    /// The interface paths.
    Interface,
    /// The cancellations.
    Cancel,
}

impl Place {
    /// All tables, in the order in which they are checked.
    pub(crate) const ALL: [Place; 5] = [
        Place::Bus,
        Place::Channel,
        Place::Path,
        Place::Interface,
        Place::Cancel,
    ];
}

/// A conflict: its kind and two places, each a table of entries with a number.
#[derive(Clone, Copy, Debug, PartialEq, Eq)]
pub struct Conflict {
    /// What is wrong.
    pub kind: ConflictKind,
    /// The table of the first entry.
    pub place: Place,
    /// The number of the first entry in its table, from 0.
    pub first: u32,
    /// The table of the other entry, or of the name that isn't there.
    pub other: Place,
    /// The number of the other entry in its table, from 0; for `UnknownName` which of the first entry's names it is.
    pub second: u32,
}

impl fmt::Display for ConflictKind {
    ghost use Rattle.std.specs.Prelude.{Some};
    ghost use Rattle.route_check.specs.Texts.{kind_text};

    ghost output = { λ kind. Some (kind_text kind) };

    fn fmt<W: fmt::Write>(&self, f: &mut fmt::Formatter<W>) -> fmt::Result {
        match self {
            ConflictKind::UnknownName => write!(f, "unknown-name"),
            ConflictKind::SameAddress => write!(f, "same-address"),
            ConflictKind::SharedSender => write!(f, "shared-sender"),
            ConflictKind::SelfRoute => write!(f, "self-route"),
            ConflictKind::MixedLength => write!(f, "mixed-length"),
            ConflictKind::FunctionalSend => write!(f, "functional-send"),
            ConflictKind::IfOverlap => write!(f, "if-overlap"),
            ConflictKind::NoBuffer => write!(f, "no-buffer"),
            ConflictKind::BadCancel => write!(f, "bad-cancel"),
        }
    }
}

impl fmt::Display for Place {
    ghost use Rattle.std.specs.Prelude.{Some};
    ghost use Rattle.route_check.specs.Texts.{place_text};

    ghost output = { λ place. Some (place_text place) };

    fn fmt<W: fmt::Write>(&self, f: &mut fmt::Formatter<W>) -> fmt::Result {
        match self {
            Place::Bus => write!(f, "bus"),
            Place::Channel => write!(f, "channel"),
            Place::Path => write!(f, "path"),
            Place::Interface => write!(f, "interface"),
            Place::Cancel => write!(f, "cancel"),
        }
    }
}

/// The text `KIND PLACE FIRST PLACE SECOND`.
impl fmt::Display for Conflict {
    ghost use Rattle.std.specs.Prelude.{Some};
    ghost use Rattle.route_check.specs.Texts.{conflict_text};

    ghost output = { λ conflict. Some (conflict_text conflict) };

    fn fmt<W: fmt::Write>(&self, f: &mut fmt::Formatter<W>) -> fmt::Result {
        let Conflict {
            kind,
            place,
            first,
            other,
            second,
        } = self;
        write!(f, "{kind} {place} {first} {other} {second}")
    }
}
