//! The table of all keys: a row each, in the order in which they are checked.
use crate::rows::{CountRow, FlagRow, ListRow, NumberRow, TextRow, WordRow};
use crate::words::{Addressing, Mode, QueueKind, Role};
use can_frame::CanId;
use gw_settings::{Key, TableKind};

/// The duration of a tick, in microseconds.
pub const PERIOD: NumberRow = NumberRow {
    table: TableKind::Top,
    key: Key::Period,
    low: 1,
    high: 1_000_000,
    default: Some(1000),
};

/// The ticks of a window, after which the workers meet.
pub const WINDOW: NumberRow = NumberRow {
    table: TableKind::Top,
    key: Key::Window,
    low: 1,
    high: 1000,
    default: Some(1),
};

/// The ticks that a run goes on after the last input frame.
pub const LINGER: NumberRow = NumberRow {
    table: TableKind::Top,
    key: Key::Linger,
    low: 0,
    high: 1_000_000,
    default: Some(3000),
};

/// How the workers run.
pub const MODE: WordRow<Mode> = WordRow {
    table: TableKind::Top,
    key: Key::Mode,
    default: Some(Mode::Serial),
};

/// The cells of each buffer of the pool, which are one group; required where there is no `groups`, and else unknown.
pub const BUFFERS: ListRow = ListRow {
    table: TableKind::Top,
    key: Key::Buffers,
    least: 1,
    most: 32,
};

/// The cells of one buffer.
pub const BUFFER: NumberRow = NumberRow {
    table: TableKind::Top,
    key: Key::Buffers,
    low: 1,
    high: 8192,
    default: None,
};

/// The groups of the pool's buffers, in place of `buffers`.
pub const GROUPS: ListRow = ListRow {
    table: TableKind::Top,
    key: Key::Groups,
    least: 1,
    most: 4,
};

/// The cells of each buffer of one group.
pub const GROUP: ListRow = ListRow {
    table: TableKind::Top,
    key: Key::Groups,
    least: 1,
    most: 32,
};

/// The cells of one buffer of a group.
pub const GROUP_BUFFER: NumberRow = NumberRow {
    table: TableKind::Top,
    key: Key::Groups,
    low: 1,
    high: 8192,
    default: None,
};

/// The buses.
pub const BUSES: CountRow = CountRow {
    table: TableKind::Bus,
    low: 1,
    high: 8,
};

/// The channels.
pub const CHANNELS: CountRow = CountRow {
    table: TableKind::Channel,
    low: 0,
    high: 64,
};

/// The paths.
pub const PATHS: CountRow = CountRow {
    table: TableKind::Path,
    low: 0,
    high: 64,
};

/// The interface paths.
pub const INTERFACES: CountRow = CountRow {
    table: TableKind::Interface,
    low: 0,
    high: 32,
};

/// The cancellations.
pub const CANCELS: CountRow = CountRow {
    table: TableKind::Cancel,
    low: 0,
    high: 64,
};

/// All keys of a top table without `groups`.
pub const TOP_KEYS: [Key; 10] = [
    Key::Period,
    Key::Window,
    Key::Linger,
    Key::Mode,
    Key::Buffers,
    Key::Bus,
    Key::Channel,
    Key::Path,
    Key::Interface,
    Key::Cancel,
];

/// All keys of a top table with `groups`.
pub const GROUPED_TOP_KEYS: [Key; 10] = [
    Key::Period,
    Key::Window,
    Key::Linger,
    Key::Mode,
    Key::Groups,
    Key::Bus,
    Key::Channel,
    Key::Path,
    Key::Interface,
    Key::Cancel,
];

/// A bus's name, as its interface is called in the logs.
pub const BUS_NAME: TextRow = TextRow {
    table: TableKind::Bus,
    key: Key::Name,
    most: 15,
    is_file: false,
};

/// The file of a bus's input.
pub const BUS_LOG: TextRow = TextRow {
    table: TableKind::Bus,
    key: Key::Log,
    most: 64,
    is_file: true,
};

/// The file of a bus's output.
pub const BUS_OUT: TextRow = TextRow {
    table: TableKind::Bus,
    key: Key::Out,
    most: 64,
    is_file: true,
};

/// Whether a bus takes CAN FD frames.
pub const BUS_FD: FlagRow = FlagRow {
    table: TableKind::Bus,
    key: Key::Fd,
    default: false,
};

/// Whether a bus's CAN FD frames switch to the higher bit rate.
pub const BUS_BRS: FlagRow = FlagRow {
    table: TableKind::Bus,
    key: Key::Brs,
    default: false,
};

/// The most frames that a bus takes in a tick.
pub const BUS_BUDGET: NumberRow = NumberRow {
    table: TableKind::Bus,
    key: Key::Budget,
    low: 1,
    high: 64,
    default: Some(8),
};

/// All keys of a bus.
pub const BUS_KEYS: [Key; 6] = [
    Key::Name,
    Key::Log,
    Key::Out,
    Key::Fd,
    Key::Brs,
    Key::Budget,
];

/// A channel's name.
pub const CHANNEL_NAME: TextRow = TextRow {
    table: TableKind::Channel,
    key: Key::Name,
    most: 32,
    is_file: false,
};

/// The name of a channel's bus.
pub const CHANNEL_BUS: TextRow = TextRow {
    table: TableKind::Channel,
    key: Key::Bus,
    most: 15,
    is_file: false,
};

/// The identifier of the frames that a channel receives.
pub const CHANNEL_RX: WordRow<CanId> = WordRow {
    table: TableKind::Channel,
    key: Key::Rx,
    default: None,
};

/// The identifier of the frames that a channel sends.
pub const CHANNEL_TX: WordRow<CanId> = WordRow {
    table: TableKind::Channel,
    key: Key::Tx,
    default: None,
};

/// A channel's addressing format (ISO 15765-2, addressing formats).
pub const CHANNEL_ADDRESSING: WordRow<Addressing> = WordRow {
    table: TableKind::Channel,
    key: Key::Addressing,
    default: Some(Addressing::Normal),
};

/// The address byte of the frames that a channel receives, unless its addressing is normal.
pub const CHANNEL_RX_ADDRESS: NumberRow = NumberRow {
    table: TableKind::Channel,
    key: Key::RxAddress,
    low: 0,
    high: 255,
    default: None,
};

/// The address byte of the frames that a channel sends, unless its addressing is normal.
pub const CHANNEL_TX_ADDRESS: NumberRow = NumberRow {
    table: TableKind::Channel,
    key: Key::TxAddress,
    low: 0,
    high: 255,
    default: None,
};

/// Whether a channel is addressed functionally.
pub const CHANNEL_FUNCTIONAL: FlagRow = FlagRow {
    table: TableKind::Channel,
    key: Key::Functional,
    default: false,
};

/// Whether a channel's frames are filled up to 8 bytes.
pub const CHANNEL_PAD: FlagRow = FlagRow {
    table: TableKind::Channel,
    key: Key::Pad,
    default: false,
};

/// The most bytes of a frame that a channel sends; 8, 12, 16, 20, 24, 32, 48 or 64.
pub const CHANNEL_DL: NumberRow = NumberRow {
    table: TableKind::Channel,
    key: Key::Dl,
    low: 8,
    high: 64,
    default: Some(8),
};

/// The byte that frames are filled with.
pub const CHANNEL_FILL: NumberRow = NumberRow {
    table: TableKind::Channel,
    key: Key::Fill,
    low: 0,
    high: 255,
    default: Some(204),
};

/// The block size that a channel grants; 0 is no limit.
pub const CHANNEL_BS: NumberRow = NumberRow {
    table: TableKind::Channel,
    key: Key::Bs,
    low: 0,
    high: 255,
    default: Some(0),
};

/// The separation time that a channel asks for, as a flow control carries it.
pub const CHANNEL_STMIN: NumberRow = NumberRow {
    table: TableKind::Channel,
    key: Key::Stmin,
    low: 0,
    high: 255,
    default: Some(0),
};

/// The most flow controls in a row that ask to wait.
pub const CHANNEL_WFT_MAX: NumberRow = NumberRow {
    table: TableKind::Channel,
    key: Key::WftMax,
    low: 0,
    high: 255,
    default: Some(16),
};

/// The time N_As for the sender's frame, in ticks.
pub const CHANNEL_N_AS: NumberRow = NumberRow {
    table: TableKind::Channel,
    key: Key::NAs,
    low: 1,
    high: 1_000_000,
    default: Some(1000),
};

/// The time N_Ar for the receiver's flow control, in ticks.
pub const CHANNEL_N_AR: NumberRow = NumberRow {
    table: TableKind::Channel,
    key: Key::NAr,
    low: 1,
    high: 1_000_000,
    default: Some(1000),
};

/// The time N_Bs for the next flow control, in ticks.
pub const CHANNEL_N_BS: NumberRow = NumberRow {
    table: TableKind::Channel,
    key: Key::NBs,
    low: 1,
    high: 1_000_000,
    default: Some(1000),
};

/// The time N_Br for the next own flow control, in ticks.
pub const CHANNEL_N_BR: NumberRow = NumberRow {
    table: TableKind::Channel,
    key: Key::NBr,
    low: 1,
    high: 1_000_000,
    default: Some(10),
};

/// The time N_Cs for the next own consecutive frame, in ticks.
pub const CHANNEL_N_CS: NumberRow = NumberRow {
    table: TableKind::Channel,
    key: Key::NCs,
    low: 1,
    high: 1_000_000,
    default: Some(1000),
};

/// The time N_Cr for the next consecutive frame, in ticks.
pub const CHANNEL_N_CR: NumberRow = NumberRow {
    table: TableKind::Channel,
    key: Key::NCr,
    low: 1,
    high: 1_000_000,
    default: Some(1000),
};

/// All keys of a channel of normal addressing.
pub const PLAIN_CHANNEL_KEYS: [Key; 18] = [
    Key::Name,
    Key::Bus,
    Key::Rx,
    Key::Tx,
    Key::Addressing,
    Key::Functional,
    Key::Pad,
    Key::Dl,
    Key::Fill,
    Key::Bs,
    Key::Stmin,
    Key::WftMax,
    Key::NAs,
    Key::NAr,
    Key::NBs,
    Key::NBr,
    Key::NCs,
    Key::NCr,
];

/// All keys of a channel with an address byte.
pub const ADDRESSED_CHANNEL_KEYS: [Key; 20] = [
    Key::Name,
    Key::Bus,
    Key::Rx,
    Key::Tx,
    Key::Addressing,
    Key::RxAddress,
    Key::TxAddress,
    Key::Functional,
    Key::Pad,
    Key::Dl,
    Key::Fill,
    Key::Bs,
    Key::Stmin,
    Key::WftMax,
    Key::NAs,
    Key::NAr,
    Key::NBs,
    Key::NBr,
    Key::NCs,
    Key::NCr,
];

/// A path's name.
pub const PATH_NAME: TextRow = TextRow {
    table: TableKind::Path,
    key: Key::Name,
    most: 32,
    is_file: false,
};

/// The name of a path's source channel.
pub const PATH_FROM: TextRow = TextRow {
    table: TableKind::Path,
    key: Key::From,
    most: 32,
    is_file: false,
};

/// The names of a path's destination channels.
pub const PATH_TO: ListRow = ListRow {
    table: TableKind::Path,
    key: Key::To,
    least: 1,
    most: 8,
};

/// The name of one destination channel.
pub const PATH_DESTINATION: TextRow = TextRow {
    table: TableKind::Path,
    key: Key::To,
    most: 32,
    is_file: false,
};

/// The cells that are received before forwarding begins.
pub const PATH_THRESHOLD: NumberRow = NumberRow {
    table: TableKind::Path,
    key: Key::Threshold,
    low: 1,
    high: 8192,
    default: Some(1),
};

/// Whether a unit is received whole before forwarding begins.
pub const PATH_STORE: FlagRow = FlagRow {
    table: TableKind::Path,
    key: Key::Store,
    default: false,
};

/// The group whose buffers a path's units are stored in.
pub const PATH_GROUP: NumberRow = NumberRow {
    table: TableKind::Path,
    key: Key::Group,
    low: 0,
    high: 3,
    default: Some(0),
};

/// All keys of a path.
pub const PATH_KEYS: [Key; 6] = [
    Key::Name,
    Key::From,
    Key::To,
    Key::Threshold,
    Key::Store,
    Key::Group,
];

/// An interface path's name.
pub const INTERFACE_NAME: TextRow = TextRow {
    table: TableKind::Interface,
    key: Key::Name,
    most: 32,
    is_file: false,
};

/// The name of the bus that an interface path leads from.
pub const INTERFACE_FROM_BUS: TextRow = TextRow {
    table: TableKind::Interface,
    key: Key::FromBus,
    most: 15,
    is_file: false,
};

/// The identifier of the frames that an interface path takes.
pub const INTERFACE_FROM_ID: WordRow<CanId> = WordRow {
    table: TableKind::Interface,
    key: Key::FromId,
    default: None,
};

/// The name of the bus that an interface path leads to.
pub const INTERFACE_TO_BUS: TextRow = TextRow {
    table: TableKind::Interface,
    key: Key::ToBus,
    most: 15,
    is_file: false,
};

/// The identifier of the frames that an interface path gives.
pub const INTERFACE_TO_ID: WordRow<CanId> = WordRow {
    table: TableKind::Interface,
    key: Key::ToId,
    default: None,
};

/// The kind of an interface path's queue.
pub const INTERFACE_QUEUE: WordRow<QueueKind> = WordRow {
    table: TableKind::Interface,
    key: Key::Queue,
    default: Some(QueueKind::Fifo),
};

/// The most units in an interface path's queue; a queue of the last unit holds one.
pub const INTERFACE_DEPTH: NumberRow = NumberRow {
    table: TableKind::Interface,
    key: Key::Depth,
    low: 1,
    high: 64,
    default: Some(8),
};

/// All keys of an interface path.
pub const INTERFACE_KEYS: [Key; 7] = [
    Key::Name,
    Key::FromBus,
    Key::FromId,
    Key::ToBus,
    Key::ToId,
    Key::Queue,
    Key::Depth,
];

/// The name of the path of a cancellation.
pub const CANCEL_PATH: TextRow = TextRow {
    table: TableKind::Cancel,
    key: Key::Path,
    most: 32,
    is_file: false,
};

/// The tick of a cancellation.
pub const CANCEL_TICK: NumberRow = NumberRow {
    table: TableKind::Cancel,
    key: Key::Tick,
    low: 0,
    high: 10_000_000,
    default: None,
};

/// The side that a cancellation ends.
pub const CANCEL_ROLE: WordRow<Role> = WordRow {
    table: TableKind::Cancel,
    key: Key::Role,
    default: None,
};

/// The name of the destination channel that a cancellation ends, if it ends one.
pub const CANCEL_TO: TextRow = TextRow {
    table: TableKind::Cancel,
    key: Key::To,
    most: 32,
    is_file: false,
};

/// All keys of a cancellation.
pub const CANCEL_KEYS: [Key; 4] = [Key::Path, Key::Tick, Key::Role, Key::To];
