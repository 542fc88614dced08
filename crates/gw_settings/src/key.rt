ghost use Rattle.std.specs.Prelude.{◌≡◌, option_copied};
ghost use Rattle.gw_settings.specs.Names.{key_name};

use std::fmt;

/// A key of the configuration. Where two tables have a key of one name, it is one `Key`.
#[derive(Clone, Copy, Debug, PartialEq, Eq)]
pub enum Key {
    /// `period`: the duration of a tick.
    Period,
    /// `window`: the ticks between two barriers.
    Window,
    /// `linger`: the ticks after the last input frame.
    Linger,
    /// `mode`: how the workers run.
    Mode,
    /// `buffers`: the sizes of the pool's buffers, which are one group.
    Buffers,
    /// `groups`: the sizes of the pool's buffers, group by group.
    Groups,
    /// `bus`: the buses, or a channel's bus.
    Bus,
    /// `channel`: the channels.
    Channel,
    /// `path`: the paths, or the path of a cancellation.
    Path,
    /// `interface`: the interface paths.
    Interface,
    /// `cancel`: the cancellations.
    Cancel,
    /// `name`: an entry's name.
    Name,
    /// `log`: the file of a bus's input.
    Log,
    /// `out`: the file of a bus's output.
    Out,
    /// `fd`: whether a bus takes CAN FD frames.
    Fd,
    /// `brs`: whether a bus's FD frames use the higher bit rate.
    Brs,
    /// `budget`: the most frames that a bus takes in a tick.
    Budget,
    /// `rx`: the identifier of the frames that a channel receives.
    Rx,
    /// `tx`: the identifier of the frames that a channel sends.
    Tx,
    /// `addressing`: how a channel is addressed.
    Addressing,
    /// `rx_address`: the address byte of received frames.
    RxAddress,
    /// `tx_address`: the address byte of sent frames.
    TxAddress,
    /// `functional`: whether a channel is addressed functionally.
    Functional,
    /// `pad`: whether short frames are filled.
    Pad,
    /// `dl`: the length of a channel's frames.
    Dl,
    /// `fill`: the byte that frames are filled with.
    Fill,
    /// `bs`: the block size.
    Bs,
    /// `stmin`: the separation time.
    Stmin,
    /// `wft_max`: the most flow controls that ask to wait.
    WftMax,
    /// `n_as`: the timer N_As.
    NAs,
    /// `n_ar`: the timer N_Ar.
    NAr,
    /// `n_bs`: the timer N_Bs.
    NBs,
    /// `n_br`: the timer N_Br.
    NBr,
    /// `n_cs`: the timer N_Cs.
    NCs,
    /// `n_cr`: the timer N_Cr.
    NCr,
    /// `from`: a path's source.
    From,
    /// `to`: the destinations of a path or of a cancellation.
    To,
    /// `threshold`: the cells before forwarding begins.
    Threshold,
    /// `store`: whether a unit is stored whole before it is forwarded.
    Store,
    /// `group`: the group of a path's buffers.
    Group,
    /// `from_bus`: the bus that an interface path leads from.
    FromBus,
    /// `from_id`: the identifier that an interface path takes.
    FromId,
    /// `to_bus`: the bus that an interface path leads to.
    ToBus,
    /// `to_id`: the identifier that an interface path gives.
    ToId,
    /// `queue`: the kind of an interface path's queue.
    Queue,
    /// `depth`: the most units that a queue holds.
    Depth,
    /// `tick`: the tick of a cancellation.
    Tick,
    /// `role`: the side that a cancellation ends.
    Role,
    /// A key that no table has; a fault names it for a key of the text that isn't known.
    Other,
}

impl Key {
    /// The key's name in the text; `Other` has none.
    pub fn name(self) -> Option<&'static str>
        ensures { option_copied result ≡ key_name self }
    {
        match self {
            Key::Period => Some("period"),
            Key::Window => Some("window"),
            Key::Linger => Some("linger"),
            Key::Mode => Some("mode"),
            Key::Buffers => Some("buffers"),
            Key::Groups => Some("groups"),
            Key::Bus => Some("bus"),
            Key::Channel => Some("channel"),
            Key::Path => Some("path"),
            Key::Interface => Some("interface"),
            Key::Cancel => Some("cancel"),
            Key::Name => Some("name"),
            Key::Log => Some("log"),
            Key::Out => Some("out"),
            Key::Fd => Some("fd"),
            Key::Brs => Some("brs"),
            Key::Budget => Some("budget"),
            Key::Rx => Some("rx"),
            Key::Tx => Some("tx"),
            Key::Addressing => Some("addressing"),
            Key::RxAddress => Some("rx_address"),
            Key::TxAddress => Some("tx_address"),
            Key::Functional => Some("functional"),
            Key::Pad => Some("pad"),
            Key::Dl => Some("dl"),
            Key::Fill => Some("fill"),
            Key::Bs => Some("bs"),
            Key::Stmin => Some("stmin"),
            Key::WftMax => Some("wft_max"),
            Key::NAs => Some("n_as"),
            Key::NAr => Some("n_ar"),
            Key::NBs => Some("n_bs"),
            Key::NBr => Some("n_br"),
            Key::NCs => Some("n_cs"),
            Key::NCr => Some("n_cr"),
            Key::From => Some("from"),
            Key::To => Some("to"),
            Key::Threshold => Some("threshold"),
            Key::Store => Some("store"),
            Key::Group => Some("group"),
            Key::FromBus => Some("from_bus"),
            Key::FromId => Some("from_id"),
            Key::ToBus => Some("to_bus"),
            Key::ToId => Some("to_id"),
            Key::Queue => Some("queue"),
            Key::Depth => Some("depth"),
            Key::Tick => Some("tick"),
            Key::Role => Some("role"),
            Key::Other => None,
        }
    }
}

/// The key's name in a fault's path; `?` for `Other`.
impl fmt::Display for Key {
    ghost use Rattle.std.specs.Prelude.{Some};
    ghost use Rattle.gw_settings.specs.Said.{key_text};

    ghost output = { λ key. Some (key_text key) };

    fn fmt<W: fmt::Write>(&self, f: &mut fmt::Formatter<W>) -> fmt::Result {
        let name = self.name().unwrap_or("?");
        write!(f, "{name}")
    }
}
