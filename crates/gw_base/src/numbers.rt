/// A bus, by its place in the configuration, from 0.
#[derive(Clone, Copy, Debug, Default, PartialEq, Eq)]
pub struct BusNo(pub u8);

/// A channel, by its place in the configuration, from 0.
#[derive(Clone, Copy, Debug, Default, PartialEq, Eq)]
pub struct ChanNo(pub u8);

/// A path, by its place in the configuration, from 0.
#[derive(Clone, Copy, Debug, Default, PartialEq, Eq)]
pub struct PathNo(pub u8);

/// A destination, by its place among its path's destinations, from 0.
#[derive(Clone, Copy, Debug, Default, PartialEq, Eq)]
pub struct DestNo(pub u8);

/// A buffer of the pool, by its place in the configuration, from 0.
#[derive(Clone, Copy, Debug, Default, PartialEq, Eq)]
pub struct BufNo(pub u8);

/// A group of the pool's buffers, by its place in the configuration, from 0.
#[derive(Clone, Copy, Debug, Default, PartialEq, Eq)]
pub struct GroupNo(pub u8);

/// A tick, counted from the first frame of all logs; a tick lasts one period.
#[derive(Clone, Copy, Debug, Default, PartialEq, Eq, PartialOrd, Ord)]
pub struct Tick(pub u64);

/// A time in microseconds, as log lines state it.
#[derive(Clone, Copy, Debug, Default, PartialEq, Eq, PartialOrd, Ord)]
pub struct Micros(pub u64);
