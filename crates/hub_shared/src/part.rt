//! What a seat gives to a new one.

/// Parties and takes: bit p of `writers` is the writer of path p, bit d of `dests[p]` is destination d of path p.
#[derive(Clone, Copy, Debug)]
pub struct HubPart {
    pub writers: u64,
    pub dests: [u8; 64],
    pub takes: u64,
}
