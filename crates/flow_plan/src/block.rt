//! What a flow control grants.
/// What a flow control grants (ISO 15765-2, flow control).
#[derive(Clone, Copy, Debug, PartialEq, Eq)]
pub enum Grant {
    /// All frames that remain, with no further flow control.
    All,
    /// So many frames, and then a further flow control.
    Block(u8),
    /// None yet.
    Wait,
}
