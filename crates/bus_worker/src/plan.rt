//! How the channels of a bus are configured.
use crate::comes::Comes;
use tp_receiver::RxSet;
use tp_sender::TxSet;
use tp_unit::Shape;

/// A channel that is a source: its receiver, and the shape of its flow controls.
#[derive(Clone, Copy, Debug, PartialEq, Eq)]
pub struct SourcePlan {
    pub set: RxSet,
    pub shape: Shape,
}

/// A channel of a bus: the frames that come to it, its receiver where it is a source, and its sender where it is a
/// destination.
#[derive(Clone, Copy, Debug, PartialEq, Eq)]
pub struct ChannelPlan {
    pub comes: Comes,
    pub source: Option<SourcePlan>,
    pub destination: Option<TxSet>,
}
