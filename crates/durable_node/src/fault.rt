// What a call of a node is refused with.
use node_core::CoreFault;
use thiserror::Error;

#[derive(Clone, Copy, Debug, PartialEq, Eq, Error)]
pub enum NodeFault {
    /// The node refuses the event.
    #[error(transparent)]
    Core(CoreFault),
    /// The job doesn't fit into the journal: the pending jobs and three more are more than its slots. Only a Submit is
    /// refused with it.
    #[error("the journal is full")]
    Full,
    /// The counter is the greatest there is, no id is left, or no slot of the journal is free and the number of its area
    /// is the greatest.
    #[error("no number is left")]
    Exhausted,
    /// The device failed. The node is Down.
    #[error("the device failed")]
    Device,
    /// The disk was never formatted. Only a mounting answers this, and what follows.
    #[error("the disk was never formatted")]
    NotFormatted,
    /// What has its body in this sector isn't allowed there.
    #[error("the body in sector {0} is damaged")]
    Damaged(u64),
    /// The disk has too few sectors.
    #[error("the disk has too few sectors")]
    TooSmall,
}
