use group_task::NodeId;

/// The turns of a run that was recorded, in the order in which they came.
#[derive(Debug, Drop)]
pub struct Order {
    /// The node of each turn.
    pub nodes: Vec<NodeId>,
    /// Of each turn the number of the message that its node was brought: all messages are counted from 0, in the order in which they were
    /// sent. None where it was brought none, or the record doesn't say which.
    pub messages: Vec<Option<u64>>,
}
