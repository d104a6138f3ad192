use group_task::NodeId;
use std::alloc::Global;

/// What stays the same of a node: where it takes memory, its id, and how many nodes there are.
#[derive(Clone, Copy, Debug)]
pub(crate) struct NodeSetting {
    pub(crate) alloc: Global,
    pub(crate) id: NodeId,
    pub(crate) nodes: u8,
}
