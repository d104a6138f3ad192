//! Which node of which run a lock holds.

use group_task::NodeId;

/// Which node of which run: how many nodes there are, how many slots an area of a disk has, and how many messages find room on
/// each link.
#[derive(Clone, Copy, PartialEq, Eq, Debug)]
pub struct Run {
    pub node: NodeId,
    pub nodes: u8,
    pub slots: u64,
    pub capacity: usize,
}
