use group_task::{GroupNo, Members, NodeId};
use node_core::Phase;

/// How a node that is up stands.
#[derive(Clone, Copy, Debug, PartialEq, Eq)]
pub struct Stand {
    pub phase: Phase,
    pub group: GroupNo,
    pub coordinator: NodeId,
    /// The members of its task; none until that is made or told.
    pub members: Members,
    /// How many jobs it works on.
    pub in_hand: usize,
}

/// A turn of a run: a node takes the next entry of its history.
#[derive(Clone, Copy, Debug, PartialEq, Eq)]
pub struct Turn {
    pub node: NodeId,
    /// The index of its entry.
    pub index: usize,
    /// How the node stands after it. None: it is down.
    pub stand: Option<Stand>,
}
