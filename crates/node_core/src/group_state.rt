use crate::phase::Phase;
use group_task::{GroupNo, Members, NodeId, Task};

/// What a node knows of its group: its state vector but for the work in hand.
#[derive(Clone, Copy, Debug)]
pub struct GroupState {
    pub phase: Phase,
    /// Where the node is Down, the node itself: it is not looked at then.
    pub coordinator: NodeId,
    /// Where the node is Down, the node's first group: it is not looked at then.
    pub group: GroupNo,
    /// At a coordinator: who accepted its invitation.
    pub up: Members,
    /// None from the time that a node joins or starts a group until its task is made or told.
    pub task: Option<Task>,
    /// At a coordinator that checks: the other coordinators that answered.
    pub found: Members,
    /// At a coordinator that reorganizes: who was told the task, and has not said that it is ready.
    pub unready: Members,
    /// A coordinator that asked for others, and has not merged since.
    pub checking: bool,
    /// A member that asked its coordinator whether it is there, and has no answer yet.
    pub probing: bool,
}
