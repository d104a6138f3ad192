ghost use Rattle.std.specs.Prelude.{◌≡◌};
ghost use Rattle.node_core.specs.State.{state_of};
ghost use Rattle.durable_node.specs.Changes.{same_view, told_anew, view_of};

use group_task::{GroupNo, Members, NodeId};
use node_core::{Phase, Vector};

/// What is told of a node's group. Where the node is Down, its phase alone is.
#[derive(Clone, Copy, Debug, PartialEq, Eq)]
pub struct GroupView {
    pub phase: Phase,
    pub coordinator: NodeId,
    pub group: GroupNo,
    /// Those of its task; none where it has no task.
    pub members: Members,
}

impl GroupView {
    pub(crate) fn of(vector: &Vector) -> GroupView
        ensures { result ≡ view_of (state_of vector.now) }
    {
        GroupView {
            phase: vector.group_state.phase,
            coordinator: vector.group_state.coordinator,
            group: vector.group_state.group,
            members: vector.members(),
        }
    }

    /// What is told now, where another thing was told before.
    pub(crate) fn anew(&self, now: GroupView) -> Option<GroupView>
        ensures { result ≡ told_anew self.now now }
    {
        if self.is(&now) {
            return None;
        }
        Some(now)
    }

    /// Whether the same is told.
    fn is(&self, other: &GroupView) -> bool
        ensures { result ≡ same_view self.now other.now }
    {
        self.phase == other.phase
            && (matches!(other.phase, Phase::Down)
                || (self.coordinator.is(other.coordinator)
                    && self.group.is(other.group)
                    && self.members == other.members))
    }
}
