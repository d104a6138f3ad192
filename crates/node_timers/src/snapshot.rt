ghost use Rattle.std.specs.Prelude.{◌≡◌, []};
ghost use Rattle.node_core.specs.State.{state_of};
ghost use Rattle.node_timers.specs.Snapshots.{oldest_of, snapshot_of};

use group_task::{GroupNo, Members, NodeId};
use job_model::PendingJobs;
use node_core::{Phase, Vector};

/// What a policy sees of a node.
#[derive(Clone, Copy, Debug, PartialEq, Eq)]
pub struct NodeSnapshot {
    pub phase: Phase,
    /// Whether the node is the coordinator of its group.
    pub is_coordinator: bool,
    pub group: GroupNo,
    /// Those of its task; none where it has no task.
    pub members: Members,
    pub checking: bool,
    pub probing: bool,
    /// Where other coordinators were found: by how much the greatest of them is above the node.
    pub merge_wait: Option<u64>,
    /// The oldest job that the node keeps, by its id, and how many there are.
    pub oldest: Option<u64>,
    pub pending: u64,
}

impl NodeSnapshot {
    /// What is seen of a node by its state vector, its [`merge_wait`](node_core::NodeCore::merge_wait) and the jobs that it keeps, by rising id.
    pub fn of(
        id: NodeId,
        vector: &Vector,
        merge_wait: Option<u64>,
        pending: &PendingJobs<'_>,
    ) -> NodeSnapshot
        ensures { result ≡ snapshot_of id (state_of vector.now) merge_wait pending.now }
    {
        let mut snapshot = NodeSnapshot::without_jobs(id, vector, merge_wait);
        snapshot.oldest = oldest(pending);
        snapshot.pending = pending.len() as u64;
        snapshot
    }

    /// What is seen of a node that keeps no jobs.
    pub fn without_jobs(id: NodeId, vector: &Vector, merge_wait: Option<u64>) -> NodeSnapshot
        ensures { result ≡ snapshot_of id (state_of vector.now) merge_wait [] }
    {
        let group_state = &vector.group_state;
        let members = match &group_state.task {
            Some(task) => task.members(),
            None => Members::new(),
        };
        NodeSnapshot {
            phase: group_state.phase,
            is_coordinator: group_state.coordinator.is(id),
            group: group_state.group,
            members,
            checking: group_state.checking,
            probing: group_state.probing,
            merge_wait,
            oldest: None,
            pending: 0,
        }
    }
}

fn oldest(pending: &PendingJobs<'_>) -> Option<u64>
    ensures { result ≡ oldest_of pending.now }
{
    let first = pending.get(0)?;
    Some(first.id())
}
