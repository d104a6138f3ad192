// The report of a run of a cluster.
use group_task::{GroupNo, NodeId};
use job_model::Job;
use node_core::Vector;
use runs::{AttemptAt, Outcome};
use schedule::Act;

/// What came of the acts of a cluster, from its opening on.
#[derive(Debug, Drop)]
pub struct Report {
    /// The vector of each node by its id, as it opened.
    pub opening: Vec<Vector>,
    /// One for each act, in their order.
    pub moments: Vec<Moment>,
    /// The groups that nodes started, each once its count was on their disk. Those of the openings come first.
    pub groups: Vec<GroupNo>,
    /// The commands that nodes tried on their disks. The raises of the openings come first.
    pub commands: Vec<AttemptAt>,
    /// The mountings that succeeded. Those of the openings come first.
    pub mounted: Vec<Mounted>,
}

/// One act, and what came of it.
#[derive(Debug, Drop)]
pub struct Moment {
    pub act: Act,
    /// The node that the act names, or the receiver of the message; node 0 where that is no node of the cluster, and for an act of the
    /// network alone.
    pub node: NodeId,
    /// The messages that were sent have the numbers that stand here, in the network's list.
    pub outcome: Outcome,
    /// What that node knows after the act.
    pub vector: Vector,
}

/// What a node mounted.
#[derive(Debug, Drop)]
pub struct Mounted {
    pub node: NodeId,
    /// How many commands that node had tried before.
    pub before: u64,
    /// The counter of groups, from before the raise that follows.
    pub count: u64,
    /// The id of the next job.
    pub next: u64,
    /// The jobs that aren't done, in order of id.
    pub pending: Vec<Job>,
}
