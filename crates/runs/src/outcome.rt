// What comes of an act.
use node_core::Refusal;
use sim_net::NetFault;
use thiserror::Error;

/// What came of an act.
#[derive(Clone, Copy, Debug, PartialEq, Eq)]
pub enum Outcome {
    /// It was done: the answer of the disk, if its command had one, the number of the first message that was sent, and how
    /// many were sent.
    Done {
        answer: Option<u64>,
        first: u64,
        many: u64,
    },
    /// Nothing changed.
    Refused(ActRefusal),
    /// The device failed, and the node is Down.
    Faulted,
}

/// Why an act was refused.
#[derive(Clone, Copy, Debug, PartialEq, Eq, Error)]
pub enum ActRefusal {
    #[error(transparent)]
    Node(Refusal),
    #[error(transparent)]
    Net(NetFault),
    /// It names a node outside the cluster.
    #[error("a node outside the cluster")]
    Stranger,
}
