//! Why a run wasn't gathered.

use group_task::NodeId;
use node_lock::Worker;
use thiserror::Error;

/// Why a run wasn't gathered. Of several reasons that of the first worker counts: by its node, and then Intake, Clock, Operator. What
/// each says of the plans and the gate is said by `specs/Reasons`.
#[derive(Clone, Copy, PartialEq, Eq, Debug, Error)]
pub enum ThreadsFault {
    /// The gate didn't let a worker pass.
    #[error("GateShut")]
    GateShut,
    /// The history of this node was full when this worker had turns left.
    #[error("Unfinished")]
    Unfinished(NodeId, Worker),
    /// There is no memory, or a worker's thread couldn't be made.
    #[error("NoMemory")]
    NoMemory,
    /// What the locks gave back isn't what the run began with, or two ends of a link don't belong together. No run is known
    /// that ends so.
    #[error("Unpaired")]
    Unpaired,
}
