//! One turn of a worker.

use group_task::NodeId;
use node_core::Timer;
use node_lock::OperatorOrder;

/// What a line gives to a worker of its node.
#[derive(Debug, Drop)]
pub enum PlanTurn {
    /// The intake polls the link from this node.
    Poll(NodeId),
    /// The clock fires this timer.
    Fire(Timer),
    /// The operator does this.
    Do(OperatorOrder),
}
