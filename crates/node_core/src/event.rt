use crate::timer::Timer;
use group_task::NodeId;
use job_model::Work;
use wire_msg::Message;

/// What can happen at a node.
#[derive(Clone, Copy, Debug, PartialEq, Eq)]
pub enum Event {
    Timer(Timer),
    Deliver(Message),
    /// A new job.
    Submit(Work),
    /// The work on a job in hand is finished: its origin, which keeps it, and its id there.
    Finish(NodeId, u64),
    /// The node gives its group up and is alone in a new one (Recovery).
    Recover,
}
