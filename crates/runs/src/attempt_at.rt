// What a node tried, as a report lists it.
use group_task::NodeId;
use histories::Attempt;

/// A command that a node tried on its disk.
#[derive(Clone, Copy, Debug, PartialEq, Eq)]
pub struct AttemptAt {
    pub node: NodeId,
    pub tried: Attempt,
}
