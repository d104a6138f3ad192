//! How large a run is.

ghost use Rattle.std.specs.Prelude.{◌≡◌};
ghost use Rattle.node_threads.specs.Nodes.{run_at};

use group_task::NodeId;
use node_lock::Run;

/// How many nodes there are, how many slots an area of each disk has, and how many messages find room on each link.
#[derive(Clone, Copy, PartialEq, Eq, Debug)]
pub struct RunSize {
    pub nodes: u8,
    pub slots: u64,
    pub capacity: usize,
}

impl RunSize {
    /// A node of a run of this size.
    pub(crate) fn run(&self, node: NodeId) -> Run
        ensures { result ≡ run_at self.now node }
    {
        Run {
            node,
            nodes: self.nodes,
            slots: self.slots,
            capacity: self.capacity,
        }
    }
}
