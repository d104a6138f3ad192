//! Whether plans fit a run.

ghost use Rattle.std.specs.Prelude.{◌↔◌, IsTrue};
ghost use Rattle.node_threads.specs.Nodes.{ArePolled, PollOthers};

use group_task::NodeId;
use node_lock::Plans;

/// Whether each intake polls other nodes of the cluster alone, whose nodes these plans are, by their numbers.
pub fn poll_others(plans: &[Plans]) -> bool
    // Promise: Whether plans poll other nodes of the cluster alone.
    // Refuses: poll_of_itself.
    ensures { IsTrue result ↔ PollOthers plans.now }
{
    for node in 0..plans.len() {
        if !are_others(node, plans.len(), plans[node].intake()) {
            return false;
        }
    }
    true
}

/// Whether all of these are other nodes than this one, in a cluster of so many.
fn are_others(node: usize, nodes: usize, polled: &[NodeId]) -> bool
    ensures { IsTrue result ↔ ArePolled node nodes polled.now }
{
    for place in 0..polled.len() {
        let other = usize::from(polled[place].number());
        if other == node || nodes <= other {
            return false;
        }
    }
    true
}
