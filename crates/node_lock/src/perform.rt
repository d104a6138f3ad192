// One event at a node.
ghost use Rattle.std.specs.Prelude.{◌≡◌, ◌<◌, ◌≤◌, ◌^◌, ℕ, IfOk, IfErr, length, None, Some, true};
ghost use Rattle.job_model.specs.Durable.{Durable};
ghost use Rattle.group_task.specs.Ids.{IsSet, has};
ghost use Rattle.group_task.specs.Assignment.{Assignment};
ghost use Rattle.durable_node.specs.Stepping.{most_by};
ghost use Rattle.histories.specs.EventOutcomes.{what_of};
ghost use Rattle.node_lock.specs.declared.held.HeldFault.TheVariants.{NoMemory};
ghost use Rattle.node_lock.specs.Doing.{Did, StandsForSome};
ghost use Rattle.node_lock.specs.Sending.{addressed_to, most_to};
ghost use Rattle.node_lock.specs.Wearing.{AreaRises};

use crate::held::HeldFault;
use durable_node::{DurableNode, StepReport};
use histories::EventOutcome;
use node_core::Event;
use sector_disk::MemDisk;
use wire_msg::Message;

/// Does one event: what came of it, and what was sent, to one node no more than [`reserve_puts`](crate::links::reserve_puts) makes room
/// for. The disk forgets the moments before.
///
/// An error is want of memory: the disk of a node that has a history can be mounted.
pub(crate) fn perform(
    node: &mut DurableNode<MemDisk>,
    event: &Event,
) -> Result<(EventOutcome, Vec<Message>), HeldFault>
    requires stands { StandsForSome node.old }
    ensures id { node.new.id ≡ node.old.id }
    ensures nodes { node.new.nodes ≡ node.old.nodes }
    ensures did { IfOk result (λ r. Did node.old event.now (what_of event.now r.0) r.1.items node.new) }
    ensures few { IfOk result (λ r. length r.1.items ≤ most_by node.old.nodes node.old.kept) }
    // Promise: A turn makes room on each link for what its event can send to its receiver: for a dispatch one message for each pending
    // job where the receiver is a member of the node's group and the node is Normal, else none; for any other event one.
    // Also: reserve_puts.
    // Refuses: dispatch_has_room_for_one, no_room_for_work_to_node_0.
    ensures each { IfOk result (λ r. (j : ℕ) → length (addressed_to j r.1.items) ≤ most_to event.now node.old.state node.old.kept j) }
    // Promise: The areas of a node's disk are never used up in a run in threads: no event is refused as if they were.
    // Refuses: threads_refused_as_area_exhausted.
    ensures area { IfOk result (λ r. AreaRises node.old.disk node.new.disk (what_of event.now r.0)) }
    ensures memory { IfErr result (λ fault. (fault ≡ NoMemory) × (node.new ≡ record node.old { mounted = None })) }
{
    note_sets(node);
    note_task(node);
    note_ids(node);
    node.is_fallen();
    node.shows_its_disk();
    match node.step(event) {
        Ok(came) => {
            node.forget();
            let StepReport {
                event_outcome,
                sent,
                ..
            } = came;
            Ok((event_outcome, sent))
        }
        Err(_) => Err(HeldFault::NoMemory),
    }
}

/// The nodes that accepted, and those that were found, are sets. It does nothing.
fn note_sets(node: &DurableNode<MemDisk>)
    ensures { IsSet node.now.state.up × IsSet node.now.state.found }
{
    let group_state = &node.vector().group_state;
    let _ = group_state.up.len();
    let _ = group_state.found.len();
}

/// The creator of the node's task is a member by it. It does nothing.
fn note_task(node: &DurableNode<MemDisk>)
    ensures { (task : Assignment) → node.now.state.task ≡ Some task → has task.members task.group.creator ≡ true }
{
    if let Some(task) = node.vector().group_state.task {
        let _ = task.members();
    }
}

/// The id of the next job is a number of 64 bits. It does nothing.
fn note_ids(node: &DurableNode<MemDisk>)
    ensures { (d : Durable) → node.now.kept ≡ Some d → d.next < 2 ^ 64 }
{
    if let Some((_, table)) = node.durable() {
        let _ = table.next();
    }
}
