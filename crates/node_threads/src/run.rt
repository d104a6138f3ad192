//! A whole run.

ghost use Rattle.std.specs.Prelude.{◌≡◌, ◌≤◌, ℕ, Bool, List, IfOk, IfErr, length};
ghost use Rattle.node_lock.specs.declared.worker.Worker.{Worker};
ghost use Rattle.node_lock.specs.Planned.{Planned};
ghost use Rattle.group_task.specs.declared.node.TheConstants.{NODES};
ghost use Rattle.node_threads.specs.Nodes.{PollOthers};
ghost use Rattle.node_threads.specs.Reasons.{FirstFit, IsReason};
ghost use Rattle.node_threads.specs.Whole.{IsWhole};

use crate::ended::{reason_of, take_all};
use crate::fault::ThreadsFault;
use crate::gathering::gather_links;
use crate::size::RunSize;
use crate::wiring::{hold_nodes, lock_nodes, wire};
use crate::workers::run_workers;
use link_ring::LinkEnd;
use node_lock::{Gate, Plans, TurnLog};
use std::alloc::{AllocError, Global};
use std::sync::Wait;
use std::thread::Threads;

/// What a run left: a history for each node, by its number, and a link for each ordered pair of different nodes, by sender and
/// then receiver.
#[derive(Debug, Drop)]
pub struct Gathered {
    pub histories: Vec<TurnLog>,
    pub links: Vec<LinkEnd>,
}

/// Opens the nodes of a cluster, runs three workers for each of them side by side, each in a thread of its own, until all
/// plans are used up, and gathers what came of it.
///
/// It returns once all workers have ended, which a gate that waits for ever keeps it from. Which turns of different workers
/// come before which is up to the threads.
pub fn run_threads<R: Threads + Wait + Sync, G: Gate + Send>(
    rt: &R,
    alloc: Global,
    size: RunSize,
    plans: &[Plans],
    gate: &G,
) -> Result<Gathered, ThreadsFault>
    requires nodes { (length plans.now ≡ size.nodes) × (size.nodes ≤ NODES) }
    requires slots { (4 ≤ size.slots) × (size.slots ≤ 4096) }
    requires polls { PollOthers plans.now }
    // Promise: There is one history for each node, and each worker's turns in it are its whole plan, in its order.
    // Refuses: unfinished_gathered, other_plans_gathered.
    // Promise: There is one link for each ordered pair of different nodes, by sender and then receiver.
    // Refuses: links_swapped.
    // Promise: What was put on a link is, in order, some of what the sender's history sent to the receiver, none lost before as
    // many were put as the link has slots.
    // Refuses: links_swapped, job_model::put_dropped.
    // Promise: What was taken from a link is a front of what was put; it is what the receiver's polls of this link took, and all
    // that its history was brought from this sender.
    // Promise: The histories are a bundle, each node's counts rise, and one book agrees with all moments: in a group there is one
    // coordinator and one task.
    // Promise: The messages that a history names as lost are just those of it that went onto no link; each other one is what the link to its
    // receiver carried.
    // Refuses: node_lock::sent_noted_as_lost, node_lock::loss_of_the_next_turn.
    // Promise: The numbers of a node's turns are those that it drew, in their order, and rise.
    // Also: node_lock::TurnNumbers::draw.
    // Refuses: node_lock::one_number_for_all, node_lock::numbers_skipped.
    // Promise: No event is refused because a disk's areas are used up, and the count of failed calls that a history tells rose just at the
    // events that say that the device failed.
    // Also: faults_have_failures.
    // Refuses: node_lock::threads_refused_as_area_exhausted, node_lock::failures_never_shown.
    // Promise: No entry is one that a journal of the run's slots doesn't allow.
    // Refuses: cluster_sim::disks_of_four_slots.
    // Promise: Each job that a node takes out of its journal was finished by a node that had it in hand and owned its queue then;
    // nodes in one group that have jobs of one queue in hand are one.
    // Refuses: last_history_left_out.
    ensures whole { IfOk result (λ run. IsWhole size plans.now run.histories.items run.links.items) }
    // Promise: Only plans of at most 65,536 turns at each node are gathered.
    // Refuses: unfinished_gathered.
    ensures fits { IfOk result (λ _. FirstFit (length plans.now) plans.now) }
    // Promise: `Unfinished` names the first node whose plans have more turns than that, and a worker of it with turns to take.
    // Refuses: unfinished_invented, first_reason_passed_over.
    // Promise: `GateShut` comes only where the gate may shut for a worker of some node, and the nodes before that one have plans
    // that fit.
    // Refuses: gate_shut_invented, first_reason_passed_over.
    ensures reason { IfErr result (λ fault. IsReason G.may_shut plans.now fault) }
{
    let no_memory = |_: AllocError| ThreadsFault::NoMemory;
    let ends = wire(alloc, size.nodes, size.capacity).map_err(no_memory)?;
    let held = hold_nodes(alloc, size, ends, plans).map_err(no_memory)?;
    let locks = lock_nodes(alloc, held).map_err(no_memory)?;
    if let Some(stopped) = run_workers(rt, alloc, &locks, gate).map_err(no_memory)? {
        return Err(reason_of(size, locks, plans, stopped));
    }
    let (histories, left) = match take_all(alloc, size, locks, plans) {
        Ok(ended) => ended,
        Err(fault) => return Err(after_run(fault)),
    };
    let links = match gather_links(alloc, left) {
        Ok(links) => links,
        Err(fault) => return Err(after_run(fault)),
    };
    Ok(Gathered { histories, links })
}

/// What may be wrong once all workers have taken their turns: there is no memory, or what was left doesn't belong together.
fn after_run(fault: ThreadsFault) -> ThreadsFault
    ensures { (may_shut : ℕ → Worker → Bool) (plans : List Planned) → IsReason may_shut plans result }
{
    match fault {
        ThreadsFault::NoMemory => ThreadsFault::NoMemory,
        _ => ThreadsFault::Unpaired,
    }
}
