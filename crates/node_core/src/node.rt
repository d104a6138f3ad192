ghost use Rattle.std.specs.Prelude.{◌≡◌, ◌≢◌, ◌+◌, ◌≤◌, ◌<◌, ◌↔◌, List, length, IfOk, IfErr, IfSome, IsNone, OnErr, OnOk, Err, Some, None, true, []};
ghost use Rattle.job_model.specs.declared.node_command.NodeCommand.TheVariants.{Raise};
ghost use Rattle.job_model.specs.declared.job.Job.{Job};
ghost use Rattle.group_task.specs.declared.node.TheConstants.{NODES};
ghost use Rattle.node_core.specs.declared.event.Event.{Event};
ghost use Rattle.node_core.specs.declared.event.Event.TheVariants.{Deliver, Recover};
ghost use Rattle.node_core.specs.State.{state_of};
ghost use Rattle.node_core.specs.NodeView.{state_at};
ghost use Rattle.node_core.specs.Effects.{effect_of};
ghost use Rattle.node_core.specs.Planned.{gain_of, plan_wants};
ghost use Rattle.node_core.specs.Start.{alone, down};
ghost use Rattle.node_core.specs.Most.{most_of};
ghost use Rattle.node_core.specs.Wait.{IsGreatest, IsMergeWait};
ghost use Rattle.node_core.specs.Core.{IsPlanFor, IsPlanned, CanCarry};

use crate::commit::{apply, invite_each, place, recover, regroup};
use crate::event::Event;
use crate::events::{plan_delivery, plan_event};
use crate::fault::CoreFault;
use crate::node_view::NodeView;
use crate::operator;
use crate::phase::Phase;
use crate::plan::{Plan, PlannedEffect};
use crate::state_update::take_note;
use crate::vector::Vector;
use group_task::{GroupNo, Members, NodeId};
use job_model::JobTable;
use std::alloc::Global;
use std::marker::Model;
use wire_msg::Message;

/// The state machine of one node.
///
/// An event is one atomic step, in this order:
///
/// 1. [`plan_step`](NodeCore::plan_step) refuses the event, or answers a plan, for which it took all memory.
/// 2. The caller carries out the command that [`Plan::wants`], on its disk.
/// 3. [`commit_step`](NodeCore::commit_step) takes the plan and the command's answer, makes the change, and hands out the
///    messages. It is to come before any other call that may change this node.
///
/// A caller whose disk fails drops the plan and goes on with a node that is [`down`](NodeCore::down).
#[derive(Debug, Drop)]
pub struct NodeCore {
    alloc: Global,
    id: NodeId,
    nodes: u8,
    vector: Vector,
}

impl Model for NodeCore {
    ghost use Rattle.std.specs.Prelude.{◌≤◌, ◌<◌};
    ghost use Rattle.node_core.specs.Most.{most_of};
    ghost use Rattle.node_core.specs.Wait.{IsGreatest, IsMergeWait};
    ghost use Rattle.node_core.specs.Core.{Core};

    ghost Value = { Core };

    ghost use Rattle.node_core.specs.State.{state_of};
    ghost use Rattle.node_core.specs.Consistent.{IsConsistent};
    ghost use Rattle.group_task.specs.declared.node.TheConstants.{NODES};

    ghost view = { λ a. record { id = a.id; nodes = a.nodes; state = state_of a.vector; room = a.vector.hand.room } };

    // Promise: The sets of a node hold other nodes of its cluster, its members, its coordinator and the keepers of its jobs are
    // nodes of the cluster; a node that is Normal has a task.
    ghost invariant = { λ a. (1 ≤ a.nodes) × (a.nodes ≤ NODES) × (a.id < a.nodes) × IsConsistent a.nodes a.id (state_of a.vector) };
}

#[tactic(auto, using(crate::proofs::Sets::other_sets))]
impl NodeCore {
    /// A node that is Normal in its own group of this count.
    pub fn new(alloc: Global, id: NodeId, nodes: u8, count: u64) -> NodeCore
        requires within { id < nodes }
        requires nodes { nodes ≤ NODES }
        requires count { 1 ≤ count }
        // Promise: A new node is Normal, alone in its own group of the count; a Down node has one fixed state.
        // Also: NodeCore::down, Vector::down.
        // Refuses: every_group_is_the_first, down_node_is_normal, down_vector_is_normal.
        ensures id { result.id ≡ id }
        ensures nodes { result.nodes ≡ nodes }
        ensures state { result.state ≡ alone id count }
    {
        let group = GroupNo::numbered(id, count);
        let mut vector = Vector::down(alloc, id);
        recover(&mut vector, id, group);
        NodeCore {
            alloc,
            id,
            nodes,
            vector,
        }
    }

    /// A node that is Down, as after a crash. It comes up by the event Recover.
    pub fn down(alloc: Global, id: NodeId, nodes: u8) -> NodeCore
        requires within { id < nodes }
        requires nodes { nodes ≤ NODES }
        ensures id { result.id ≡ id }
        ensures nodes { result.nodes ≡ nodes }
        ensures state { result.state ≡ down id }
    {
        NodeCore {
            alloc,
            id,
            nodes,
            vector: Vector::down(alloc, id),
        }
    }

    /// The node's own identifier.
    pub fn id(&self) -> NodeId
        ensures { result ≡ self.now.id }
    {
        self.id
    }

    /// What the node knows.
    pub fn vector(&self) -> &Vector
        // Promise: What contracts see is the vector.
        // Also: NodeCore::id.
        // Refuses: every_node_is_node_0.
        ensures { state_of result.now ≡ self.now.state }
    {
        &self.vector
    }

    /// How many messages a step may send at most: to each other node, or for each pending job. A caller that makes room for
    /// so many before a step needs no more.
    pub fn most(&self, table: &JobTable) -> usize
        // Promise: `most` is the greater of the number of other nodes and of pending jobs.
        // Refuses: most_forgets_the_jobs.
        ensures { result ≡ most_of self.now.nodes table.now.pending }
    {
        usize::from(self.nodes - 1).max(table.pending().len())
    }

    /// How long a coordinator that found others waits before it merges, in units that the driver chooses: the lower its
    /// number, the longer, so that it is rare for two to invite each other. None where it found none.
    pub fn merge_wait(&self) -> Option<u64>
        // Promise: `merge_wait` is None where no coordinator was found, else by how much the greatest found is above the node (0
        // where it is below).
        // Refuses: merge_wait_swapped.
        ensures none { IsNone result ↔ (self.now.state.found ≡ []) }
        ensures wait { IfSome result (IsMergeWait self.now.id self.now.state.found) }
    {
        let found = self.vector.group_state.found;
        if found.is_empty() {
            return None;
        }
        let greatest = greatest_of(found).number();
        Some(u64::from(greatest.saturating_sub(self.id.number())))
    }

    /// What an event will make of this node, over the table of the jobs that it keeps, with all memory that this takes.
    /// Nothing but room changes. NoMemory comes after all other refusals, and only of an event that takes memory; the same call
    /// may be made again.
    pub fn plan_step<'a>(
        &mut self,
        event: &'a Event,
        table: &JobTable,
    ) -> Result<Plan<'a>, CoreFault>
        // Promise: Planning changes nothing but room; a refused plan changes nothing at all.
        // Also: NodeCore::plan_in.
        // Refuses: room_for_fewer.
        // Promise: A plan is that of the event: its command, its effect for every answer, its number of messages, and all memory
        // that its commit needs.
        // Also: NodeCore::plan_in.
        // Refuses: no_room_for_the_gain, room_for_half_of_the_gain, done_job_forgotten.
        // Promise: A planned event is refused exactly where the table says, in its order; a refusal of the table comes before want
        // of memory.
        // Also: NodeCore::plan_in.
        // Refuses: message_for_another_taken, member_outside_the_cluster, coordinator_takes_no_job.
        // Promise: Want of memory refuses only an event that takes memory by the table `takes_memory`: never ReadyTimer, Recover,
        // Coordinator, Accept, ReadyAck, Done, a Here that says no, a probe without an answer, the Finish of a job that the node
        // itself keeps, or an event whose guard doesn't hold.
        // Also: NodeCore::plan_in, NodeCore::plan_delivery.
        // Refuses: ready_timer_refused, finish_of_an_own_job_refused.
        ensures { IsPlanned self.old self.new table.now.pending event.now result }
    {
        self.plan_in(event, table, Vec::new(self.alloc))
    }

    /// The plan of an event. Its messages are written into `room`, an empty list, so that who plans one event after another takes memory
    /// for a list once.
    pub fn plan_in<'a>(
        &mut self,
        event: &'a Event,
        table: &JobTable,
        room: Vec<Message>,
    ) -> Result<Plan<'a>, CoreFault>
        requires { room.items ≡ [] }
        // Promise: A plan's messages are written into the caller's list, where it is empty.
        // Refuses: messages_of_a_timer_dropped.
        ensures { IsPlanned self.old self.new table.now.pending event.now result }
    {
        let plan = plan_event(self.alloc, room, &self.node_view(), event, table)?;
        self.make_room(&plan)?;
        Ok(plan)
    }

    /// The plan of the event Deliver, for a message that stays where it is: it takes over 400 bytes, and isn't copied. The
    /// answers are written into `room`, an empty list. It stands in each function that calls it, where the parts of the plan are used: who
    /// copies the plan as a whole waits for what the row has just written.
    #[inline(always)]
    pub fn plan_delivery(
        &mut self,
        message: &Message,
        table: &JobTable,
        room: Vec<Message>,
    ) -> Result<Plan<'static>, CoreFault>
        requires { room.items ≡ [] }
        // Promise: A message that stays where it is is planned as the event that delivers it is; the caller's list, where it is
        // empty, takes the answers.
        // Refuses: strangers_alone_heard, delivery_in_the_greatest_cluster, all_to_the_first, reply_lost.
        ensures { IsPlanned self.old self.new table.now.pending (Deliver message.now) result }
    {
        let plan = plan_delivery(self.alloc, room, &self.node_view(), message, table)?;
        self.make_room(&plan)?;
        Ok(plan)
    }

    /// The plan of the event Recover, which is never refused and takes no memory. It is made apart from those of other events, with which
    /// it would be moved as long as the longest of them.
    pub fn plan_recovery(&mut self) -> Result<Plan<'static>, CoreFault>
        // Promise: A recovery that is planned by itself is planned as the event is.
        // Refuses: recovery_keeps_the_group.
        ensures { (pending : List Job) → IsPlanned self.old self.new pending Recover result }
    {
        let plan = operator::recovery(Vec::new(self.alloc), &self.node_view());
        self.make_room(&plan)?;
        Ok(plan)
    }

    /// The node as the rows of the table take it.
    fn node_view(&self) -> NodeView<'_>
        ensures id { result.id ≡ self.now.id }
        ensures nodes { result.nodes ≡ self.now.nodes }
        ensures state { state_at result ≡ self.now.state }
    {
        NodeView {
            id: self.id,
            nodes: self.nodes,
            vector: &self.vector,
        }
    }

    /// Makes room for the jobs that a plan takes in hand.
    fn make_room(&mut self, plan: &Plan<'_>) -> Result<(), CoreFault>
        ensures kept { self.new ≡ record self.old { room = self.new.room } }
        ensures grown { self.old.room ≤ self.new.room }
        ensures room { OnOk result (length self.old.state.hand + gain_of plan.now.act ≤ self.new.room) }
        ensures fault { IfErr result (λ fault. fault ≡ CoreFault.NoMemory) }
        ensures refused { OnErr result ((0 < gain_of plan.now.act) × (self.old.room < length self.old.state.hand + gain_of plan.now.act)) }
        ensures unchanged { OnErr result (self.new ≡ self.old) }
    {
        let hand = &mut self.vector.hand;
        hand.reserve(plan.gain()).map_err(|_| CoreFault::NoMemory)
    }

    /// Carries out the plan that was made last, and answers the messages to be sent, in their order. The answer is that of
    /// the command: the new count of a Raise, the new id of a Put, else any number.
    #[tactic(auto, using(crate::proofs::Sets::other_sets, crate::proofs::Sets::more_from, crate::proofs::Sets::one_from))]
    #[inline(always)]
    pub fn commit_step(&mut self, plan: Plan<'_>, answer: u64) -> Vec<Message>
        requires last { CanCarry self.old plan }
        requires count { plan_wants plan ≡ Some Raise → 1 ≤ answer }
        // Promise: A commit makes the table's new state and messages for the answer handed in; it takes no memory (it has no error,
        // and calls nothing that has one but to append or to list a job in the room that is there).
        // Also: kept.
        // Refuses: deaf_node, applied_without_its_task, invitations_dropped, job_for_its_owner_dropped,
        // recovered_node_is_not_normal, finished_job_stays_in_hand.
        ensures step { (pending : List Job) (event : Event) → IsPlanFor self.old pending event plan.entry
            → effect_of self.old.nodes self.old.id pending event answer self.old.state
            ≡ record { state = self.new.state; sent = result.items } }
        // Promise: No step sends more messages than `most`.
        // Also: NodeCore::most.
        // Refuses: most_forgets_the_jobs.
        ensures few { (pending : List Job) (event : Event) → IsPlanFor self.old pending event plan.entry
            → length result.items ≤ most_of self.old.nodes pending }
        ensures kept { self.new ≡ record self.old { state = self.new.state; room = self.new.room } }
    {
        let Plan { act, mut messages } = plan;
        match act {
            PlannedEffect::Stay(_) => {}
            PlannedEffect::Mark(note) => take_note(&mut self.vector, note),
            PlannedEffect::Apply(change) => apply(&mut self.vector, change),
            PlannedEffect::Invite(receivers) => {
                let group = GroupNo::numbered(self.id, answer);
                regroup(&mut self.vector, self.id, group);
                self.vector.group_state.phase = Phase::Election;
                invite_each(&mut messages, self.id, receivers, group);
            }
            PlannedEffect::Recover => {
                let group = GroupNo::numbered(self.id, answer);
                recover(&mut self.vector, self.id, group);
            }
            PlannedEffect::Place(to, work) => {
                place(&mut self.vector, &mut messages, self.id, to, answer, work);
            }
            PlannedEffect::Finish(origin, job, _) => self.vector.hand.remove(origin, job),
        }
        messages
    }
}

/// The node of the greatest number in the set.
fn greatest_of(ids: Members) -> NodeId
    requires { ids ≢ [] }
    ensures { IsGreatest ids result }
{
    ids.get(ids.len() - 1)
}
