// A node over its disk.
ghost use Rattle.std.specs.Prelude.{◌≡◌, ◌≢◌, ◌≤◌, ◌<◌, ◌↔◌, [], IsOk, IfOk, IfErr, IsErrOf, IfSome, IsNone, IsSome, IsTrue, Some, None, Err, length, true, false};
ghost use Rattle.group_task.specs.declared.node.TheConstants.{NODES};
ghost use Rattle.job_model.specs.Table.{durable_of};
ghost use Rattle.job_journal.specs.Journal.{AllNumbered, IsSound};
ghost use Rattle.node_core.specs.Start.{down};
ghost use Rattle.node_core.specs.State.{state_of, is_down};
ghost use Rattle.node_core.specs.Wait.{IsMergeWait};
ghost use Rattle.node_store.specs.Store.{slots_for};
ghost use Rattle.durable_node.specs.Area.{Area};
ghost use Rattle.durable_node.specs.Calls.{IsCall};
ghost use Rattle.durable_node.specs.Changes.{AreChangesSince, IsSeenBefore, seen_of};
ghost use Rattle.durable_node.specs.declared.hand_move.HandMove.{HandMove};
ghost use Rattle.durable_node.specs.Compacting.{Compacts, StaysKept, IsMovedNode, IsMovedInto, IsFallenNode};
ghost use Rattle.durable_node.specs.Faults.{answered};
ghost use Rattle.durable_node.specs.Reading.{ReadsDisk};
ghost use Rattle.durable_node.specs.Refusing.{Answers, AnswersTo, compaction_refusal};
ghost use Rattle.durable_node.specs.Remounting.{IsMountedBy, Remounted};
ghost use Rattle.durable_node.specs.Stepping.{AreaGoesOn, CountsOf, Steps, Stuck, most_by};

use crate::advance::{advance, is_down};
use crate::changes::{Changes, Seen};
use crate::compacting::compact;
use crate::fault::NodeFault;
use crate::hand_move::HandMove;
use crate::node_disk::NodeDisk;
use crate::setting::NodeSetting;
use crate::step_report::StepReport;
use group_task::NodeId;
use job_model::JobTable;
use node_core::{Event, NodeCore, Vector, Wanted};
use sector_disk::SectorDisk;
use std::alloc::{AllocError, Global};
use std::marker::Model;
use std::mem;
use wire_msg::Message;

/// The state machine of one node over a disk that failures of the node don't erase.
///
/// An event is one atomic step, in this order:
///
/// 1. All memory is taken, and the event is refused or planned.
/// 2. The plan's command is carried out on the disk.
/// 3. The change is made, and only now the messages are handed out.
///
/// Where the device fails in the second step, the node is Down and nothing is sent: whether the command is on the disk is
/// in doubt, until a recovery mounts the disk.
#[derive(Debug, Drop)]
pub struct DurableNode<D: SectorDisk> {
    pub(crate) setting: NodeSetting,
    pub(crate) core: NodeCore,
    pub(crate) disk: NodeDisk<D>,
    pub(crate) doubt: Option<(Wanted, u64)>,
    // The counter that the last call mounted.
    pub(crate) mounted: Option<u64>,
    // A list whose room the messages of the next event take.
    room: Vec<Message>,
}

impl<D: SectorDisk> Model for DurableNode<D> {
    ghost use Rattle.durable_node.specs.Node.{Node, IsNode, node_with};

    ghost Value = { Node D };

    ghost view = { λ a. node_with a.setting.id a.setting.nodes a.core a.disk a.doubt a.mounted };

    ghost invariant = { λ a. IsNode D.state a.setting.id a.setting.nodes a.core a.disk };
}

impl<D: SectorDisk> DurableNode<D> {
    /// A node that is Down over a disk, as after a crash: it comes up by the event Recover.
    pub fn down(alloc: Global, id: NodeId, nodes: u8, disk: D) -> DurableNode<D>
        requires within { id < nodes }
        requires most { nodes ≤ NODES }
        requires sound { IsSound (slots_for (D.state disk).sectors) (D.state disk) }
        // Promise: A node begins Down over a disk; what is shown of it is its state.
        // Also: DurableNode::id, DurableNode::is_down, DurableNode::merge_wait, DurableNode::vector, DurableNode::durable,
        // DurableNode::into_disk.
        // Refuses: up_without_mounting, durable_where_down, shown_as_node_0, down_where_up, merge_wait_never_shown.
        ensures { result ≡ record { id = id; nodes = nodes; state = down id; disk = Some disk; kept = None; area = None; doubt = None; mounted = None } }
    {
        DurableNode {
            setting: NodeSetting { alloc, id, nodes },
            core: NodeCore::down(alloc, id, nodes),
            disk: NodeDisk::Bare(disk),
            doubt: None,
            mounted: None,
            room: Vec::new(alloc),
        }
    }

    /// A node that is Down is in the one state of a node that is down.
    pub fn is_fallen(&self)
        // Promise: A node that is Down is in one state.
        ensures { is_down self.now.state.phase ≡ true → self.now.state ≡ down self.now.id }
    {
        let _ = &self.core;
    }

    /// A node that is Down shows nothing of what its disk keeps. One that is up shows it, and the number of its area stands in each image that a
    /// crash now may leave.
    pub fn shows_its_disk(&self)
        ensures down { is_down self.now.state.phase ≡ true → (self.now.kept ≡ None) × (self.now.area ≡ None) }
        ensures up { is_down self.now.state.phase ≡ false → IsSome self.now.kept × IsSome self.now.area }
        ensures number { (disk : D) (area : Area) → self.now.disk ≡ Some disk → self.now.area ≡ Some area → IsTrue (D.state disk).honest
            → AllNumbered area.number (D.state disk) }
    {
        if let NodeDisk::Mounted(store) = &self.disk {
            store.is_numbered();
        }
    }

    /// The node's own identifier.
    pub fn id(&self) -> NodeId
        ensures { result ≡ self.now.id }
    {
        self.setting.id
    }

    /// Whether the node is Down.
    pub fn is_down(&self) -> bool
        ensures { result ≡ is_down self.now.state.phase }
    {
        is_down(&self.core)
    }

    /// How long the node waits before it merges, as [`NodeCore::merge_wait`] says.
    pub fn merge_wait(&self) -> Option<u64>
        ensures none { IsNone result ↔ (self.now.state.found ≡ []) }
        ensures wait { IfSome result (IsMergeWait self.now.id self.now.state.found) }
    {
        self.core.merge_wait()
    }

    /// What the node knows.
    pub fn vector(&self) -> &Vector
        ensures { state_of result.now ≡ self.now.state }
    {
        self.core.vector()
    }

    /// Sees the node as it is now: [`DurableNode::changes_since`] says later what changed, whatever happened meanwhile.
    pub fn seen(&self) -> Result<Seen, AllocError>
        ensures { IfOk result (λ seen. seen ≡ seen_of HandMove.Turns self.now.state) }
    {
        Seen::of(self.setting.alloc, self.core.vector(), HandMove::Turns)
    }

    /// Sees the node before one event. Where that drops no job, no job that is in hand is looked at, neither now nor when it is asked what
    /// changed.
    pub fn seen_before(&self, event: &Event) -> Result<Seen, AllocError>
        // Promise: What an event is foreseen to do to the jobs in hand is what it does at any node, whatever comes of it: it leaves them, it adds
        // others behind them, of which none was in hand where so foreseen, or it drops all of them, or it may do anything.
        // Refuses: dropped_hand_foreseen_as_kept, failed_command_foreseen_as_kept.
        ensures { IfOk result (IsSeenBefore event.now self.now.state) }
    {
        let hand_move = HandMove::of(event);
        Seen::of(self.setting.alloc, self.core.vector(), hand_move)
    }

    /// What has changed at the node since it was seen: what is told of its group, the jobs that it took, and those that it dropped.
    pub fn changes_since(&self, seen: &Seen) -> Result<Changes<'_>, AllocError>
        // Promise: What changed since a node was seen is the difference, where its hand moved as was foreseen: its group, where another phase or,
        // unless it is Down, another coordinator, number or members are told; the jobs in hand that weren't; and those that aren't any more.
        // Also: DurableNode::seen.
        // Refuses: group_number_not_compared, takes_what_was_held, drops_what_is_held, hand_seen_without_ids, compared_with_itself,
        // gained_jobs_counted_late, fallen_hand_told_as_kept.
        ensures { IfOk result (AreChangesSince seen.now self.now.state) }
    {
        seen.changes(self.setting.alloc, self.core.vector())
    }

    /// The counter and the jobs that the disk keeps. None where the node is Down.
    pub fn durable(&self) -> Option<(u64, &JobTable)>
        ensures some { IfSome result (λ shown. self.now.kept ≡ Some (durable_of shown.0 shown.1.now)) }
        ensures none { IsNone result → self.now.kept ≡ None }
    {
        if is_down(&self.core) {
            return None;
        }
        match &self.disk {
            NodeDisk::Mounted(store) => Some((store.counter(), store.table())),
            _ => None,
        }
    }

    /// What the last call that could change the node mounted: the counter from before the raise, and the jobs. It is shown
    /// also where that raise was refused or failed. None where that call mounted nothing.
    pub fn mounted(&self) -> Option<(u64, &JobTable)>
        // Promise: `mounted` is what the last call that may change the node mounted, with the counter from before the raise, also
        // where that raise failed or was refused; None exactly where it mounted nothing.
        // Also: DurableNode::step.
        // Refuses: mounted_is_never_none.
        ensures some { IfSome result (λ shown. self.now.mounted ≡ Some (durable_of shown.0 shown.1.now)) }
        ensures none { IsNone result → self.now.mounted ≡ None }
    {
        match (self.mounted, &self.disk) {
            (Some(count), NodeDisk::Mounted(store)) => Some((count, store.table())),
            _ => None,
        }
    }

    /// How many messages an event sends at most: one to each other node, or one for each pending job; none where the node is
    /// Down. A caller that makes room for so many before a [`DurableNode::step`] needs no more.
    pub fn most(&self) -> usize
        ensures { result ≡ most_by self.now.nodes self.now.kept }
    {
        match self.durable() {
            Some((_, table)) => self.core.most(table),
            None => 0,
        }
    }

    /// The command in which the device failed, with the count, or for a job the next id, from before it. It is kept until a
    /// recovery settles it; one that is refused, or whose mounting fails, doesn't.
    pub fn doubt(&self) -> Option<(Wanted, u64)>
        // Promise: `doubt` is the command in which the device failed, with the count, or for a job the next id, from before it; it
        // is kept until a recovery settles it.
        // Also: DurableNode::step.
        // Refuses: doubt_never_shown, doubt_dropped_by_a_crash, doubt_not_noted, doubt_settled_twice.
        ensures { result ≡ self.now.doubt }
    {
        self.doubt
    }
}

impl<D: SectorDisk + Drop> DurableNode<D> {
    /// One event. A node that is Down does nothing but mount its disk, at the event Recover.
    ///
    /// A node that is up refuses it as the core does, then for want of memory, and then where the disk can't take its
    /// command: a raise is `Exhausted` at the greatest counter; a Submit is `Exhausted` where no id is left, then `Full` where
    /// the pending jobs and three more are more than the slots; and a Submit or a job that is done is `Exhausted` where no
    /// slot is free and the area's number is the greatest. [`StepReport::fault`] names them so. A refusal leaves the node as it was.
    /// Where the device failed the node is Down.
    ///
    /// An error is no entry of the node's history, and leaves the node as it was: there is no memory, or the disk can't be
    /// mounted, which is `NotFormatted`, `Damaged` or `TooSmall`.
    pub fn step(&mut self, event: &Event) -> Result<StepReport, NodeFault>
        // Promise: Messages are handed out only where the event was done, and then the command is on the disk: every image that a
        // crash may leave stands for the state with it.
        // Refuses: messages_before_the_store.
        // Promise: A device that failed leaves the node Down, and every image stands for the state with the command or without it;
        // a refusal leaves the node as it was.
        // Refuses: device_fault_leaves_it_up.
        // Promise: A node that is Down mounts its disk at the event Recover, raises the counter that it mounted, and is alone in
        // the group of the new count; at any other event it stays as it is.
        // Also: DurableNode::recover.
        // Refuses: recovery_without_a_raise, mounting_skipped.
        // Promise: What is answered names the event and its work, and doesn't hold them: with the event it is the whole entry of
        // the history, and the whole command that was tried.
        // Also: DurableNode::recover.
        // Refuses: done_answered_as_faulted, failed_command_unanswered.
        ensures id { self.new.id ≡ self.old.id }
        ensures nodes { self.new.nodes ≡ self.old.nodes }
        // What came of it, the command that was tried with its answer, and the messages.
        // Promise: What the call answers is one of the things that may come of the event (`histories`, `specs/Possible`), and node,
        // disk and doubt then stand as `specs/After` says; so do the command that was tried, its answer, the messages and what was
        // mounted.
        // Also: DurableNode::recover.
        // Refuses: another_event_done, recover_only_checks, counter_kept_in_memory, done_answered_as_faulted,
        // failed_command_unanswered, kept_flag_turned.
        ensures step { IfOk result (Steps D.state self.old self.new event.now) }
        // Promise: An error is no entry of a history: want of memory, which leaves the node as it was, or a disk that can't be
        // mounted, which no history leaves, and that leaves all but the disk.
        // Also: DurableNode::recover.
        // Refuses: no_memory_brings_it_down.
        // Promise: Want of memory brings an event to nothing only where it takes memory: at a node that is up by the table
        // `takes_memory`, so never a ReadyTimer; at a node that is Down a recovery alone.
        // Also: DurableNode::recover.
        // Refuses: ready_timer_wants_memory, down_node_wants_memory.
        ensures stuck { IfErr result (Stuck D.state self.old self.new event.now) }
        // Promise: A node that is up refuses an event exactly where the core's table does, with that very refusal, over any disk.
        // Also: DurableNode::recover.
        // Refuses: refusal_answered_as_no_memory.
        // Promise: Want of memory aside, it refuses besides exactly where the disk can't take the command: `Exhausted` at the
        // greatest counter or id, `Full` for a new job without room, `Exhausted` at the greatest number of the area, in this order;
        // a finished job is never `Full`.
        // Also: DurableNode::recover.
        // Refuses: full_at_will, done_refused_full.
        ensures answers { Answers self.old event.now (answered result) }
        // Promise: Over any disk the node has its disk before and after the call; `Device` comes only where the disk's count of
        // failures rose or is the greatest, every other answer leaves it; size and honesty of the disk stay.
        // Also: DurableNode::recover, DurableNode::compact.
        // Refuses: device_answered_without_a_failure.
        ensures counts { CountsOf D.state self.old.disk self.new.disk (answered result) }
        // Promise: What a done event wrote stands in each image of an honest disk in today's spelling: its command's record, behind
        // those of a compaction where no slot was free; a compaction's records likewise.
        // Also: DurableNode::recover, DurableNode::compact.
        // Refuses: job_journal::old_spelling_appended, job_journal::old_spelling_kept.
        ensures area { AreaGoesOn D.state self.old self.new event.now (answered result) }
        // Over any disk, honest or not.
        // Promise: Over any disk, a recovery of a node that is Down mounts nothing, is refused for it and leaves the node; or it
        // mounts a counter and jobs, and then is alone in the next group, or Down where the raise failed or no count is left.
        // Also: DurableNode::recover.
        // Refuses: recovery_without_a_raise.
        ensures mounting { is_down self.old.state.phase ≡ true → event.now ≡ Event.Recover → Remounted self.old self.new (answered result) self.new.mounted }
        // Promise: Over any disk, a mounting answers whether the command that was in doubt counted: the count or the next id went
        // on, or the job is gone.
        // Also: DurableNode::recover.
        // Refuses: kept_flag_turned.
        // Promise: Over any disk, such a recovery answers `TooSmall` exactly where the disk has fewer than 24 sectors, without a
        // call; an honest disk is answered as `NotFormatted` or `Damaged` only for what it reads first of all that isn't allowed.
        // Also: DurableNode::recover.
        // Refuses: unformatted_answered_as_too_small.
        // Promise: What is mounted is what the disk reads; and where nothing is mounted nothing was written.
        // Also: DurableNode::recover.
        ensures mounted { is_down self.old.state.phase ≡ true → event.now ≡ Event.Recover → IfOk result (λ came. IsMountedBy self.old.doubt came.event_outcome self.new.mounted) × ReadsDisk D.state self.old.disk self.new.disk (answered result) self.new.mounted }
        // Promise: No call hands out more messages than there are other nodes or pending jobs, and a node that is Down hands out
        // none; `most` answers that number.
        // Also: DurableNode::most.
        // Refuses: message_sent_twice, most_leaves_out_the_jobs.
        ensures few { IfOk result (λ came. length came.sent.items ≤ most_by self.old.nodes self.old.kept) }
    {
        let mut room = mem::replace(&mut self.room, Vec::new(self.setting.alloc));
        room.clear();
        advance(
            self.setting,
            &mut self.core,
            &mut self.disk,
            &mut self.doubt,
            &mut self.mounted,
            event,
            room,
        )
    }

    /// Takes back the list of messages that a report handed out: those of the next event are written into its room. A caller that
    /// gives each list back takes memory for one list alone.
    pub fn reuse(&mut self, sent: Vec<Message>)
        // Promise: A list that is given back changes nothing of the node: the messages of the next event alone stand in it then.
        // Refuses: messages_of_the_step_before.
        ensures { self.new ≡ self.old }
    {
        self.room = sent;
    }

    /// The event Recover: a node that is Down mounts its disk, and each node is then alone in a new group.
    pub fn recover(&mut self) -> Result<StepReport, NodeFault>
        ensures id { self.new.id ≡ self.old.id }
        ensures nodes { self.new.nodes ≡ self.old.nodes }
        ensures call { IsCall D.state self.old self.new Event.Recover result }
    {
        self.step(&Event::Recover)
    }

    /// Moves the pending jobs into the other area of the journal, where they take one slot each, and one more. What the
    /// disk stands for stays the same, in each image that a crash may leave meanwhile. It takes no memory, and sends nothing.
    ///
    /// Refused in the order `Core(Down)`, `Exhausted` (the area's number is the greatest), `Device`. After `Device` the
    /// node is Down, with no command in doubt.
    pub fn compact(&mut self) -> Result<(), NodeFault>
        ensures id { self.new.id ≡ self.old.id }
        ensures nodes { self.new.nodes ≡ self.old.nodes }
        // Promise: A compaction is refused in the order `Core(Down)`, `Exhausted` (the number of the area is the greatest),
        // `Device`, and exactly so; refused, it changes nothing; after `Device` the node is Down with the doubt as it was.
        // Also: refused, fallen.
        // Refuses: failed_compaction_leaves_it_up, compacted_while_down.
        ensures answers { AnswersTo (compaction_refusal self.old.area) result }
        // Promise: Of each state that the node stood for came one of the entries that a history has for a compaction: it rests,
        // done or refused, or it stands as a crash; the node stands for the state after it.
        // Refuses: failed_compaction_leaves_it_up.
        ensures step { Compacts D.state self.old self.new result }
        // Promise: Done, a compaction moves the jobs into the other area and changes nothing else that the node shows; in every
        // image since its start the disk stands for what the node kept.
        // Also: images.
        // Refuses: compaction_only_promised, compaction_forgets_jobs.
        ensures moved { IsOk result → IsMovedNode self.old self.new }
        ensures spelled { IsMovedInto D.state self.old self.new result }
        ensures fallen { IsErrOf result NodeFault.Device → IsFallenNode self.old self.new }
        ensures refused { IfErr result (λ fault. fault ≢ NodeFault.Device → self.new ≡ record self.old { mounted = None }) }
        ensures images { StaysKept D.state self.old self.new }
        ensures counts { CountsOf D.state self.old.disk self.new.disk result }
    {
        compact(
            self.setting,
            &mut self.core,
            &mut self.disk,
            &self.doubt,
            &mut self.mounted,
        )
    }

    /// The disk alone, as it is.
    pub fn into_disk(self) -> D
        ensures { self.disk ≡ Some result }
    {
        let DurableNode { disk, .. } = self;
        disk.into_disk()
    }
}
