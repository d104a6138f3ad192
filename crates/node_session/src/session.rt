// A node that is fed with lines, and what it answers.
ghost use Rattle.std.specs.Prelude.{◌≡◌, ◌<◌, ◌≤◌, ◌+◌, ◌++◌, ◌∷◌, ◌↔◌, List, ℕ, [], All, IfOk, IfSome, IsNone, OnOk, IsTrue, Ok, Err, None, Some, false, take, drop, length};
ghost use Rattle.group_task.specs.declared.node.TheConstants.{NODES};
ghost use Rattle.job_journal.specs.Journal.{IsSound};
ghost use Rattle.job_model.specs.Durable.{Durable};
ghost use Rattle.node_store.specs.Store.{slots_for};
ghost use Rattle.node_core.specs.declared.fault.CoreFault.TheVariants.{NoMemory};
ghost use Rattle.line_words.specs.Lines.{lines_of};
ghost use Rattle.node_session.specs.declared.asked.Asked.TheVariants as ask;
ghost use Rattle.node_session.specs.Seals.{asked_under, life_of, sealed_behind, taken_under, written};
ghost use Rattle.node_session.specs.Chains.{ComesAndEnds, IsAtOnce, IsToldBy, brought_up, is_failed};
ghost use Rattle.node_session.specs.Serving.{opened_by, Calls, FedAtOnce, Replies, Serves, Turns};
ghost use Rattle.node_session.specs.Timing.{lost_by, Fires, GivesUp, IsDueAt, IsSeen, IsToldNext, Nothing, Spends, Timely};
ghost use Rattle.durable_node.specs.Faults.{answered};
ghost use Rattle.durable_node.specs.Node.{Stands};
ghost use Rattle.histories.specs.NodeState.{NodeState};
ghost use Rattle.node_core.specs.State.{is_down, state_of};
ghost use Rattle.node_timers.specs.Retransmission.{sent_again, waits_on};
ghost use Rattle.wire_msg.specs.Spelling.{IsMessage};
ghost use Rattle.node_session.specs.Text.{fired_line, fired_news, no_news, send_lines};
ghost use Rattle.node_session.specs.Turns.{compaction_end, ended_by, sent_by, IsFired, MayComeOf, MayCompact};

use crate::asked::{Asked, read_line};
use crate::call_outcome::{CallOutcome, EventEnds};
use crate::changes::{is_finish, push_changes, push_gone};
use crate::closing::{push_closing, push_event_closing};
use crate::due::{next_due, push_next};
use crate::fired::push_fired;
use crate::seals::Seal;
use crate::sending::push_messages;
use crate::showing::{push_at_once, push_keeps_news};
use crate::timers::{MOST_FIRED, Timers};
use crate::unread::Unread;
use durable_node::{DurableNode, NodeFault, StepReport};
use group_task::NodeId;
use line_words::cut_line;
use node_core::{CoreFault, Event, Phase, Timer, Vector};
use node_timers::{NodeSnapshot, Retransmission, TimerSettings};
use sector_disk::SectorDisk;
use std::alloc::{AllocError, Global};
use std::marker::Model;
use wire_msg::Message;

/// A node over its disk, and what it has answered so far.
#[derive(Drop)]
pub struct Session<D: SectorDisk> {
    alloc: Global,
    node: DurableNode<D>,
    timers: Timers,
    waiting: Retransmission,
    stopped: bool,
    count: u64,
    text: Vec<u8>,
    unread: Unread,
    // room for the spelling of a message
    bytes: Vec<u8>,
    seal: Option<Seal>,
}

impl<D: SectorDisk> Model for Session<D> {
    ghost use Rattle.node_session.specs.Serving.{Progress};

    ghost Value = { Progress D };

    ghost view = { λ a. record { node = a.node; stopped = a.stopped; count = a.count; text = a.text.items; rest = a.unread; waits = a.waiting; timers = a.timers; seal = a.seal } };
}

impl<D: SectorDisk> Session<D> {
    /// A session of a node that is Down over its disk. The setting and the seed say which timers fire in a tick.
    pub fn new(
        alloc: Global,
        id: NodeId,
        nodes: u8,
        disk: D,
        setting: TimerSettings,
        seed: u64,
    ) -> Session<D>
        requires within { id < nodes }
        requires most { nodes ≤ NODES }
        requires sound { IsSound (slots_for (D.state disk).sectors) (D.state disk) }
        // Promise: The policy of a session's timers begins with the seed that it is given.
        // Refuses: one_seed_for_all_sessions.
        ensures { result ≡ opened_by seed id nodes setting disk }
    {
        Session {
            alloc,
            node: DurableNode::down(alloc, id, nodes, disk),
            timers: Timers::new(setting, id, seed),
            waiting: Retransmission::new(alloc, setting.unit),
            stopped: false,
            count: 0,
            text: Vec::new(alloc),
            unread: Unread::new(alloc),
            bytes: Vec::new(alloc),
            seal: None,
        }
    }

    /// From now on messages are sealed, and taken sealed alone.
    pub fn seal(&mut self, seal: Seal)
        ensures { self.new ≡ record self.old { seal = Some seal } }
    {
        self.seal = Some(seal);
    }

    /// What was answered since the last clearing.
    pub fn text(&self) -> &[u8]
        ensures { result.now ≡ self.now.text }
    {
        &self.text
    }

    /// What was answered is written, and forgotten.
    pub fn clear(&mut self)
        ensures { self.new ≡ record self.old { text = [] } }
    {
        self.text.clear();
    }

    /// What the file keeps of an up node: the counter, the id of the next job, and the number of jobs. Each command but a compaction changes one of them.
    pub fn kept(&self) -> Option<(u64, u64, u64)>
        ensures some { IfSome result (λ kept. (d : Durable) × (self.now.node.kept ≡ Some d) × (kept ≡ (d.counter, d.next, length d.pending))) }
        ensures none { IsNone result → self.now.node.kept ≡ None }
    {
        let (count, table) = self.node.durable()?;
        Some((count, table.next(), table.pending().len() as u64))
    }

    /// A command took so many milliseconds: the node's timers don't wait for them. Where the node raised its counter in it, other nodes are reckoned to
    /// take as long for that.
    pub fn took(&mut self, ms: u64)
        // Promise: What a node is told that its own commands took isn't waited for: the next tick counts so much less. Where it was the first in a
        // group that the node made, other nodes are reckoned to take as long for a raise.
        // Refuses: own_sync_waited_for_by_the_session.
        ensures same { self.new ≡ record self.old { timers = self.new.timers } }
        ensures spent { Spends self.old.node.id ms self.old.node.state self.old.timers self.new.timers }
    {
        let id = self.node.id();
        self.timers.spend(ms, id, self.node.vector());
    }

    /// Whether the device failed. The answer that says it is the last one.
    pub fn has_stopped(&self) -> bool
        ensures { result ≡ self.now.stopped }
    {
        self.stopped
    }
}

impl<D: SectorDisk + Drop> Session<D> {
    /// The disk alone, as it is.
    pub fn into_disk(self) -> D
        ensures { self.node.disk ≡ Some result }
    {
        let Session { node, .. } = self;
        node.into_disk()
    }

    /// Takes a piece of the input, and answers each line that is whole now. Where memory runs out, it says so, and
    /// nothing more is to be written.
    pub fn feed(&mut self, piece: &[u8]) -> Result<(), AllocError>
        // Promise: Over any disk the node does, for each whole line, one of the things that the definitions allow for it, and the text
        // says so: the messages, what changed, and one closing line.
        // Refuses: answered_before_the_disk, line_answered_twice, bad_line_ends_serving, sent_to_the_sender, drops_unwritten,
        // takes_unwritten, durable_node::group_number_not_compared, durable_node::takes_what_was_held, gone_before_it_is_done,
        // jobs_answered_by_the_state, no_memory_goes_on.
        // Promise: Over any disk each call that a line makes is one of which all holds that `durable_node` says of a step and of a
        // compaction: each refusal comes exactly where its rule says, `Device` only where the disk's count of failures rose or is the
        // greatest, and what is mounted is what the disk reads.
        // Also: Session::turn, Session::compact, stops_where_failed, device_where_failed, exhausted_where_none_left.
        // Refuses: device_fault_at_will, submit_refused_as_area_exhausted, recovery_answered_damaged, done_refused_as_area_exhausted, compaction_refused_at_will.
        // Promise: A tick or a loss names each event that it makes; a recovery writes what is kept; a tick sends again what the
        // node sent and still waits for, once a round trip.
        // Refuses: node_words::fired_as_another, sent_again_without_end, node_timers::sent_again_at_once.
        // Promise: Behind the line that says that the device failed nothing is answered.
        // Refuses: device_goes_on.
        // Promise: What was fed decides the text, however it was cut, and what was written of it may be cleared; what isn't a whole
        // line is kept.
        // Also: any_cutting, any_clearing.
        // Refuses: rest_is_dropped.
        // Promise: A tick makes the events of those timers that are due as the policy says, each of them that is due where the one before it left
        // the node, until none is, 16 fired or one was denied; a loss makes the one event that is due behind it; what comes is heard. The line
        // `next` says when something is due next.
        // Also: Session::fire_due, Session::give_up, Session::next_due, at_once_is_fed, any_taking.
        // Refuses: timer_never_fires, next_is_never, each_due_timer_recovers, loss_ignored, nobody_heard, new_group_not_told.
        ensures { OnOk result (FedAtOnce D.state self.old piece.now self.new) }
    {
        if self.unread.is_empty() {
            return self.answer_whole(piece);
        }
        let Some(_) = cut_line(piece) else {
            return self.unread.push(piece);
        };
        let mut whole = self.unread.take(self.alloc);
        whole.extend_from_slice(piece)?;
        self.answer_whole(&whole)
    }

    /// Answers the whole lines of a text behind which nothing is kept, and keeps what stands behind the last.
    fn answer_whole(&mut self, whole: &[u8]) -> Result<(), AllocError>
        requires { self.old.rest ≡ [] }
        ensures { OnOk result (FedAtOnce D.state self.old whole.now self.new) }
    {
        let left = self.answer_lines(whole)?;
        self.unread.push(left)?;
        Ok(())
    }

    /// Answers the whole lines of a text, and gives what stands behind the last.
    fn answer_lines<'a>(&mut self, whole: &'a [u8]) -> Result<&'a [u8], AllocError>
        ensures rest { self.new.rest ≡ self.old.rest }
        ensures lines { IfOk result (λ left. (lines : List (List ℕ)) × (lines_of whole.now ≡ lines ++ left.now ∷ []) × Serves D.state Nothing self.old self.new lines) }
        ensures last { IfOk result (λ left. lines_of left.now ≡ left.now ∷ []) }
    {
        let mut left = whole;
        while let Some((line, behind)) = cut_line(left) {
            self.answer_line(line)?;
            left = behind;
        }
        Ok(left)
    }

    fn answer_line(&mut self, line: &[u8]) -> Result<(), AllocError>
        ensures rest { self.new.rest ≡ self.old.rest }
        ensures line { OnOk result (Serves D.state Nothing self.old self.new (line.now ∷ [])) }
    {
        if self.stopped {
            return Ok(());
        }
        let asked = self.read(line)?;
        let start = self.text().len();
        self.answer(&asked)?;
        self.seal_from(start)
    }

    /// What a line asks for. Under a key, the stamp of a message that is taken is kept.
    fn read(&mut self, line: &[u8]) -> Result<Asked, AllocError>
        ensures rest { self.new.rest ≡ self.old.rest }
        ensures asked { IfOk result (λ asked. asked ≡ asked_under self.old.seal line.now) }
        ensures taken { OnOk result (self.new ≡ record self.old { seal = taken_under self.old.seal line.now }) }
    {
        match &mut self.seal {
            None => read_line(self.alloc, line),
            Some(seal) => seal.read(self.alloc, line),
        }
    }

    /// Seals the messages of an answer, which begins at this place.
    fn seal_from(&mut self, start: usize) -> Result<(), AllocError>
        ensures same { self.new ≡ record self.old { text = self.new.text; seal = self.new.seal } }
        ensures text { (s : NodeState) → Stands D.state self.old.node s
            → OnOk result (self.new.text ≡ take start self.old.text ++ written self.old.seal (life_of s) (drop start self.old.text)) }
        ensures seal { (s : NodeState) → Stands D.state self.old.node s
            → OnOk result (self.new.seal ≡ sealed_behind self.old.seal (life_of s) (drop start self.old.text)) }
    {
        let life = self.life();
        match &mut self.seal {
            Some(seal) if start <= self.text.len() => {
                seal.seal_from(&mut self.text, start, life)
            }
            _ => Ok(()),
        }
    }

    /// The count that the node keeps. One that is Down has none.
    fn life(&self) -> Option<u64>
        ensures { (s : NodeState) → Stands D.state self.now.node s → result ≡ life_of s }
    {
        match self.node.durable() {
            Some((count, _table)) if !self.node.is_down() => Some(count),
            _ => None,
        }
    }

    fn answer(&mut self, asked: &Asked) -> Result<(), AllocError>
        requires { self.old.stopped ≡ false }
        ensures rest { self.new.rest ≡ self.old.rest }
        ensures replies { OnOk result (Replies D.state self.old self.new asked.now) }
    {
        match asked {
            Asked::Nothing => Ok(()),
            Asked::Event(event) => self.answer_event(event),
            Asked::Compact => self.answer_compaction(),
            Asked::Tick(now) => self.answer_tick(*now),
            Asked::Lost(node) => self.answer_loss(*node),
            Asked::State | Asked::Jobs | Asked::Bad | Asked::Refused(_) => {
                self.answer_at_once(asked)
            }
        }
    }

    fn answer_event(&mut self, event: &Event) -> Result<(), AllocError>
        requires { self.old.stopped ≡ false }
        ensures rest { self.new.rest ≡ self.old.rest }
        ensures replies { OnOk result (Replies D.state self.old self.new (ask.Event event.now)) }
    {
        let number = self.next_number()?;
        self.timers.hear(event);
        let ends = self.make(event)?;
        self.stop_where_failed(&ends.last);
        let ended = ends.of_event();
        push_keeps_news(&mut self.text, event, &ended, &self.node)?;
        push_event_closing(&mut self.text, number, event, &ended)
    }

    fn answer_compaction(&mut self) -> Result<(), AllocError>
        requires { self.old.stopped ≡ false }
        ensures rest { self.new.rest ≡ self.old.rest }
        ensures replies { OnOk result (Replies D.state self.old self.new ask.Compact) }
    {
        let number = self.next_number()?;
        let ended = self.compact()?;
        self.stop_where_failed(&ended);
        push_closing(&mut self.text, number, &ended)
    }

    fn answer_tick(&mut self, now: u64) -> Result<(), AllocError>
        requires { self.old.stopped ≡ false }
        ensures rest { self.new.rest ≡ self.old.rest }
        ensures replies { OnOk result (Replies D.state self.old self.new (ask.Tick now)) }
    {
        let number = self.next_number()?;
        self.timers.pass(now);
        self.send_again(now)?;
        let ended = self.fire_due()?;
        self.stop_where_failed(&ended);
        let due = self.next_due(now);
        push_next(&mut self.text, due)?;
        push_closing(&mut self.text, number, &ended)
    }

    fn answer_loss(&mut self, node: NodeId) -> Result<(), AllocError>
        requires { self.old.stopped ≡ false }
        ensures rest { self.new.rest ≡ self.old.rest }
        ensures replies { OnOk result (Replies D.state self.old self.new (ask.Lost node)) }
    {
        let number = self.next_number()?;
        let ended = self.give_up(node)?;
        self.stop_where_failed(&ended);
        push_closing(&mut self.text, number, &ended)
    }

    /// Answers what makes no call of the node.
    fn answer_at_once(&mut self, asked: &Asked) -> Result<(), AllocError>
        requires runs { self.old.stopped ≡ false }
        requires at_once { IsAtOnce asked.now }
        ensures rest { self.new.rest ≡ self.old.rest }
        ensures replies { OnOk result (Replies D.state self.old self.new asked.now) }
    {
        let number = self.next_number()?;
        push_at_once(&mut self.text, &self.node, number, asked)
    }

    /// Counts one request more. No program lives to count 2^64 of them.
    fn next_number(&mut self) -> Result<u64, AllocError>
        ensures number { IfOk result (λ number. (number ≡ self.old.count + 1) × (self.new ≡ record self.old { count = number })) }
        ensures same { self.new.rest ≡ self.old.rest }
    {
        let Some(number) = self.count.checked_add(1) else {
            return Err(AllocError);
        };
        self.count = number;
        Ok(number)
    }

    /// Once the device failed, no line is answered any more.
    fn stop_where_failed(&mut self, ended: &CallOutcome)
        ensures { self.new ≡ record self.old { stopped = is_failed ended.now } }
    {
        self.stopped = matches!(ended, Err(NodeFault::Device));
    }

    /// Sends again what is waited for and due at this time.
    fn send_again(&mut self, now: u64) -> Result<(), AllocError>
        ensures again { OnOk result (self.new ≡ record self.old { text = self.old.text ++ send_lines (sent_again now self.old.waits); waits = waits_on now self.old.waits }) }
        ensures messages { OnOk result (All IsMessage (sent_again now self.old.waits)) }
        ensures rest { self.new.rest ≡ self.old.rest }
    {
        let due = self.waiting.due(now)?;
        push_messages(&mut self.text, &mut self.bytes, &due)?;
        self.waiting.go_on(now)
    }

    /// Makes the events that are due at the time that was told.
    fn fire_due(&mut self) -> Result<CallOutcome, AllocError>
        ensures rest { self.new.rest ≡ self.old.rest }
        ensures calls { IfOk result (λ ended. Calls D.state self.old self.new fired_news (Timely (Fires self.old.waits self.old.timers self.new.timers)) (Ok None) ended) }
    {
        let mut ended = Ok(None);
        for _fired in 0..MOST_FIRED {
            let Some(event) = self.due() else {
                return Ok(ended);
            };
            self.add_fired(&event)?;
            ended = self.turn(&event)?;
            if ended.is_err() {
                return Ok(ended);
            }
        }
        Ok(ended)
    }

    /// The event that is due.
    fn due(&mut self) -> Option<Event>
        ensures same { self.new ≡ record self.old { timers = self.new.timers } }
        ensures fired { IfSome result IsFired }
        ensures due { (s : NodeState) → Stands D.state self.old.node s
            → IsDueAt self.old.node.id s self.old.waits self.old.timers result self.new.timers }
    {
        let snapshot = self.snapshot();
        self.timers.due(&snapshot, &self.waiting)
    }

    /// When something is due next, where nothing comes. A node that is Down waits for nothing.
    fn next_due(&self, now: u64) -> Option<u64>
        ensures told { IsToldBy (is_down self.now.node.state.phase) result }
        ensures next { (s : NodeState) → Stands D.state self.now.node s
            → IfSome result (IsToldNext self.now.node.id s self.now.waits self.now.timers now) }
    {
        let snapshot = self.snapshot();
        match snapshot.phase {
            Phase::Down => None,
            _ => Some(next_due(self.timers.policy(), &self.waiting, &snapshot, now)),
        }
    }

    /// What the policy of timers sees of the node.
    fn snapshot(&self) -> NodeSnapshot
        ensures phase { result.phase ≡ self.now.node.state.phase }
        ensures seen { (s : NodeState) → Stands D.state self.now.node s → IsSeen self.now.node.id s result }
    {
        let id = self.node.id();
        let vector = self.node.vector();
        let merge_wait = self.node.merge_wait();
        match self.node.durable() {
            Some((_count, table)) => NodeSnapshot::of(id, vector, merge_wait, &table.pending()),
            None => NodeSnapshot::without_jobs(id, vector, merge_wait),
        }
    }

    /// Names an event that the session makes by itself.
    fn add_fired(&mut self, event: &Event) -> Result<(), AllocError>
        ensures text { OnOk result (self.new ≡ record self.old { text = self.old.text ++ fired_line event.now }) }
        ensures rest { self.new.rest ≡ self.old.rest }
    {
        push_fired(&mut self.text, event)
    }

    /// A node that the transport gave up isn't waited for: its coordinator leaves the group, and a member asks or leaves.
    fn give_up(&mut self, node: NodeId) -> Result<CallOutcome, AllocError>
        ensures rest { self.new.rest ≡ self.old.rest }
        ensures calls { IfOk result (λ ended. Calls D.state self.old self.new fired_news (Timely (GivesUp node self.old.timers self.new.timers)) (Ok None) ended) }
    {
        match loss_of(self.node.id(), self.node.vector(), node) {
            Some(event) => {
                self.add_fired(&event)?;
                self.timers.give_up(&event);
                self.turn(&event)
            }
            None => Ok(Ok(None)),
        }
    }
}

// One call of the node.
impl<D: SectorDisk + Drop> Session<D> {
    /// Makes an event, and writes what came of it. All that the session asks of a node's step stands here.
    fn turn(&mut self, event: &Event) -> Result<CallOutcome, AllocError>
        ensures rest { self.new.rest ≡ self.old.rest }
        ensures timers { self.new.timers ≡ self.old.timers }
        ensures turn { IfOk result (λ ended. Turns D.state self.old self.new (λ id nodes. MayComeOf id nodes event.now) ended) }
    {
        let seen = self.node.seen_before(event)?;
        self.node.is_fallen();
        let reply = self.node.step(event);
        if ran_out(&reply) {
            return Err(AllocError);
        }
        let sent = sent_of(&reply);
        self.waiting.keep(event, sent, self.node.vector())?;
        push_messages(&mut self.text, &mut self.bytes, sent)?;
        let ended = ended_by(&reply);
        let changes = self.node.changes_since(&seen)?;
        push_changes(&mut self.text, is_finish(event), &changes)?;
        push_gone(&mut self.text, event, &ended)?;
        Ok(ended)
    }

    fn is_down(&self) -> bool
        ensures { result ≡ is_down self.now.node.state.phase }
    {
        self.node.is_down()
    }

    /// Makes an event. Where it brings up a node that was Down, the journal that was mounted is written anew: a cache below may show what the
    /// device never kept, and only writing it again puts that right.
    fn make(&mut self, event: &Event) -> Result<EventEnds, AllocError>
        ensures rest { self.new.rest ≡ self.old.rest }
        ensures timers { self.new.timers ≡ self.old.timers }
        // Promise: A recovery that mounts the disk compacts the journal before it is answered, so that all that it keeps is written anew; where
        // the device fails in that, so does the recovery. No other event does.
        // Also: EventEnds::of_event.
        // Refuses: acknowledged_before_written_anew, written_anew_at_each_event, failure_behind_a_recovery_forgotten.
        ensures calls { IfOk result (λ ends. Calls D.state self.old self.new no_news (ComesAndEnds event.now ends.step) (Ok None) ends.last) }
    {
        let was_down = self.is_down();
        let step = self.turn(event)?;
        if !brought_up(was_down, self.is_down()) {
            let last = step;
            return Ok(EventEnds { step, last });
        }
        let last = self.compact()?;
        Ok(EventEnds { step, last })
    }

    /// Compacts the journal, and writes what came of it.
    fn compact(&mut self) -> Result<CallOutcome, AllocError>
        ensures rest { self.new.rest ≡ self.old.rest }
        ensures timers { self.new.timers ≡ self.old.timers }
        ensures turn { IfOk result (λ ended. Turns D.state self.old self.new MayCompact ended) }
    {
        let seen = self.node.seen()?;
        let done = self.node.compact();
        self.waiting.forget(self.node.vector())?;
        let changes = self.node.changes_since(&seen)?;
        push_changes(&mut self.text, false, &changes)?;
        Ok(compaction_end(&done))
    }
}

/// Whether a node that was Down is up.
fn brought_up(was_down: bool, is_down: bool) -> bool
    ensures { result ≡ brought_up was_down is_down }
{
    was_down && !is_down
}

/// The messages that a step hands out.
fn sent_of(reply: &Result<StepReport, NodeFault>) -> &[Message]
    ensures { result.now ≡ sent_by (answered reply.now) }
{
    match reply {
        Ok(came) if came.fault().is_none() => &came.sent,
        _ => &[],
    }
}

/// How a step ended.
fn ended_by(reply: &Result<StepReport, NodeFault>) -> CallOutcome
    ensures { result ≡ ended_by (answered reply.now) }
{
    match reply {
        Ok(came) => match came.fault() {
            None => Ok(came.answer),
            Some(fault) => Err(fault),
        },
        Err(fault) => Err(*fault),
    }
}

/// How a compaction ended.
fn compaction_end(done: &Result<(), NodeFault>) -> CallOutcome
    ensures { result ≡ compaction_end done.now }
{
    match done {
        Ok(()) => Ok(None),
        Err(fault) => Err(*fault),
    }
}

/// Whether there was no memory for a call.
fn ran_out(reply: &Result<StepReport, NodeFault>) -> bool
    ensures { IsTrue result ↔ (reply.now ≡ Err (NodeFault.Core NoMemory)) }
{
    matches!(reply, Err(NodeFault::Core(CoreFault::NoMemory)))
}

/// What a node makes of it that the transport gave another node up.
fn loss_of(id: NodeId, vector: &Vector, lost: NodeId) -> Option<Event>
    ensures fired { IfSome result IsFired }
    ensures value { result ≡ lost_by id (state_of vector.now) lost }
{
    let group_state = &vector.group_state;
    if lost.is(id) || matches!(group_state.phase, Phase::Down | Phase::Election) {
        return None;
    }
    if group_state.coordinator.is(lost) {
        return Some(Event::Timer(Timer::Coord));
    }
    if group_state.coordinator.is(id) && vector.members().contains(lost) {
        return Some(Event::Recover);
    }
    None
}
