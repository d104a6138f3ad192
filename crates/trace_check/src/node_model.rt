ghost use Rattle.std.specs.Prelude.{◌≡◌, ◌<◌, ◌≤◌, ◌↔◌, length, true, IfOk, IfSome, IsTrue, MatchOption};
ghost use Rattle.group_task.specs.declared.node.TheConstants.{NODES};
ghost use Rattle.node_core.specs.declared.event.Event.TheVariants.{Deliver};
ghost use Rattle.node_core.specs.NodeStep.{IsSpent};
ghost use Rattle.node_core.specs.Planned.{lent_by, wanted_by};
ghost use Rattle.node_core.specs.Start.{down};
ghost use Rattle.node_core.specs.State.{is_down, state_of};
ghost use Rattle.histories.specs.NodeState.{opening, wants_at};
ghost use Rattle.histories.specs.declared.history_event.HistoryEvent.TheVariants.{NoOp, Did, Faulted, Crashed, Recovered, MountFailed, RaiseFailed};
ghost use Rattle.histories.specs.declared.history_event.NoOpKind.TheVariants.{Nothing};
ghost use Rattle.histories.specs.Possible.{IsForNode, IsPossible};
ghost use Rattle.trace_check.specs.Leftovers.{IsRefused, IsSilent, WouldSend};
ghost use Rattle.trace_check.specs.Twins.{IsSubmit, Judged, Settled, Taken, WantsOf, came, opened};
ghost use Rattle.trace_check.specs.Kept.{EventStands, event_said};
ghost use Rattle.trace_check.specs.Traces.{claim, claim_seen};
ghost use Rattle.trace_check.specs.Views.{Stands, claim_kept};
ghost use Rattle.trace_check.specs.declared.trace.TraceAction.TheVariants as action;

use crate::durable_state::DurableState;
use crate::history::{EntryView, KeptView, Sent};
use crate::kept::{PackedAction, PackedEvent, read_event};
use crate::trace::{RecoverFault, TraceAction};
use group_task::NodeId;
use job_model::JobTable;
use node_core::{CoreFault, Event, GroupState, NodeCore, Phase, Timer, Vector, Wanted, WantedRef};
use std::alloc::{AllocError, Global};
use std::marker::Model;
use std::mem;
use wire_msg::Message;

/// A node without its disk: what it knows, what its disk keeps, and the command in doubt.
#[derive(Debug, Drop)]
pub struct NodeModel {
    alloc: Global,
    nodes: u8,
    core: NodeCore,
    durable_state: DurableState,
    doubt: Wanted,
    // the list of the messages that were made last, which is kept for its room
    room: Vec<Message>,
    // whether a dispatch is known to have nothing to do: it sends nothing and leaves the node as it is
    rested: bool,
}

/// Where a message that was delivered, a submit, or another event, is read in place of the one before it: each takes over 400 bytes.
#[derive(Drop)]
pub(crate) struct EntryRoom {
    message: Message,
    submitted: Event,
    event: Event,
}

impl EntryRoom {
    /// Room in which nothing was read yet. What stands in it is written anew before it is looked at, so no clause says what it is.
    pub(crate) fn new() -> EntryRoom {
        EntryRoom {
            message: Message::blank(),
            submitted: Event::Recover,
            event: Event::Recover,
        }
    }
}

impl Model for NodeModel {
    ghost use Rattle.std.specs.Prelude.{◌≡◌, [], true};
    ghost use Rattle.node_core.specs.Planned.{wanted_by};
    ghost use Rattle.trace_check.specs.Twins.{Twin, IsReplica, RestsAt, twin};

    ghost Value = { Twin };

    ghost view = { λ a. twin a.core a.durable_state (wanted_by a.doubt) };

    ghost invariant = { λ a. IsReplica a.nodes (twin a.core a.durable_state (wanted_by a.doubt)) × (a.room.items ≡ [])
        × (a.rested ≡ true → RestsAt (twin a.core a.durable_state (wanted_by a.doubt))) };
}

impl NodeModel {
    /// A node that has just opened.
    pub fn new(alloc: Global, id: NodeId, nodes: u8) -> Result<NodeModel, AllocError>
        requires within { id < nodes }
        requires most { nodes ≤ NODES }
        ensures { IfOk result (λ node_model. node_model ≡ record { id = id; nodes = nodes; node = opening id }) }
    {
        Ok(NodeModel {
            alloc,
            nodes,
            core: NodeCore::new(alloc, id, nodes, 1),
            durable_state: DurableState::new(alloc)?,
            doubt: Wanted::None,
            room: Vec::new(alloc),
            rested: false,
        })
    }

    /// What the node knows.
    pub fn vector(&self) -> &Vector
        ensures { state_of result.now ≡ self.now.node.state }
    {
        self.core.vector()
    }

    /// The count of the node's last new group.
    pub fn counter(&self) -> u64
        ensures { result ≡ self.now.node.durable.counter }
    {
        self.durable_state.counter()
    }

    /// The node's pending jobs.
    pub fn table(&self) -> &JobTable
        ensures next { result.now.next ≡ self.now.node.durable.next }
        ensures pending { result.now.pending ≡ self.now.node.durable.pending }
    {
        self.durable_state.table()
    }

    /// The command that is in doubt.
    pub fn doubt(&self) -> &Wanted
        ensures { wanted_by result.now ≡ self.now.node.doubt }
    {
        &self.doubt
    }

    /// Whether the node stands as where it opens: alone in the group of its count, with no job in hand and nothing in doubt.
    pub(crate) fn is_opened(&self) -> bool
        ensures { IsTrue result ↔ (self.now.node ≡ opened self.now.id self.now.node.durable) }
    {
        let group_state = &self.core.vector().group_state;
        let count = group_state.group.count();
        if !matches!(self.doubt, Wanted::None) || self.in_hand() > 0 || count != self.counter() {
            return false;
        }
        let opened = NodeCore::new(self.alloc, self.core.id(), self.nodes, count);
        same_state(group_state, &opened.vector().group_state)
    }

    /// Takes an entry of the node's history, if it is possible here: whether a message that was delivered was sent is left
    /// open. Where it isn't possible, the node model may be spoiled, and is of no more use.
    pub fn take(&mut self, entry: &EntryView<'_>) -> Result<bool, AllocError>
        // Promise: An entry is taken exactly where it is possible, and the copy of the node is then in the state after it.
        // Refuses: doubt_kept_the_wrong_way, doubt_forgotten, kept_not_read, sent_not_compared, each_timer_handled_as_check,
        // submits_never_taken.
        ensures id { self.new.id ≡ self.old.id }
        ensures nodes { self.new.nodes ≡ self.old.nodes }
        ensures taken { IfOk result (Taken self.old self.new (claim_seen entry.now)) }
    {
        let sent = &entry.sent;
        match &entry.action {
            TraceAction::Nothing => Ok(sent.is_empty()),
            TraceAction::Done(event) => self.handle(event, sent),
            TraceAction::Faulted(event) => self.fault(event, sent),
            TraceAction::Crashed => Ok(self.crash(sent)),
            TraceAction::Recovered(kept) => self.recover(*kept, sent),
            TraceAction::NotRecovered(kept, fault) => self.not_recover(*kept, *fault, sent),
        }
    }

    /// Takes an entry as it is kept, as `take` does. No action is made of it: one that has a message would be a copy of it.
    pub(crate) fn take_kept(
        &mut self,
        kept: &KeptView<'_>,
        room: &mut EntryRoom,
    ) -> Result<bool, AllocError>
        requires { Stands kept.now }
        ensures id { self.new.id ≡ self.old.id }
        ensures nodes { self.new.nodes ≡ self.old.nodes }
        ensures taken { IfOk result (Taken self.old self.new (claim_kept kept.now)) }
    {
        let sent = kept.sent();
        match kept.entry.action {
            PackedAction::Nothing => Ok(sent.is_empty()),
            PackedAction::Done(PackedEvent::Deliver(place)) => {
                if !kept.messages.read(place, &mut room.message) {
                    unreachable!()
                }
                self.deliver(&room.message, &sent)
            }
            PackedAction::Done(PackedEvent::Timer(Timer::Dispatch)) if self.rested => {
                Ok(sent.is_empty())
            }
            PackedAction::Done(event) => { self.take_said(kept, event, true, &sent, room) }
            PackedAction::Faulted(event) => { self.take_said(kept, event, false, &sent, room) }
            PackedAction::Crashed => Ok(self.crash(&sent)),
            PackedAction::Recovered(kept) => self.recover(kept, &sent),
            PackedAction::NotRecovered(kept, fault) => self.not_recover(kept, fault, &sent),
        }
    }

    /// The messages that the node sends where what the entry says was done comes here, whatever it says that was sent. None where that
    /// isn't possible. Whether a message that was delivered was sent is left open. The node model is of no more use then.
    pub fn sends(&mut self, entry: &EntryView<'_>) -> Result<Option<Vec<Message>>, AllocError>
        ensures { IfOk result (λ made. MatchOption made (IsRefused self.old.id self.old.nodes self.old.node (claim_seen entry.now))
            (λ messages. WouldSend self.old.id self.old.nodes self.old.node (claim_seen entry.now) messages.items)) }
    {
        match &entry.action {
            TraceAction::Done(event) => self.handled(event),
            TraceAction::Recovered(kept) => self.risen(*kept, entry),
            TraceAction::Nothing => self.silent(entry),
            TraceAction::Faulted(_) => self.silent(entry),
            TraceAction::Crashed => self.silent(entry),
            TraceAction::NotRecovered(_, _) => self.silent(entry),
        }
    }

    /// An event as it is kept, which is handled, or in whose command the device failed. It is read in place of one of its kind, where
    /// there is one: that is the least work.
    fn take_said(
        &mut self,
        kept: &KeptView<'_>,
        event: PackedEvent,
        is_done: bool,
        sent: &Sent<'_>,
        room: &mut EntryRoom,
    ) -> Result<bool, AllocError>
        requires { EventStands (length kept.now.messages.now.messages) (length kept.now.payloads.now) event }
        ensures id { self.new.id ≡ self.old.id }
        ensures nodes { self.new.nodes ≡ self.old.nodes }
        ensures judged { IfOk result (Judged self.old self.new (came is_done (event_said kept.now.messages.now.messages kept.now.payloads.now event)) sent.now) }
    {
        if let PackedEvent::Submit(_, _, _, _) = event {
            return self.take_read(kept, event, is_done, sent, &mut room.submitted);
        }
        self.take_read(kept, event, is_done, sent, &mut room.event)
    }

    /// The same for an event that is read in place of `said`.
    fn take_read(
        &mut self,
        kept: &KeptView<'_>,
        event: PackedEvent,
        is_done: bool,
        sent: &Sent<'_>,
        said: &mut Event,
    ) -> Result<bool, AllocError>
        requires { EventStands (length kept.now.messages.now.messages) (length kept.now.payloads.now) event }
        ensures id { self.new.id ≡ self.old.id }
        ensures nodes { self.new.nodes ≡ self.old.nodes }
        ensures judged { IfOk result (Judged self.old self.new (came is_done (event_said kept.now.messages.now.messages kept.now.payloads.now event)) sent.now) }
    {
        read_event(kept.messages, kept.payloads, event, said);
        if is_done {
            return self.handle(said, sent);
        }
        self.fault(said, sent)
    }

    /// Recover, at a node that is down or isn't.
    fn recover(&mut self, kept: bool, sent: &Sent<'_>) -> Result<bool, AllocError>
        ensures id { self.new.id ≡ self.old.id }
        ensures nodes { self.new.nodes ≡ self.old.nodes }
        ensures taken { IfOk result (Taken self.old self.new (claim (action.Recovered kept) sent.now)) }
    {
        if self.is_down() {
            self.rise(kept, sent)
        } else if kept {
            Ok(false)
        } else {
            self.handle(&Event::Recover, sent)
        }
    }

    /// Recover, which failed so.
    fn not_recover(
        &mut self,
        kept: bool,
        fault: RecoverFault,
        sent: &Sent<'_>,
    ) -> Result<bool, AllocError>
        ensures id { self.new.id ≡ self.old.id }
        ensures nodes { self.new.nodes ≡ self.old.nodes }
        ensures taken { IfOk result (Taken self.old self.new (claim (action.NotRecovered kept fault) sent.now)) }
    {
        if matches!(fault, RecoverFault::Mount) {
            return Ok(self.is_down() && !kept && sent.is_empty());
        }
        if self.is_down() {
            self.fail_to_rise(kept, sent)
        } else if kept {
            Ok(false)
        } else {
            self.fault(&Event::Recover, sent)
        }
    }

    /// An event that is handled.
    #[tactic(auto, using(crate::proofs::Twins::judged_same))]
    fn handle(&mut self, event: &Event, sent: &Sent<'_>) -> Result<bool, AllocError>
        ensures id { self.new.id ≡ self.old.id }
        ensures nodes { self.new.nodes ≡ self.old.nodes }
        ensures judged { IfOk result (Judged self.old self.new (Did event.now) sent.now) }
    {
        match self.handled(event)? {
            Some(made) => Ok(self.has_made(made, sent)),
            None => Ok(false),
        }
    }

    /// The messages that an event sends that is handled. None where it isn't taken. A dispatch that is known to have nothing to do
    /// isn't planned, since a plan of it walks over the pending jobs.
    #[tactic(auto, using(crate::proofs::Twins::rests))]
    pub(crate) fn handled(&mut self, event: &Event) -> Result<Option<Vec<Message>>, AllocError>
        ensures id { self.new.id ≡ self.old.id }
        ensures nodes { self.new.nodes ≡ self.old.nodes }
        ensures made { IfOk result (λ made. MatchOption made (IsPossible self.old.id self.old.nodes self.old.node (Did event.now) → ⊥)
            (λ messages. Judged self.old self.new (Did event.now) messages.items true)) }
    {
        match event {
            Event::Timer(Timer::Dispatch) => {}
            Event::Submit(_) => return self.submitted(event),
            _ => return self.stepped(event),
        }
        if self.rested {
            return Ok(Some(Vec::new(self.alloc)));
        }
        let had = self.in_hand();
        let made = self.stepped(event)?;
        if let Some(messages) = &made
            && messages.is_empty()
            && self.in_hand() == had
        {
            self.rested = true;
        }
        Ok(made)
    }

    /// A submit. A job that the node keeps and takes in hand gives the next dispatch nothing more to do.
    fn submitted(&mut self, event: &Event) -> Result<Option<Vec<Message>>, AllocError>
        requires { IsSubmit event.now }
        ensures id { self.new.id ≡ self.old.id }
        ensures nodes { self.new.nodes ≡ self.old.nodes }
        ensures made { IfOk result (λ made. MatchOption made (IsPossible self.old.id self.old.nodes self.old.node (Did event.now) → ⊥)
            (λ messages. Judged self.old self.new (Did event.now) messages.items true)) }
    {
        let rested = self.rested;
        let made = self.stepped(event)?;
        if let Some(messages) = &made
            && messages.is_empty()
        {
            self.rested = rested;
        }
        Ok(made)
    }

    /// So of an event of any kind: it is planned and carried out.
    fn stepped(&mut self, event: &Event) -> Result<Option<Vec<Message>>, AllocError>
        ensures id { self.new.id ≡ self.old.id }
        ensures nodes { self.new.nodes ≡ self.old.nodes }
        ensures made { IfOk result (λ made. MatchOption made (IsPossible self.old.id self.old.nodes self.old.node (Did event.now) → ⊥)
            (λ messages. Judged self.old self.new (Did event.now) messages.items true)) }
    {
        self.rested = false;
        if !self.is_for_node(event) {
            return Ok(None);
        }
        let room = mem::replace(&mut self.room, Vec::new(self.alloc));
        let plan = match self.core.plan_in(event, self.durable_state.table(), room) {
            Ok(plan) => plan,
            Err(CoreFault::NoMemory) => return Err(AllocError),
            Err(_) => return Ok(None),
        };
        let wants = plan.wanted();
        if self.durable_state.is_spent(&wants) {
            return Ok(None);
        }
        let answer = self.durable_state.take(&wants)?;
        Ok(Some(self.core.commit_step(plan, answer)))
    }

    /// What a recovery sends, at a node that is down or isn't.
    fn risen(
        &mut self,
        kept: bool,
        entry: &EntryView<'_>,
    ) -> Result<Option<Vec<Message>>, AllocError>
        requires { entry.now.action ≡ action.Recovered kept }
        ensures { IfOk result (λ made. MatchOption made (IsRefused self.old.id self.old.nodes self.old.node (claim_seen entry.now))
            (λ messages. WouldSend self.old.id self.old.nodes self.old.node (claim_seen entry.now) messages.items)) }
    {
        if self.is_down() {
            self.silent(entry)
        } else if kept {
            Ok(None)
        } else {
            self.handled(&Event::Recover)
        }
    }

    /// What an entry sends that sends nothing: an empty list, where it is possible.
    fn silent(&mut self, entry: &EntryView<'_>) -> Result<Option<Vec<Message>>, AllocError>
        requires { IsSilent self.old.id self.old.nodes self.old.node (claim_seen entry.now) }
        ensures { IfOk result (λ made. MatchOption made (IsRefused self.old.id self.old.nodes self.old.node (claim_seen entry.now))
            (λ messages. WouldSend self.old.id self.old.nodes self.old.node (claim_seen entry.now) messages.items)) }
    {
        let alone = EntryView {
            action: entry.action,
            sent: entry.sent.none(),
        };
        if self.take(&alone)? {
            Ok(Some(Vec::new(self.alloc)))
        } else {
            Ok(None)
        }
    }

    /// A message that is delivered, which stays where it is. The answers are written into the list of the last ones.
    fn deliver(&mut self, message: &Message, sent: &Sent<'_>) -> Result<bool, AllocError>
        ensures id { self.new.id ≡ self.old.id }
        ensures nodes { self.new.nodes ≡ self.old.nodes }
        ensures judged { IfOk result (Judged self.old self.new (Did (Deliver message.now)) sent.now) }
    {
        self.rested = false;
        let room = mem::replace(&mut self.room, Vec::new(self.alloc));
        let plan = match self
            .core
            .plan_delivery(message, self.durable_state.table(), room)
        {
            Ok(plan) => plan,
            Err(CoreFault::NoMemory) => return Err(AllocError),
            Err(_) => return Ok(false),
        };
        let wants = plan.wanted();
        if self.durable_state.is_spent(&wants) {
            return Ok(false);
        }
        let answer = self.durable_state.take(&wants)?;
        let made = self.core.commit_step(plan, answer);
        Ok(self.has_made(made, sent))
    }

    /// Whether the messages that were made are those that the entry sent. Their list is kept for its room.
    fn has_made(&mut self, mut made: Vec<Message>, sent: &Sent<'_>) -> bool
        ensures unchanged { self.new ≡ self.old }
        ensures value { IsTrue result ↔ (made.items ≡ sent.now) }
    {
        let as_sent = same(&made, sent);
        made.clear();
        self.room = made;
        as_sent
    }

    /// An event in whose command the device failed.
    fn fault(&mut self, event: &Event, sent: &Sent<'_>) -> Result<bool, AllocError>
        ensures id { self.new.id ≡ self.old.id }
        ensures nodes { self.new.nodes ≡ self.old.nodes }
        ensures judged { IfOk result (Judged self.old self.new (Faulted event.now) sent.now) }
    {
        if !sent.is_empty() {
            return Ok(false);
        }
        let Some(wants) = self.wants(event)? else {
            return Ok(false);
        };
        if matches!(wants, Wanted::None) {
            return Ok(false);
        }
        self.fall(wants);
        Ok(true)
    }

    /// The command that an event wants. None where the event isn't taken.
    fn wants(&mut self, event: &Event) -> Result<Option<Wanted>, AllocError>
        ensures same { self.new ≡ self.old }
        ensures wants { IfOk result (WantsOf self.old event.now) }
    {
        if !self.is_for_node(event) {
            return Ok(None);
        }
        let plan = match self.core.plan_step(event, self.durable_state.table()) {
            Ok(plan) => plan,
            Err(CoreFault::NoMemory) => return Err(AllocError),
            Err(_) => return Ok(None),
        };
        if self.durable_state.is_spent(&plan.wanted()) {
            return Ok(None);
        }
        Ok(Some(plan.wants()))
    }

    /// The node crashes.
    fn crash(&mut self, sent: &Sent<'_>) -> bool
        ensures id { self.new.id ≡ self.old.id }
        ensures nodes { self.new.nodes ≡ self.old.nodes }
        ensures judged { Judged self.old self.new Crashed sent.now result }
    {
        self.fall(self.doubt);
        sent.is_empty()
    }

    /// The node is down, with this command in doubt.
    fn fall(&mut self, doubt: Wanted)
        requires { IsSpent self.old.node.durable (wanted_by doubt) → ⊥ }
        ensures { self.new ≡ record self.old { node = record self.old.node { state = down self.old.id; doubt = wanted_by doubt } } }
    {
        self.rested = false;
        self.doubt = doubt;
        self.core = NodeCore::down(self.alloc, self.core.id(), self.nodes);
    }

    /// A recovery of a node that is down.
    fn rise(&mut self, kept: bool, sent: &Sent<'_>) -> Result<bool, AllocError>
        requires { is_down self.old.node.state.phase ≡ true }
        ensures id { self.new.id ≡ self.old.id }
        ensures nodes { self.new.nodes ≡ self.old.nodes }
        ensures judged { IfOk result (Judged self.old self.new (Recovered kept) sent.now) }
    {
        if !sent.is_empty()
            || !self.settle(kept)?
            || self.durable_state.is_spent(&WantedRef::Raise)
        {
            return Ok(false);
        }
        self.rested = false;
        let count = self.durable_state.take(&WantedRef::Raise)?;
        self.core = NodeCore::new(self.alloc, self.core.id(), self.nodes, count);
        Ok(true)
    }

    /// A recovery of a node that is down, in whose raise the device failed.
    fn fail_to_rise(&mut self, kept: bool, sent: &Sent<'_>) -> Result<bool, AllocError>
        requires { is_down self.old.node.state.phase ≡ true }
        ensures id { self.new.id ≡ self.old.id }
        ensures nodes { self.new.nodes ≡ self.old.nodes }
        ensures judged { IfOk result (Judged self.old self.new (RaiseFailed kept) sent.now) }
    {
        if !sent.is_empty()
            || !self.settle(kept)?
            || self.durable_state.is_spent(&WantedRef::Raise)
        {
            return Ok(false);
        }
        self.rested = false;
        self.doubt = Wanted::Raise;
        Ok(true)
    }

    /// Settles whether the command in doubt is on the disk. False where none is in doubt and one is said to be there.
    fn settle(&mut self, kept: bool) -> Result<bool, AllocError>
        requires { is_down self.old.node.state.phase ≡ true }
        ensures id { self.new.id ≡ self.old.id }
        ensures nodes { self.new.nodes ≡ self.old.nodes }
        ensures settled { IfOk result (Settled self.old self.new kept) }
    {
        self.rested = false;
        if kept {
            if matches!(self.doubt, Wanted::None) {
                return Ok(false);
            }
            self.durable_state.take(&lent(&self.doubt))?;
        }
        self.doubt = Wanted::None;
        Ok(true)
    }

    /// Whether the event is one for the node: Recover isn't where the node is down.
    fn is_for_node(&self, event: &Event) -> bool
        ensures { IsTrue result ↔ IsForNode self.now.node.state event.now }
    {
        match event {
            Event::Recover => !self.is_down(),
            _ => true,
        }
    }

    /// How many jobs the node has in hand.
    fn in_hand(&self) -> usize
        ensures { result ≡ length self.now.node.state.hand }
    {
        self.core.vector().hand.jobs().len()
    }

    /// Whether the node is down.
    fn is_down(&self) -> bool
        ensures { result ≡ is_down self.now.node.state.phase }
    {
        matches!(self.core.vector().group_state.phase, Phase::Down)
    }
}

/// The same command, with its job where it lies.
fn lent(wants: &Wanted) -> WantedRef<'_>
    ensures { lent_by result ≡ wanted_by wants.now }
{
    match wants {
        Wanted::None => WantedRef::None,
        Wanted::Raise => WantedRef::Raise,
        Wanted::Put(work) => WantedRef::Put(work),
        Wanted::Done(id) => WantedRef::Done(*id),
    }
}

/// Whether two nodes know the same of their groups.
fn same_state(one: &GroupState, other: &GroupState) -> bool
    ensures { IsTrue result ↔ (one.now ≡ other.now) }
{
    one.phase == other.phase
        && one.coordinator == other.coordinator
        && one.group == other.group
        && one.up == other.up
        && one.task == other.task
        && one.found == other.found
        && one.unready == other.unready
        && one.checking == other.checking
        && one.probing == other.probing
}

/// Whether these are the same messages.
pub(crate) fn same(made: &[Message], sent: &Sent<'_>) -> bool
    ensures { IsTrue result ↔ (made.now ≡ sent.now) }
{
    if made.len() != sent.len() {
        return false;
    }
    for place in 0..made.len() {
        if !sent.holds(place, &made[place]) {
            return false;
        }
    }
    true
}
