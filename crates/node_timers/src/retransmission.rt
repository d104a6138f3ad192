ghost use Rattle.std.specs.Prelude.{◌≡◌, ◌++◌, ◌<◌, ◌≤◌, ℕ, [], IfOk, IfSome, IsNone, OnOk, drop, map, take, true, None, Some};
ghost use Rattle.std.specs.List.{filter};
ghost use Rattle.node_core.specs.State.{state_of};
ghost use Rattle.node_timers.specs.Retransmission.{answerer, asks, first, has_come, invites, is_answerable, is_answered, is_of, is_resting, is_waited, is_waited_still, message_of, nearer, none_waited, overdue, rested, sent_again, waits_behind, waits_on, waits_since};

use crate::repeat::Repeat;
use crate::snapshot::NodeSnapshot;
use group_task::{GroupNo, NodeId};
use node_core::{Event, Phase, Vector};
use std::alloc::{AllocError, Global};
use std::marker::Model;
use wire_msg::{Body, Message};

/// At most so many messages are sent again at one time.
pub const MOST_AT_ONCE: usize = 16;

/// The messages that a node sent and still waits for. A link may lose a message, so each is sent again, a unit of the setting
/// after another, until it isn't waited for any more.
#[derive(Debug, Drop)]
pub struct Retransmission {
    alloc: Global,
    unit: u64,
    next: u64,
    repeats: Vec<Repeat>,
}

impl Model for Retransmission {
    ghost use Rattle.node_timers.specs.Retransmission.{Waits};

    ghost Value = { Waits };

    ghost view = { λ a. record { unit = a.unit; next = a.next; repeats = a.repeats.items } };
}

impl Retransmission {
    /// Nothing is waited for. A time at which messages are sent again comes each so many milliseconds.
    pub fn new(alloc: Global, unit: u16) -> Retransmission
        ensures { result ≡ none_waited unit }
    {
        Retransmission {
            alloc,
            unit: u64::from(unit),
            next: 0,
            repeats: Vec::new(alloc),
        }
    }

    /// Keeps what a node sent in an event that led to this state, and forgets what it doesn't wait for there.
    pub fn keep(
        &mut self,
        event: &Event,
        sent: &[Message],
        vector: &Vector,
    ) -> Result<(), AllocError>
        // Promise: Which messages are waited for is a function of the events, of what was sent in each and of the states that they
        // led to (`specs/Retransmission`).
        // Also: Retransmission::forget.
        ensures { OnOk result (self.new ≡ waits_behind (Some event.now) sent.now (state_of vector.now) self.old) }
    {
        self.renew(&answerer(event), sent, vector)
    }

    /// Forgets what a node in this state doesn't wait for, where no event led to it.
    pub fn forget(&mut self, vector: &Vector) -> Result<(), AllocError>
        ensures { OnOk result (self.new ≡ waits_behind None [] (state_of vector.now) self.old) }
    {
        self.renew(&None, &[], vector)
    }

    fn renew(
        &mut self,
        answered: &Option<NodeId>,
        sent: &[Message],
        vector: &Vector,
    ) -> Result<(), AllocError>
        ensures { OnOk result (self.new ≡ waits_since answered.now sent.now (state_of vector.now) self.old) }
    {
        keep_waited(&mut self.repeats, answered, vector);
        push_waited(&mut self.repeats, answered, sent, vector)
    }

    /// What is to be sent again at this time.
    pub fn due(&self, now: u64) -> Result<Vec<Message>, AllocError>
        // Promise: A time comes each unit (a round trip), and at once where the next is more than a unit away: the clock fell back. A message is
        // sent again from the second time behind its sending on; a question of a check then rests for 2, 4 and 8 times. At most 16
        // are sent at one time, and the others go first at the next.
        // Also: Retransmission::go_on, sent_again_seldom.
        // Refuses: sent_again_at_once, clock_that_falls_back_silences, asked_without_backoff, more_than_16_at_once, overdue_goes_last.
        ensures { IfOk result (λ due. due.items ≡ sent_again now self.now) }
    {
        let mut due = Vec::new(self.alloc);
        if self.has_come(now) {
            let overdue = self.overdue()?;
            push_messages(&mut due, first_of(&overdue))?;
        }
        Ok(due)
    }

    /// When something is sent again next, or what is waited for is looked through, where it is so late now and the clock doesn't
    /// fall back. None where nothing is waited for.
    pub fn due_at(&self, now: u64) -> Option<u64>
        // Promise: When they are due next, where the clock doesn't fall back: before it nothing is sent again, and at it they are looked through.
        ensures quiet { IfSome result (λ next. (later : ℕ) → now ≤ later → later < next → (sent_again later self.now ≡ []) × (waits_on later self.now ≡ self.now)) }
        ensures comes { IfSome result (λ next. has_come next self.now ≡ true) }
        ensures never { IsNone result → (later : ℕ) → sent_again later self.now ≡ [] }
    {
        if self.repeats.is_empty() {
            return None;
        }
        if self.has_come(now) {
            Some(now)
        } else {
            Some(self.next)
        }
    }

    /// Whether the next time has come. It is a unit away at most, or the clock fell back.
    fn has_come(&self, now: u64) -> bool
        ensures { result ≡ has_come now self.now }
    {
        self.next <= now || u128::from(now) + u128::from(self.unit) < u128::from(self.next)
    }

    /// Whether all whom the node asked in a check have answered, or all that it invited have accepted.
    pub fn is_answered(&self, snapshot: &NodeSnapshot) -> bool
        // Promise: A check or an election counts as answered where no question or invitation of it is waited for.
        // Refuses: unanswered_check_is_over, accepted_election_goes_on.
        ensures { result ≡ is_answered snapshot.now self.now }
    {
        let waits = snapshot.checking || matches!(snapshot.phase, Phase::Election);
        waits && !asks(&self.repeats)
    }

    /// What was due is sent: it rests. What is overdue goes first at the next time.
    pub fn go_on(&mut self, now: u64) -> Result<(), AllocError>
        ensures { OnOk result (self.new ≡ waits_on now self.old) }
    {
        if !self.has_come(now) {
            return Ok(());
        }
        let overdue = self.overdue()?;
        let mut repeats = Vec::new(self.alloc);
        push_nearer(&mut repeats, behind_first(&overdue))?;
        push_resting(&mut repeats, &self.repeats)?;
        push_rested(&mut repeats, first_of(&overdue))?;
        self.repeats = repeats;
        self.next = now.saturating_add(self.unit);
        Ok(())
    }

    /// Those whose time has come.
    fn overdue(&self) -> Result<Vec<Repeat>, AllocError>
        ensures { IfOk result (λ due. due.items ≡ overdue self.now.repeats) }
    {
        let mut due = Vec::new(self.alloc);
        due.extend_from_slice(&self.repeats)?;
        keep_due(&mut due);
        Ok(due)
    }
}

fn keep_due(repeats: &mut Vec<Repeat>)
    ensures { repeats.new.items ≡ overdue repeats.old.items }
{
    repeats.retain(|repeat| repeat.is_due());
}

/// Those of what is overdue that are sent now.
fn first_of(overdue: &[Repeat]) -> &[Repeat]
    ensures { result.now ≡ take MOST_AT_ONCE overdue.now }
{
    &overdue[..overdue.len().min(MOST_AT_ONCE)]
}

/// And those that aren't.
fn behind_first(overdue: &[Repeat]) -> &[Repeat]
    ensures { result.now ≡ drop MOST_AT_ONCE overdue.now }
{
    &overdue[overdue.len().min(MOST_AT_ONCE)..]
}

fn push_messages(messages: &mut Vec<Message>, repeats: &[Repeat]) -> Result<(), AllocError>
    ensures { OnOk result (messages.new.items ≡ messages.old.items ++ map message_of repeats.now) }
{
    for repeat in repeats {
        messages.push(repeat.message)?;
    }
    Ok(())
}

fn push_nearer(into: &mut Vec<Repeat>, repeats: &[Repeat]) -> Result<(), AllocError>
    ensures { OnOk result (into.new.items ≡ into.old.items ++ map nearer repeats.now) }
{
    for repeat in repeats {
        into.push(repeat.nearer())?;
    }
    Ok(())
}

/// Adds those whose time hasn't come, a time nearer.
fn push_resting(into: &mut Vec<Repeat>, repeats: &[Repeat]) -> Result<(), AllocError>
    ensures { OnOk result (into.new.items ≡ into.old.items ++ map nearer (filter is_resting repeats.now)) }
{
    for repeat in repeats {
        if !repeat.is_due() {
            into.push(repeat.nearer())?;
        }
    }
    Ok(())
}

fn push_rested(into: &mut Vec<Repeat>, repeats: &[Repeat]) -> Result<(), AllocError>
    ensures { OnOk result (into.new.items ≡ into.old.items ++ map rested repeats.now) }
{
    for repeat in repeats {
        into.push(repeat.rested())?;
    }
    Ok(())
}

fn keep_waited(repeats: &mut Vec<Repeat>, answered: &Option<NodeId>, vector: &Vector)
    ensures { repeats.new.items ≡ filter (is_waited_still answered.now (state_of vector.now)) repeats.old.items }
{
    repeats.retain(|repeat| is_waited(answered, vector, &repeat.message));
}

fn push_waited(
    repeats: &mut Vec<Repeat>,
    answered: &Option<NodeId>,
    sent: &[Message],
    vector: &Vector,
) -> Result<(), AllocError>
    ensures { OnOk result (repeats.new.items ≡ repeats.old.items ++ map first (filter (is_waited answered.now (state_of vector.now)) sent.now)) }
{
    for message in sent {
        if is_waited(answered, vector, message) {
            repeats.push(Repeat::first(message))?;
        }
    }
    Ok(())
}

/// Whether the answer to a question of a check, or to an invitation, is waited for.
fn asks(repeats: &[Repeat]) -> bool
    ensures { result ≡ asks repeats.now }
{
    for repeat in repeats {
        if is_answerable(&repeat.message) {
            return true;
        }
    }
    false
}

fn is_answerable(message: &Message) -> bool
    ensures { result ≡ is_answerable message.now.body }
{
    matches!(
        message.body(),
        Body::AreYouCoordinator | Body::Invitation(_)
    )
}

/// Whether a node still waits for what comes of a message that it sent.
fn is_waited(answered: &Option<NodeId>, vector: &Vector, message: &Message) -> bool
    ensures { result ≡ is_waited answered.now (state_of vector.now) message.now }
{
    let group_state = &vector.group_state;
    let receiver = message.receiver();
    match message.body() {
        Body::AreYouCoordinator => group_state.checking && !is_of(receiver, answered),
        Body::AreYouThere(group) => group_state.probing && group.is(group_state.group),
        Body::Invitation(group) => group.is(group_state.group) && invites(vector, message, *group),
        Body::Accept(group) => {
            matches!(group_state.phase, Phase::Reorganization) && group.is(group_state.group)
        }
        Body::Ready(task) => {
            matches!(group_state.phase, Phase::Reorganization)
                && task.group().is(group_state.group)
                && group_state.unready.contains(receiver)
        }
        _ => false,
    }
}

/// Whether a node still invites the receiver of an invitation into this group, the one that it is in.
fn invites(vector: &Vector, message: &Message, group: GroupNo) -> bool
    ensures { result ≡ invites (state_of vector.now) message.now.sender message.now.receiver group }
{
    match vector.group_state.phase {
        Phase::Election => !vector.group_state.up.contains(message.receiver()),
        Phase::Reorganization => !group.creator().is(message.sender()),
        Phase::Down | Phase::Normal => false,
    }
}

fn is_of(node: NodeId, other: &Option<NodeId>) -> bool
    ensures { result ≡ is_of node other.now }
{
    match other {
        Some(other) => node.is(*other),
        None => false,
    }
}

/// The node that says, in this event, whether it coordinates a group.
fn answerer(event: &Event) -> Option<NodeId>
    ensures { result ≡ answerer (Some event.now) }
{
    match event {
        Event::Deliver(message) => match message.body() {
            Body::Coordinator(_) => Some(message.sender()),
            _ => None,
        },
        _ => None,
    }
}
