ghost use Rattle.std.specs.Prelude.{◌≡◌, ◌+◌, ◌≤◌, ◌<◌, ◌++◌, ◌∷◌, [], length, IfOk, false, vec_len, vec_capacity};
ghost use Rattle.group_task.specs.Ids.{has};
ghost use Rattle.group_task.specs.Others.{AreOthers};
ghost use Rattle.node_core.specs.Words.{to_each};
ghost use Rattle.node_core.specs.Planned.{gain_of, done_wanted, lent_by, plan_wants, wanted_by};

use crate::group_state::GroupState;
use crate::in_hand::InHand;
use crate::node_view::NodeView;
use crate::state_update::StateUpdate;
use crate::wanted::{Wanted, WantedRef};
use group_task::{GroupNo, Members, NodeId};
use job_model::Work;
use std::alloc::{AllocError, Global};
use wire_msg::{Body, Message};

/// What a step changes: the standing, and the jobs that come in hand.
#[derive(Debug, Drop)]
pub struct StateChange {
    pub group_state: GroupState,
    pub gains: Vec<InHand>,
}

/// What a plan does. What takes much room stands apart, since a plan is moved often.
#[derive(Debug, Drop)]
pub enum PlannedEffect<'a> {
    /// Leaves the node as it is. Where there is an id, the job is done.
    Stay(Option<u64>),
    /// Makes the change that is noted.
    Mark(StateUpdate),
    /// Makes this change.
    Apply(Box<StateChange>),
    /// Makes a new group, and invites these nodes into it.
    Invite(Members),
    /// Makes a new group of this node alone.
    Recover,
    /// Makes a job pending, and takes it in hand or sends it to its owner.
    Place(NodeId, &'a Work),
    /// Takes a job out of the hand. Where there is an id, it is done.
    Finish(NodeId, u64, Option<u64>),
}

/// What an event will make of a node, with the memory that this takes.
///
/// Its messages come out by [`NodeCore::commit_step`](crate::NodeCore::commit_step) alone, so a caller can't send them before that.
#[derive(Drop)]
// Promise: A plan's messages come out by its commit alone: the fields of a `Plan` can't be named outside of the crate.
#[derive(Debug)]
pub struct Plan<'a> {
    pub(crate) act: PlannedEffect<'a>,
    pub(crate) messages: Vec<Message>,
}

impl<'a> Plan<'a> {
    /// The command that is to be carried out on the disk before the plan is committed.
    pub fn wants(&self) -> Wanted
        // Promise: The command that a plan wants is the table's.
        // Refuses: raise_is_not_wanted, done_when_work_is_sent, finished_job_stays_pending, done_of_no_pending_job.
        ensures { wanted_by result ≡ plan_wants self.now }
    {
        match &self.act {
            PlannedEffect::Stay(done) => done_wanted(*done),
            PlannedEffect::Mark(_) | PlannedEffect::Apply(_) => Wanted::None,
            PlannedEffect::Invite(_) | PlannedEffect::Recover => Wanted::Raise,
            PlannedEffect::Place(_, work) => Wanted::Put(**work),
            PlannedEffect::Finish(_, _, done) => done_wanted(*done),
        }
    }

    /// The same command, with the job where the plan has it.
    pub fn wanted(&self) -> WantedRef<'_>
        // Promise: The same command is lent, its job where the plan has it; `DurableNode` carries it out from there.
        // Refuses: raise_lent_for_a_job, done_of_a_finish_not_lent.
        ensures { lent_by result ≡ plan_wants self.now }
    {
        match &self.act {
            PlannedEffect::Stay(done) => done_lent(*done),
            PlannedEffect::Mark(_) => done_lent(None),
            PlannedEffect::Apply(_) => done_lent(None),
            PlannedEffect::Invite(_) | PlannedEffect::Recover => WantedRef::Raise,
            PlannedEffect::Place(_, work) => WantedRef::Put(work),
            PlannedEffect::Finish(_, _, done) => done_lent(*done),
        }
    }

    /// By how many jobs the work in hand may grow.
    pub(crate) fn gain(&self) -> usize
        ensures { result ≡ gain_of self.now.act }
    {
        match &self.act {
            PlannedEffect::Apply(change) => change.gains.len(),
            PlannedEffect::Place(_, _) => 1,
            PlannedEffect::Stay(_)
            | PlannedEffect::Mark(_)
            | PlannedEffect::Invite(_)
            | PlannedEffect::Recover
            | PlannedEffect::Finish(_, _, _) => 0,
        }
    }
}

/// The command that marks this job as done, if there is one.
fn done_wanted(done: Option<u64>) -> Wanted
    ensures { wanted_by result ≡ done_wanted done }
{
    match done {
        Some(id) => Wanted::Done(id),
        None => Wanted::None,
    }
}

/// The same command, lent.
fn done_lent(done: Option<u64>) -> WantedRef<'static>
    ensures { lent_by result ≡ done_wanted done }
{
    match done {
        Some(id) => WantedRef::Done(id),
        None => WantedRef::None,
    }
}

/// Writes to each of these nodes, in the room that is there.
pub fn write_to_each(messages: &mut Vec<Message>, id: NodeId, receivers: Members, body: &Body)
    requires others { has receivers id ≡ false }
    requires room { vec_len messages.old + length receivers ≤ vec_capacity messages.old }
    ensures value { messages.new.items ≡ messages.old.items ++ to_each id receivers body.now }
    ensures len { vec_len messages.new ≡ vec_len messages.old + length receivers }
    ensures capacity { vec_capacity messages.new ≡ vec_capacity messages.old }
{
    let Some(first) = receivers.first() else {
        return;
    };
    let mut letter = Message::between(id, first, *body);
    for receiver in receivers.iter() {
        letter.readdress(receiver);
        messages.push_reserved(letter);
    }
}

/// A message to each of these other nodes, written into an empty list. It stands in each row that calls it, so that a body that is known
/// there isn't copied.
#[inline(always)]
pub fn letters(
    room: Vec<Message>,
    node_view: &NodeView<'_>,
    receivers: Members,
    body: &Body,
) -> Result<Vec<Message>, AllocError>
    requires room { room.items ≡ [] }
    requires others { AreOthers node_view.now.nodes node_view.now.id receivers }
    ensures value { IfOk result (λ messages. messages.items ≡ to_each node_view.now.id receivers body.now) }
    ensures few { IfOk result (λ messages. length messages.items < node_view.now.nodes) }
{
    let mut messages = with_room(room, receivers.len())?;
    write_to_each(&mut messages, node_view.id, receivers, body);
    Ok(messages)
}

/// Nothing changes, and nothing is sent.
pub fn nothing(room: Vec<Message>) -> Plan<'static>
    requires { room.items ≡ [] }
    ensures { (result.act ≡ PlannedEffect.Stay None) × (result.messages.items ≡ []) }
{
    Plan {
        act: PlannedEffect::Stay(None),
        messages: room,
    }
}

/// A new standing, and the jobs that come in hand.
pub fn changed(
    alloc: Global,
    group_state: GroupState,
    gains: Vec<InHand>,
) -> Result<Box<StateChange>, AllocError>
    ensures { IfOk result (λ change. change.value ≡ record { group_state = group_state; gains = gains }) }
{
    Ok(Box::new(alloc, StateChange { group_state, gains })?)
}

/// The change that is noted, and nothing is sent.
pub fn marked(room: Vec<Message>, note: StateUpdate) -> Plan<'static>
    requires { room.items ≡ [] }
    ensures { (result.act ≡ PlannedEffect.Mark note) × (result.messages.items ≡ []) }
{
    Plan {
        act: PlannedEffect::Mark(note),
        messages: room,
    }
}

/// A change, and nothing is sent.
pub fn quietly(room: Vec<Message>, change: Box<StateChange>) -> Plan<'static>
    requires { room.items ≡ [] }
    ensures { (result.act ≡ PlannedEffect.Apply change) × (result.messages.items ≡ []) }
{
    Plan {
        act: PlannedEffect::Apply(change),
        messages: room,
    }
}

/// Room for so many messages, in an empty list.
pub fn with_room(mut room: Vec<Message>, many: usize) -> Result<Vec<Message>, AllocError>
    requires { room.items ≡ [] }
    ensures empty { IfOk result (λ messages. messages.items ≡ []) }
    ensures room { IfOk result (λ messages. many ≤ vec_capacity messages) }
{
    room.reserve_exact(many)?;
    Ok(room)
}

/// The same group, made of its parts: a message that is made of it is then written once, and isn't copied.
pub fn copied(group: GroupNo) -> GroupNo
    ensures { result ≡ group }
{
    GroupNo::numbered(group.creator(), group.count())
}

/// One message is sent, in the room that is there.
pub fn reply(
    act: PlannedEffect<'static>,
    mut messages: Vec<Message>,
    message: Message,
) -> Plan<'static>
    requires empty { messages.items ≡ [] }
    requires room { 1 ≤ vec_capacity messages }
    ensures { (result.act ≡ act.entry) × (result.messages.items ≡ message ∷ []) }
{
    messages.push_reserved(message);
    Plan { act, messages }
}
