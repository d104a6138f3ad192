//! A message as it is kept, with the lists beside it, in which its longer parts stand.

ghost use Rattle.std.specs.Prelude.{◌≡◌, ◌+◌, ◌<◌, ◌≤◌, ◌++◌, ◌↔◌, IsTrue, length, vec_len, vec_capacity};
ghost use Rattle.job_model.specs.declared.payload.TheConstants.{PAYLOAD_CAPACITY};
ghost use Rattle.message_list.specs.PackedMessages.{letter_of, task_kept, work_kept, payload_kept, CanBeRead, HasPayload, work_said};
ghost use Rattle.wire_msg.specs.Kinds.{body_of, shape_of, Gives};
ghost use Rattle.message_list.specs.Lent.{shape_opened, message_opened, mark_by, mark_of, count_of, IsOpened};

use crate::packed_message::{PackedKind, PackedMessage, PackedWork};
use group_task::{GroupNo, Task};
use job_model::Work;
use wire_msg::{Body, Form, Message};

/// A packed message, lent with what is kept beside it.
#[derive(Clone, Copy)]
pub struct Opened<'a> {
    pub tasks: &'a [Task],
    pub works: &'a [PackedWork],
    pub payloads: &'a [u8],
    pub packed_message: &'a PackedMessage,
}

/// The packed message of the message in another list, where so many tasks and works are kept before it.
pub fn lent_letter_of(one: &Opened<'_>, tasks: usize, works: usize) -> PackedMessage
    requires { IsOpened one.now }
    ensures value { result ≡ letter_of tasks works (message_opened one.now) }
    ensures can_be_read { CanBeRead (tasks + 1) (works + 1) result }
{
    let (sender, receiver) = (one.packed_message.sender, one.packed_message.receiver);
    let kind = one.packed_message.kind;
    match kind {
        PackedKind::Short(_) => *one.packed_message,
        PackedKind::Ready => PackedMessage::beside(sender, receiver, kind, tasks),
        PackedKind::Work => PackedMessage::beside(sender, receiver, kind, works),
    }
}

/// Keeps the task of a Ready in another list, in the room that is there.
pub fn keep_lent_task(tasks: &mut Vec<Task>, one: &Opened<'_>)
    requires opened { IsOpened one.now }
    requires room { vec_len tasks.old < vec_capacity tasks.old }
    ensures tasks { tasks.new.items ≡ tasks.old.items ++ task_kept (shape_opened one.now) }
    ensures few { vec_len tasks.new ≤ vec_len tasks.old + 1 }
    ensures room { vec_capacity tasks.new ≡ vec_capacity tasks.old }
{
    if let PackedKind::Ready = one.packed_message.kind {
        tasks.push_reserved(one.tasks[one.packed_message.number as usize]);
    }
}

/// Keeps a Work in another list, where its payload begins here, in the room that is there.
pub fn keep_lent_work(works: &mut Vec<PackedWork>, start: usize, one: &Opened<'_>)
    requires opened { IsOpened one.now }
    requires room { vec_len works.old < vec_capacity works.old }
    ensures works { works.new.items ≡ works.old.items ++ work_kept start (shape_opened one.now) }
    ensures few { vec_len works.new ≤ vec_len works.old + 1 }
    ensures room { vec_capacity works.new ≡ vec_capacity works.old }
{
    if let PackedKind::Work = one.packed_message.kind {
        let work = one.works[one.packed_message.number as usize];
        works.push_reserved(PackedWork { start, ..work });
    }
}

/// Keeps the payload of a Work in another list, in the room that is there.
pub fn keep_lent_payload(payloads: &mut Vec<u8>, one: &Opened<'_>)
    requires opened { IsOpened one.now }
    requires room { vec_len payloads.old + PAYLOAD_CAPACITY ≤ vec_capacity payloads.old }
    ensures payloads { payloads.new.items ≡ payloads.old.items ++ payload_kept (shape_opened one.now) }
    ensures fits { length (payload_kept (shape_opened one.now)) ≤ PAYLOAD_CAPACITY }
    ensures few { vec_len payloads.new ≤ vec_len payloads.old + PAYLOAD_CAPACITY }
    ensures room { vec_capacity payloads.old ≤ vec_capacity payloads.new }
{
    if let PackedKind::Work = one.packed_message.kind {
        let work = &one.works[one.packed_message.number as usize];
        let bytes = &one.payloads[work.start..work.start + work.len];
        let _ = payloads.extend_from_slice(bytes);
    }
}

/// Whether the message that is kept is this one. None is made for it.
#[tactic(auto, using(crate::proofs::PackedMessages::body_if))]
pub fn is_message(one: &Opened<'_>, message: &Message) -> bool
    requires { IsOpened one.now }
    ensures { IsTrue result ↔ (message_opened one.now ≡ message.now) }
{
    one.packed_message.sender == message.sender()
        && one.packed_message.receiver == message.receiver()
        && has_shape(one, message.body())
}

/// Whether it says what this body does.
fn has_shape(one: &Opened<'_>, body: &Body) -> bool
    requires { IsOpened one.now }
    ensures { IsTrue result ↔ (shape_opened one.now ≡ shape_of body.now) }
{
    let packed_message = one.packed_message;
    match body.form() {
        Form::Short(short) => packed_message.kind == PackedKind::Short(short.kind)
            && packed_message.answer == short.answer
            && packed_message.creator == short.creator
            && packed_message.number == short.number,
        Form::Ready(task) => packed_message.kind == PackedKind::Ready
            && one.tasks[packed_message.number as usize] == *task,
        Form::Work(group, id, work) => packed_message.kind == PackedKind::Work
            && is_work(
                one.payloads,
                &one.works[packed_message.number as usize],
                group,
                id,
                work,
            ),
    }
}

/// Whether a Work that is kept is this one.
fn is_work(payloads: &[u8], kept: &PackedWork, group: GroupNo, id: u64, work: &Work) -> bool
    requires { HasPayload (length payloads.now) kept.now }
    ensures { IsTrue result ↔ (work_said payloads.now kept.now ≡ Gives group id work.now) }
{
    kept.group == group
        && kept.id == id
        && kept.queue == work.queue
        && kept.priority == work.priority
        && &payloads[kept.start..kept.start + kept.len] == work.payload.as_slice()
}

/// Whether they are one message.
pub fn is_same(one: &Opened<'_>, other: &Opened<'_>) -> bool
    requires one { IsOpened one.now }
    requires other { IsOpened other.now }
    ensures { IsTrue result ↔ (message_opened one.now ≡ message_opened other.now) }
{
    one.packed_message.sender == other.packed_message.sender
        && one.packed_message.receiver == other.packed_message.receiver
        && is_same_body(one, other)
}

/// Whether they have one body.
fn is_same_body(one: &Opened<'_>, other: &Opened<'_>) -> bool
    requires one { IsOpened one.now }
    requires other { IsOpened other.now }
    ensures { IsTrue result ↔ (body_of (shape_opened one.now) ≡ body_of (shape_opened other.now)) }
{
    has_same_shape(one, other)
}

/// Whether they say the same.
fn has_same_shape(one: &Opened<'_>, other: &Opened<'_>) -> bool
    requires one { IsOpened one.now }
    requires other { IsOpened other.now }
    ensures { IsTrue result ↔ (shape_opened one.now ≡ shape_opened other.now) }
{
    let (a, b) = (one.packed_message, other.packed_message);
    if a.kind != b.kind {
        return false;
    }
    match a.kind {
        PackedKind::Short(_) => a.answer == b.answer
            && a.creator == b.creator
            && a.number == b.number,
        PackedKind::Ready => one.tasks[a.number as usize] == other.tasks[b.number as usize],
        PackedKind::Work => is_same_work(
            one.payloads,
            &one.works[a.number as usize],
            other.payloads,
            &other.works[b.number as usize],
        ),
    }
}

/// Whether two Works say the same.
fn is_same_work(
    payloads: &[u8],
    one: &PackedWork,
    other_payloads: &[u8],
    other: &PackedWork,
) -> bool
    requires one { HasPayload (length payloads.now) one.now }
    requires other { HasPayload (length other_payloads.now) other.now }
    ensures { IsTrue result ↔ (work_said payloads.now one.now ≡ work_said other_payloads.now other.now) }
{
    one.group == other.group
        && one.id == other.id
        && one.queue == other.queue
        && one.priority == other.priority
        && &payloads[one.start..one.start + one.len]
            == &other_payloads[other.start..other.start + other.len]
}

/// The mark of the message. Equal messages have one mark; of others those share it that differ in what it leaves out: the count of a
/// Work's group, its queue, priority and payload, the members of a Ready, an answer.
pub fn mark(one: &Opened<'_>) -> u128
    requires { IsOpened one.now }
    ensures { result ≡ mark_of (message_opened one.now) }
{
    let packed_message = one.packed_message;
    let number = packed_message.number;
    match packed_message.kind {
        PackedKind::Short(kind) => mark_by(
            packed_message,
            kind.number(),
            packed_message.creator.number(),
            number,
        ),
        PackedKind::Ready => {
            let group = one.tasks[number as usize].group();
            mark_by(packed_message, 7, group.creator().number(), group.count())
        }
        PackedKind::Work => {
            let work = &one.works[number as usize];
            mark_by(packed_message, 9, work.group.creator().number(), work.id)
        }
    }
}

/// The count of a Work's group, and 0 of a message that is no Work. Beside the mark it tells apart the Works of one job, which is sent
/// again in each new group.
pub fn count(one: &Opened<'_>) -> u64
    requires { IsOpened one.now }
    ensures { result ≡ count_of (message_opened one.now) }
{
    match one.packed_message.kind {
        PackedKind::Work => one.works[one.packed_message.number as usize].group.count(),
        PackedKind::Short(_) | PackedKind::Ready => 0,
    }
}

/// The mark of a message between the ends of a packed message, whose body has this kind, and names this node and this number.
fn mark_by(packed_message: &PackedMessage, kind: u8, node: u8, number: u64) -> u128
    ensures { result ≡ mark_by packed_message.now.sender packed_message.now.receiver kind node number }
{
    let ends = u64::from(packed_message.sender.number()) * 256
        + u64::from(packed_message.receiver.number());
    let named = (ends * 256 + u64::from(node)) * 256 + u64::from(kind);
    u128::from(named) * 2u128.pow(64) + u128::from(number)
}
