//! Messages as they are kept: 16 bytes for each, and what is longer in lists beside it.

ghost use Rattle.std.specs.Prelude.{◌≡◌, ◌≢◌, ◌+◌, ◌<◌, ◌≤◌, ◌++◌, length, vec_len, vec_capacity, All, false};
ghost use Rattle.wire_msg.specs.Kinds.{shape_of, body_of};
ghost use Rattle.message_list.specs.PackedMessages.{letter_of, task_kept, work_kept, payload_kept, message_of, HasBody, CanBeRead, HasPayload, work_said};
ghost use Rattle.job_model.specs.declared.payload.TheConstants.{PAYLOAD_CAPACITY};

use group_task::{GroupNo, NodeId, Task, share};
use job_model::{PAYLOAD_CAPACITY, Queue};
use std::mem::size_of;
use wire_msg::{Body, Form, Kind, LentWork, Message, Short};

/// Whether a packed message is the whole message, whose body has a short form of this kind, or a task or a work is kept beside it.
#[derive(Clone, Copy, Debug, PartialEq, Eq)]
pub enum PackedKind {
    Short(Kind),
    Ready,
    Work,
}

/// A message as it is kept: its ends, and the short form of its body, or the place of its task or work in the list beside, as the
/// number. What is not said then is the sender, or no.
#[derive(Clone, Copy, Debug)]
pub struct PackedMessage {
    pub sender: NodeId,
    pub receiver: NodeId,
    pub kind: PackedKind,
    pub answer: bool,
    pub creator: NodeId,
    pub number: u64,
}

impl PackedMessage {
    /// One whose task or work is kept beside, at this place.
    #[inline]
    pub fn beside(sender: NodeId, receiver: NodeId, kind: PackedKind, place: usize) -> PackedMessage
        ensures { result ≡ record { sender = sender; receiver = receiver; kind = kind; answer = false; creator = sender; number = place } }
    {
        PackedMessage {
            sender,
            receiver,
            kind,
            answer: false,
            creator: sender,
            number: place as u64,
        }
    }
}

// a long list takes about what the spellings of its messages take
const _: () = prove!(size_of::<PackedMessage>() == 16);

/// A Work as it is kept: where its payload begins among all payloads, and how long it is.
#[derive(Clone, Copy, Debug)]
pub struct PackedWork {
    pub group: GroupNo,
    pub id: u64,
    pub queue: Queue,
    pub priority: u8,
    pub start: usize,
    pub len: usize,
}

/// The packed message of a message, where so many tasks and works are kept before it.
pub fn letter_of(message: &Message, tasks: usize, works: usize) -> PackedMessage
    ensures value { result ≡ letter_of tasks works message.now }
    ensures can_be_read { CanBeRead (tasks + 1) (works + 1) result }
{
    let (sender, receiver) = (message.sender(), message.receiver());
    match message.body().form() {
        Form::Short(short) => PackedMessage {
            sender,
            receiver,
            kind: PackedKind::Short(short.kind),
            answer: short.answer,
            creator: short.creator,
            number: short.number,
        },
        Form::Ready(_) => PackedMessage::beside(sender, receiver, PackedKind::Ready, tasks),
        Form::Work(_, _, _) => PackedMessage::beside(sender, receiver, PackedKind::Work, works),
    }
}

/// Keeps the task of a Ready, in the room that is there.
pub fn keep_task(tasks: &mut Vec<Task>, body: &Body)
    requires { vec_len tasks.old < vec_capacity tasks.old }
    ensures tasks { tasks.new.items ≡ tasks.old.items ++ task_kept (shape_of body.now) }
    ensures few { vec_len tasks.new ≤ vec_len tasks.old + 1 }
    ensures room { vec_capacity tasks.new ≡ vec_capacity tasks.old }
{
    if let Body::Ready(task) = body {
        tasks.push_reserved(*task);
    }
}

/// Keeps a Work whose payload begins here, in the room that is there.
pub fn keep_work(works: &mut Vec<PackedWork>, start: usize, body: &Body)
    requires { vec_len works.old < vec_capacity works.old }
    ensures works { works.new.items ≡ works.old.items ++ work_kept start (shape_of body.now) }
    ensures few { vec_len works.new ≤ vec_len works.old + 1 }
    ensures room { vec_capacity works.new ≡ vec_capacity works.old }
{
    if let Body::Work { group, id, work } = body {
        works.push_reserved(PackedWork {
            group: *group,
            id: *id,
            queue: work.queue,
            priority: work.priority,
            start,
            len: work.payload.len(),
        });
    }
}

/// Keeps the payload of a Work, in the room that is there.
pub fn keep_payload(payloads: &mut Vec<u8>, body: &Body)
    requires { vec_len payloads.old + PAYLOAD_CAPACITY ≤ vec_capacity payloads.old }
    ensures payloads { payloads.new.items ≡ payloads.old.items ++ payload_kept (shape_of body.now) }
    ensures fits { length (payload_kept (shape_of body.now)) ≤ PAYLOAD_CAPACITY }
    ensures few { vec_len payloads.new ≤ vec_len payloads.old + PAYLOAD_CAPACITY }
    ensures room { vec_capacity payloads.old ≤ vec_capacity payloads.new }
{
    if let Body::Work { work, .. } = body {
        let _ = payloads.extend_from_slice(work.payload.as_slice());
    }
}

/// Makes `message` the one of a packed message whose group has a count, and whose task or work is kept. It is written in place, since a
/// message is long.
pub fn read_letter(
    tasks: &[Task],
    works: &[PackedWork],
    payloads: &[u8],
    packed_message: &PackedMessage,
    message: &mut Message,
)
    requires ends { packed_message.now.sender ≢ packed_message.now.receiver }
    requires body { HasBody (length tasks.now) (length works.now) packed_message.now.kind packed_message.now }
    requires payloads { All (HasPayload (length payloads.now)) works.now }
    ensures { message.new ≡ message_of tasks.now works.now payloads.now packed_message.now }
{
    let PackedMessage {
        sender,
        receiver,
        kind,
        answer,
        creator,
        number,
    } = *packed_message;
    match kind {
        PackedKind::Short(kind) => {
            let short = Short {
                kind,
                answer,
                creator,
                number,
            };
            message.set_short(sender, receiver, short);
        }
        PackedKind::Ready => {
            let task = &tasks[number as usize];
            read_ready(task, sender, receiver, message);
        }
        PackedKind::Work => {
            let work = &works[number as usize];
            read_work(payloads, work, sender, receiver, message);
        }
    }
}

/// Makes `message` the Ready that tells this task. It stands apart, as [`read_work`] does, and takes the task to pieces, so that the
/// whole message is written once.
#[inline(never)]
fn read_ready(task: &Task, sender: NodeId, receiver: NodeId, message: &mut Message)
    requires { sender ≢ receiver }
    ensures { message.new ≡ record { sender = sender; receiver = receiver; body = Body.Ready task.now } }
{
    let members = task.members();
    let group = task.group();
    let group = GroupNo::numbered(group.creator(), group.count());
    message.set(sender, receiver, Body::Ready(share(group, members)));
}

/// Makes `message` the Work that is kept, in its place. It stands apart, since each call of a function pays for the size of its locals, and
/// where `message` is no Work a whole body is one.
#[inline(never)]
fn read_work(
    payloads: &[u8],
    work: &PackedWork,
    sender: NodeId,
    receiver: NodeId,
    message: &mut Message,
)
    requires ends { sender ≢ receiver }
    requires payload { HasPayload (length payloads.now) work.now }
    ensures { message.new ≡ record { sender = sender; receiver = receiver; body = body_of (work_said payloads.now work.now) } }
{
    let lent = LentWork {
        group: work.group,
        id: work.id,
        queue: work.queue,
        priority: work.priority,
        payload: &payloads[work.start..work.start + work.len],
    };
    message.set_work(sender, receiver, &lent);
}
